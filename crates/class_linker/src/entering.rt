//! The first steps of a load: whether the class is loaded, its file is found, and its loading begins.
ghost use Rattle.std.specs.Prelude.{◌≡◌, ◌+◌, ◌<◌, ◌≤◌, ◌∷◌, ◌++◌, [], if◌then◌else◌, true, false, Some, Err, length, map, slice_get, IfOk, IfErr, OnOk, OnErr, IsErrOf};
ghost use Rattle.std.specs.Option.{option_to_list};
ghost use Rattle.jsa_files.specs.Store.{Store};
ghost use Rattle.loader_rules.specs.Outcomes.{FindsSmall};
ghost use Rattle.class_record.specs.Calls.{CountsRead, NamesLimit};
ghost use Rattle.class_record.specs.Readings.{reading_of};
ghost use Rattle.class_tree.specs.ClassNames as class_names;
ghost use Rattle.class_record.specs.Trees as trees;
ghost use Rattle.class_record.specs.Loading.{is_among};
ghost use Rattle.class_record.specs.declared.bases.BaseKind.TheVariants as kinds;
ghost use Rattle.class_record.specs.declared.fault.JavaFault.TheVariants as faults;
ghost use Rattle.class_tree.specs.WellFormed.{class_name};
ghost use Rattle.class_linker.specs.declared.entering.Entered.TheVariants as entered;
ghost use Rattle.class_linker.specs.declared.readings.Reading.{Reading};
ghost use Rattle.class_linker.specs.Adds.{Adds, IsShortHeld};
ghost use Rattle.class_linker.specs.Entries.{AddsEntry, MayAdd, entry, entry_of, entry_of_tree, fault_after};
ghost use Rattle.class_linker.specs.Kept.{IsKept, IsPath, names_loaded, names_read, names_under};
ghost use Rattle.class_linker.specs.Rights.{ForFiles, IsRight, IsPathOf, IsHeldOf, progress_of};
ghost use Rattle.class_linker.specs.Steps.{Enters, IsAsked, ForStores, KeepsFiles, KeepsPath};

use crate::library::Library;
use crate::readings::{Held, Reading};
use crate::under_way::{Frame, UnderWay};
use class_record::{Base, BaseKind, Classes, ClassesFault, JavaFault, sees};
use class_tree::{ClassTree, FormatFault};
use classfile_reader::read_class;
use jsa_base::Quantity;
use jsa_files::{Files, FilesFault, MAX_FILE};
use loader_rules::{Found, Loader, Paths, find};
use sqlite_items::Items;
use std::alloc::{AllocError, Global};

/// What entering the name of a class comes to.
#[derive(Clone, Copy, Debug)]
pub(crate) enum Entered {
    /// The class is loaded.
    Present,
    /// Its loading is under way now.
    Begun,
    /// Its load ends so.
    Fails(JavaFault),
}

/// Begins the load of a name from a loader, while the classes of the path are under way.
pub(crate) fn enter<F: Files>(
    alloc: Global,
    paths: &Paths,
    files: &mut F,
    library: &mut Library,
    path: &mut UnderWay,
    name: &[u8],
    from: Loader,
) -> Result<Entered, ClassesFault>
    requires kept { IsKept library.old.readings library.old.loaded }
    requires path { IsPath library.old.readings library.old.loaded path.old }
    requires asked { IsAsked name.now from path.old }
    requires right { ForFiles (F.store files.old) paths.now (λ p. IsRight p library.old.readings library.old.loaded) }
    requires path_right { ForFiles (F.store files.old) paths.now (λ p. IsPathOf p library.old.loaded path.old) }
    ensures told { ForStores (F.store files.old) (F.store files.new) paths.now (λ p s t. Enters p from name.now path.old path.new
        (progress_of s library.old.readings library.old.loaded) (progress_of t library.new.readings library.new.loaded) result) }
    ensures keeps { KeepsPath name.now library.old.loaded path.old path.new result }
    ensures loaded { library.new.loaded ≡ library.old.loaded }
    ensures kept { IsKept library.new.readings library.new.loaded }
    ensures path { OnOk result (IsPath library.new.readings library.new.loaded path.new) }
    ensures right { ForFiles (F.store files.new) paths.now (λ p. IsRight p library.new.readings library.new.loaded) }
    ensures path_right { OnOk result (ForFiles (F.store files.new) paths.now (λ p. IsPathOf p library.new.loaded path.new)) }
    ensures limit { NamesLimit result }
    ensures cause { CountsRead (F.read_faults files.old) (F.read_faults files.new) result }
    ensures failed { IsErrOf result ClassesFault.Read → F.can_fail files.old }
    ensures stays { F.can_fail files.new → F.can_fail files.old }
    ensures writes { F.write_faults files.new ≡ F.write_faults files.old }
    ensures files { KeepsFiles (F.store files.old) (F.store files.new) }
{
    if let Some(id) = library.loaded.find_loaded(name) {
        return Ok(present(sees(from, library.loaded.loader(id))));
    }
    match library.readings.find(name) {
        Some(place) => Ok(enter_read(alloc, library, path, name, from, place)?),
        None => enter_found(alloc, paths, files, library, path, name, from),
    }
}

fn present(is_seen: bool) -> Entered
    ensures { result ≡ (if is_seen then entered.Present else entered.Fails faults.NoClassDefFoundError) }
{
    if is_seen {
        return Entered::Present;
    }
    Entered::Fails(JavaFault::NoClassDefFoundError)
}

// Looks for the class file of a name that none was read for.
fn enter_found<F: Files>(
    alloc: Global,
    paths: &Paths,
    files: &mut F,
    library: &mut Library,
    path: &mut UnderWay,
    name: &[u8],
    from: Loader,
) -> Result<Entered, ClassesFault>
    requires kept { IsKept library.old.readings library.old.loaded }
    requires path { IsPath library.old.readings library.old.loaded path.old }
    requires asked { IsAsked name.now from path.old }
    requires right { ForFiles (F.store files.old) paths.now (λ p. IsRight p library.old.readings library.old.loaded) }
    requires path_right { ForFiles (F.store files.old) paths.now (λ p. IsPathOf p library.old.loaded path.old) }
    requires is_new { is_among name.now (names_loaded library.old.loaded) ≡ false }
    requires unread { is_among name.now (names_read library.old.readings) ≡ false }
    ensures told { ForStores (F.store files.old) (F.store files.new) paths.now (λ p s t. Enters p from name.now path.old path.new
        (progress_of s library.old.readings library.old.loaded) (progress_of t library.new.readings library.new.loaded) result) }
    ensures keeps { KeepsPath name.now library.old.loaded path.old path.new result }
    ensures loaded { library.new.loaded ≡ library.old.loaded }
    ensures kept { IsKept library.new.readings library.new.loaded }
    ensures path { OnOk result (IsPath library.new.readings library.new.loaded path.new) }
    ensures right { ForFiles (F.store files.new) paths.now (λ p. IsRight p library.new.readings library.new.loaded) }
    ensures path_right { OnOk result (ForFiles (F.store files.new) paths.now (λ p. IsPathOf p library.new.loaded path.new)) }
    ensures limit { NamesLimit result }
    ensures cause { CountsRead (F.read_faults files.old) (F.read_faults files.new) result }
    ensures failed { IsErrOf result ClassesFault.Read → F.can_fail files.old }
    ensures stays { F.can_fail files.new → F.can_fail files.old }
    ensures writes { F.write_faults files.new ≡ F.write_faults files.old }
    ensures files { KeepsFiles (F.store files.old) (F.store files.new) }
{
    match find(alloc, paths, files, name, from) {
        Ok(None) => Ok(Entered::Fails(JavaFault::NoClassDefFoundError)),
        Ok(Some(found)) => Ok(enter_new(alloc, library, path, name, from, found)?),
        Err(fault) => Err(classes_fault(fault)),
    }
}

fn classes_fault(fault: FilesFault) -> ClassesFault
    requires { FindsSmall (Err fault) }
    ensures { result ≡ fault_after fault }
{
    match fault {
        FilesFault::Failed => ClassesFault::Read,
        FilesFault::TooLarge(_) => ClassesFault::Limit(Quantity::FileSize, MAX_FILE as u64),
        FilesFault::TooMany(_) => unreachable!(),
        FilesFault::Memory => ClassesFault::Memory,
    }
}

// Begins the load of a name whose class file was found, and is kept from now on.
fn enter_new(
    alloc: Global,
    library: &mut Library,
    path: &mut UnderWay,
    name: &[u8],
    from: Loader,
    found: Found,
) -> Result<Entered, AllocError>
    requires { is_among name.now (names_read library.old.readings) ≡ false }
    ensures loaded { library.new.loaded ≡ library.old.loaded }
    ensures may_add { MayAdd library.old.readings library.new.readings name.now found.loader found.folder found.bytes.items }
    ensures entry { IfOk result (λ answer. AddsEntry library.old.readings library.new.readings from name.now found.loader found.folder found.bytes.items
        path.old (entry answer path.new)) }
{
    let place = keep(alloc, library, name, found)?;
    enter_read(alloc, library, path, name, from, place)
}

// Keeps what the file that was found for a name is read as, and answers its place.
fn keep(
    alloc: Global,
    library: &mut Library,
    name: &[u8],
    found: Found,
) -> Result<usize, AllocError>
    requires { is_among name.now (names_read library.old.readings) ≡ false }
    ensures loaded { library.new.loaded ≡ library.old.loaded }
    ensures ok { IfOk result (λ place. Adds library.old.readings library.new.readings place name.now found.loader found.folder found.bytes.items) }
    ensures err { OnErr result (library.new.readings ≡ library.old.readings) }
{
    let held = held_of(alloc, found.bytes.as_slice())?;
    library.readings.push(Reading {
        name: Items::from_slice(alloc, name)?,
        loader: found.loader,
        folder: found.folder,
        held,
    })
}

fn held_of(alloc: Global, bytes: &[u8]) -> Result<Held, AllocError>
    ensures held { IfOk result (λ held. IsHeldOf (reading_of bytes.now) held) }
    ensures short { IfOk result (λ held. IsShortHeld held) }
{
    match read_class(alloc, bytes) {
        Ok(tree) => Ok(Held::Tree(tree)),
        Err(FormatFault::NotClass) => Ok(Held::NotClass),
        Err(FormatFault::Version(_, _)) => Ok(Held::OtherVersion),
        Err(FormatFault::Memory) => Err(AllocError),
    }
}

// Begins the load of a name whose class file was read.
fn enter_read(
    alloc: Global,
    library: &Library,
    path: &mut UnderWay,
    name: &[u8],
    from: Loader,
    place: usize,
) -> Result<Entered, AllocError>
    requires place { place < length library.now.readings }
    requires held { (r : Reading) → slice_get library.now.readings place ≡ Some r → IsShortHeld r.held }
    ensures entry { IfOk result (λ answer. (r : Reading) → slice_get library.now.readings place ≡ Some r → entry_of from name.now place r path.old ≡ entry answer path.new) }
{
    let reading = library.readings.at(place);
    if !sees(from, reading.loader) {
        return Ok(Entered::Fails(JavaFault::NoClassDefFoundError));
    }
    if path.holds(name) {
        return Ok(Entered::Fails(JavaFault::ClassCircularityError));
    }
    match &reading.held {
        Held::Tree(tree) => enter_tree(alloc, path, name, place, reading.loader, tree),
        Held::Loaded => unreachable!(),
        Held::OtherVersion => Ok(Entered::Fails(JavaFault::UnsupportedClassVersionError)),
        Held::NotClass => Ok(Entered::Fails(JavaFault::ClassFormatError)),
    }
}

// Begins the load of a name whose class file is a class.
fn enter_tree(
    alloc: Global,
    path: &mut UnderWay,
    name: &[u8],
    place: usize,
    loader: Loader,
    tree: &ClassTree,
) -> Result<Entered, AllocError>
    requires { is_among name.now (names_under path.old) ≡ false }
    ensures entry { IfOk result (λ answer. entry_of_tree name.now place loader tree.now path.old ≡ entry answer path.new) }
{
    if tree.own_name() != name {
        return Ok(Entered::Fails(JavaFault::NoClassDefFoundError));
    }
    let bases = bases_of(alloc, tree)?;
    path.push(Frame {
        name: Items::from_slice(alloc, name)?,
        place,
        loader,
        bases,
        done: 0,
    })?;
    Ok(Entered::Begun)
}

// The superclass, then the direct superinterfaces in their order.
fn bases_of(alloc: Global, tree: &ClassTree) -> Result<Items<Base>, AllocError>
    ensures { IfOk result (λ bases. bases ≡ trees.bases_of tree.now) }
{
    let mut bases = Items::new(alloc);
    push_base(alloc, tree, BaseKind::Superclass, tree.sup, &mut bases)?;
    push_interfaces(alloc, tree, &mut bases)?;
    Ok(bases)
}

fn push_interfaces(
    alloc: Global,
    tree: &ClassTree,
    bases: &mut Items<Base>,
) -> Result<(), AllocError>
    ensures { OnOk result (bases.new ≡ bases.old ++ map (trees.base_of kinds.Superinterface) (class_names.interface_names tree.now)) }
{
    for index in tree.interfaces.as_slice() {
        push_base(alloc, tree, BaseKind::Superinterface, *index, bases)?;
    }
    Ok(())
}

// Puts the class at an index of the pool at the end, if one is there.
fn push_base(
    alloc: Global,
    tree: &ClassTree,
    kind: BaseKind,
    index: u16,
    bases: &mut Items<Base>,
) -> Result<(), AllocError>
    ensures { OnOk result (bases.new ≡ bases.old ++ map (trees.base_of kind) (option_to_list (class_name tree.now.pool index))) }
{
    if let Some(name) = tree.pool.class_name(index) {
        let name = Items::from_slice(alloc, name)?;
        bases.push(Base { kind, name })?;
    }
    Ok(())
}
