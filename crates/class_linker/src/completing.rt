//! The last steps of a load: what a class is based on is tested, and the class is loaded.
ghost use Rattle.class_tree.specs.Flags.{is_public};
ghost use Rattle.loader_rules.specs.Packages.{share_package};
ghost use Rattle.class_record.specs.Trees as trees;
ghost use Rattle.class_record.specs.Loading.{is_among};
ghost use Rattle.std.specs.Prelude.{◌≡◌, true, ◌+◌, ◌<◌, ◌||◌, List, ℕ, None, length, OnOk, IsErrOf};
ghost use Rattle.class_record.specs.Files.{Name, RunFiles};
ghost use Rattle.class_record.specs.declared.fault.TheConstants.{MAX_LOADED};
ghost use Rattle.class_tree.specs.declared.tree.ClassTree.{ClassTree};
ghost use Rattle.class_linker.specs.declared.readings.Reading.{Reading};
ghost use Rattle.class_linker.specs.Finishing.{IsTested, IsReady, LoadsTree};
ghost use Rattle.class_record.specs.Calls.{NamesLimit};
ghost use Rattle.class_linker.specs.Kept.{IsKept, IsPath, GrowsTo, advanced, names_loaded};
ghost use Rattle.class_linker.specs.Paths.{without_top};
ghost use Rattle.class_linker.specs.Rights.{IsRight, IsPathOf, AreSeen, progress_at};
ghost use Rattle.class_linker.specs.Steps.{HasNext, HasNone, Passes, CompletesTop, IsAwaited};

use crate::library::Library;
use crate::readings::Held;
use crate::under_way::UnderWay;
use class_record::{Base, BaseKind, Classes, ClassesFault, JavaFault, MAX_LOADED};
use class_tree::{is_interface, is_public};
use jsa_base::Quantity;
use loaded_classes::LoadedClasses;
use loader_rules::{Loader, same_package};
use std::alloc::AllocError;

/// Tests the next base of the innermost class, which is loaded, and goes on behind it. Answers the throwable where it doesn't
/// pass. Does nothing where no class is under way.
pub(crate) fn pass_base(library: &Library, path: &mut UnderWay) -> Option<JavaFault>
    requires path { IsPath library.now.readings library.now.loaded path.old }
    requires next { HasNext library.now.loaded path.old }
    ensures path { IsPath library.now.readings library.now.loaded path.new }
    ensures advances { result ≡ None → path.new ≡ advanced path.old }
    ensures told { (p : RunFiles) (reads : List (List ℕ)) → IsRight p library.now.readings library.now.loaded → IsPathOf p library.now.loaded path.old
        → AreSeen p path.old → Passes p path.old path.new (progress_at reads library.now.readings library.now.loaded) result × IsPathOf p library.now.loaded path.new }
{
    let Some(top) = path.top() else {
        return None;
    };
    let base = &top.bases.as_slice()[top.done];
    if let Some(fault) = base_fault(&library.loaded, top.name.as_slice(), top.loader, base) {
        return Some(fault);
    }
    path.advance();
    None
}

// The throwable that a loaded base of the class `name`, which `loader` defines, is refused with.
fn base_fault(loaded: &LoadedClasses, name: &[u8], loader: Loader, base: &Base) -> Option<JavaFault>
    requires { is_among base.now.name (names_loaded loaded.now) ≡ true }
    ensures { IsTested loaded.now.classes name.now loader base.now result }
{
    let Some(id) = loaded.find_loaded(base.name.as_slice()) else {
        unreachable!();
    };
    let flags = loaded.flags(id);
    if !is_accessible(name, loader, base.name.as_slice(), flags, loaded.loader(id)) {
        return Some(JavaFault::IllegalAccessError);
    }
    if !suits(base.kind, flags) {
        return Some(JavaFault::IncompatibleClassChangeError);
    }
    None
}

// Whether a class is accessible to the class `name`: where it is public or of the same run-time package (JVMS 5.4.4).
fn is_accessible(
    name: &[u8],
    loader: Loader,
    other: &[u8],
    flags: u16,
    other_loader: Loader,
) -> bool
    ensures { result ≡ (is_public flags || share_package other.now other_loader name.now loader) }
{
    is_public(flags) || same_package(other, other_loader, name, loader)
}

fn suits(kind: BaseKind, flags: u16) -> bool
    ensures { result ≡ trees.suits kind flags }
{
    match kind {
        BaseKind::Superclass => !is_interface(flags),
        BaseKind::Superinterface => is_interface(flags),
    }
}

/// Loads the innermost class, all of whose bases are loaded and tested.
pub(crate) fn complete(library: &mut Library, path: &mut UnderWay) -> Result<(), ClassesFault>
    requires kept { IsKept library.old.readings library.old.loaded }
    requires path { IsPath library.old.readings library.old.loaded path.old }
    requires none { HasNone path.old }
    ensures kept { IsKept library.new.readings library.new.loaded }
    ensures path { OnOk result (IsPath library.new.readings library.new.loaded path.new) }
    ensures next { OnOk result (HasNext library.new.loaded path.new) }
    ensures pops { OnOk result (path.new ≡ without_top path.old) }
    ensures grows { GrowsTo library.old.loaded library.new.loaded }
    ensures more { OnOk result (length library.new.loaded.classes ≡ length library.old.loaded.classes + 1) }
    ensures limit { NamesLimit result }
    ensures reads { IsErrOf result ClassesFault.Read → ⊥ }
    ensures awaits { OnOk result ((name : Name) → IsAwaited name library.old.loaded path.old → IsAwaited name library.new.loaded path.new) }
    ensures told { (p : RunFiles) (reads : List (List ℕ)) → IsRight p library.old.readings library.old.loaded → IsPathOf p library.old.loaded path.old
        → CompletesTop p path.old path.new (progress_at reads library.old.readings library.old.loaded) (progress_at reads library.new.readings library.new.loaded) result
        × IsRight p library.new.readings library.new.loaded }
{
    let Some(top) = path.top() else {
        unreachable!();
    };
    if library.loaded.count() == MAX_LOADED {
        return Err(ClassesFault::Limit(Quantity::Loaded, u64::from(MAX_LOADED)));
    }
    match load_tree(library, top.place, top.loader) {
        Ok(()) => {
            path.pop();
            Ok(())
        }
        Err(_) => Err(ClassesFault::Memory),
    }
}

// Loads the class whose tree is held at a place.
fn load_tree(library: &mut Library, place: usize, loader: Loader) -> Result<(), AllocError>
    requires ready { (r : Reading) × (tree : ClassTree) × IsReady library.old.readings library.old.loaded place r tree }
    requires few { length library.old.loaded.classes < MAX_LOADED }
    ensures { (r : Reading) (tree : ClassTree) → IsReady library.old.readings library.old.loaded place r tree
        → LoadsTree loader place r tree library.old.readings library.new.readings library.old.loaded library.new.loaded result }
{
    let folder = library.readings.at(place).folder;
    match library.readings.take(place) {
        Held::Tree(tree) => match library.loaded.push(loader, folder, tree) {
            Ok(_) => Ok(()),
            Err(tree) => {
                library.readings.put_back(place, Held::Tree(tree));
                Err(AllocError)
            }
        },
        _ => unreachable!(),
    }
}
