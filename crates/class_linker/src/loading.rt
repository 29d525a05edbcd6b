//! The steps of a load, one after the other.
ghost use Rattle.std.specs.Prelude.{◌≡◌, ◌<◌, ◌^◌, List, ℕ, None, Ok, true, length, IfOk, OnOk, IsErrOf};
ghost use Rattle.class_record.specs.Files.{RunFiles};
ghost use Rattle.class_record.specs.Calls.{CountsRead, NamesLimit};
ghost use Rattle.class_record.specs.Loading.{is_among, load_of};
ghost use Rattle.class_linker.specs.Kept.{IsKept, IsPath, names_loaded, GrowsTo};
ghost use Rattle.class_linker.specs.Rights.{ForFiles, IsRight, IsPathOf, progress_of, progress_at};
ghost use Rattle.class_linker.specs.Steps.{Goes, Ends, left_of, IsNext, IsAwaited, IsSomePath, IsAsked, HasNone, ForStores, KeepsFiles};
ghost use Rattle.class_linker.specs.Finishing.{Finishes};
ghost use Rattle.class_linker.specs.Work.{work};

use crate::completing::{complete, pass_base};
use crate::entering::{Entered, enter};
use crate::library::Library;
use crate::under_way::UnderWay;
use class_record::{Classes, ClassesFault, JavaFault};
use jsa_files::Files;
use loader_rules::{Loader, Paths};
use sqlite_items::{Items, at};
use std::alloc::{AllocError, Global};

// A class that is to be loaded.
#[derive(Debug, Drop)]
struct Next {
    name: Items<u8>,
    loader: Loader,
}

// The next base of the innermost class.
fn next_base(alloc: Global, path: &UnderWay) -> Result<Option<Next>, AllocError>
    ensures { IfOk result (λ next. IsNext path.now next) }
{
    let Some(top) = path.top() else {
        return Ok(None);
    };
    match at(top.bases.as_slice(), top.done) {
        None => Ok(None),
        Some(base) => Ok(Some(Next {
            name: Items::from_slice(alloc, base.name.as_slice())?,
            loader: top.loader,
        })),
    }
}

// The innermost class completes, and the class that waits for it goes on behind it.
fn finish(library: &mut Library, path: &mut UnderWay) -> Result<Option<JavaFault>, ClassesFault>
    requires kept { IsKept library.old.readings library.old.loaded }
    requires path { IsPath library.old.readings library.old.loaded path.old }
    requires none { HasNone path.old }
    ensures told { (p : RunFiles) (reads : List (List ℕ)) → IsRight p library.old.readings library.old.loaded → IsPathOf p library.old.loaded path.old
        → Finishes p path.old path.new library.new.readings library.new.loaded (progress_at reads library.old.readings library.old.loaded) (progress_at reads library.new.readings library.new.loaded) result }
    ensures falls { IfOk result (λ fault. fault ≡ None → work library.new.loaded path.new < work library.old.loaded path.old) }
    ensures awaits { IfOk result (λ fault. fault ≡ None → (name : List ℕ) → IsAwaited name library.old.loaded path.old → IsAwaited name library.new.loaded path.new) }
    ensures kept { IsKept library.new.readings library.new.loaded }
    ensures path { OnOk result (IsPath library.new.readings library.new.loaded path.new) }
    ensures grows { GrowsTo library.old.loaded library.new.loaded }
    ensures limit { NamesLimit result }
    ensures reads { IsErrOf result ClassesFault.Read → ⊥ }
{
    match complete(library, path) {
        Ok(()) => Ok(pass_base(library, path)),
        Err(fault) => Err(fault),
    }
}

// The next base of the innermost class is loaded already, or its loading begins.
fn begin<F: Files>(
    alloc: Global,
    paths: &Paths,
    files: &mut F,
    library: &mut Library,
    path: &mut UnderWay,
    next: &Next,
) -> Result<Option<JavaFault>, ClassesFault>
    requires kept { IsKept library.old.readings library.old.loaded }
    requires path { IsPath library.old.readings library.old.loaded path.old }
    requires few { length path.old < 2 ^ 64 }
    requires next { IsAsked next.now.name next.now.loader path.old }
    requires some { IsSomePath path.old }
    requires right { ForFiles (F.store files.old) paths.now (λ p. IsRight p library.old.readings library.old.loaded) }
    requires path_right { ForFiles (F.store files.old) paths.now (λ p. IsPathOf p library.old.loaded path.old) }
    ensures told { ForStores (F.store files.old) (F.store files.new) paths.now (λ p s t. Goes p path.old path.new
        (progress_of s library.old.readings library.old.loaded) (progress_of t library.new.readings library.new.loaded) result) }
    ensures falls { IfOk result (λ fault. fault ≡ None → work library.new.loaded path.new < work library.old.loaded path.old) }
    ensures awaits { IfOk result (λ fault. fault ≡ None → (name : List ℕ) → IsAwaited name library.old.loaded path.old → IsAwaited name library.new.loaded path.new) }
    ensures loaded { library.new.loaded ≡ library.old.loaded }
    ensures kept { IsKept library.new.readings library.new.loaded }
    ensures path { OnOk result (IsPath library.new.readings library.new.loaded path.new) }
    ensures right { ForFiles (F.store files.new) paths.now (λ p. IsRight p library.new.readings library.new.loaded) }
    ensures path_right { OnOk result (ForFiles (F.store files.new) paths.now (λ p. IsPathOf p library.new.loaded path.new)) }
    ensures limit { NamesLimit result }
    ensures cause { CountsRead (F.read_faults files.old) (F.read_faults files.new) result }
    ensures failed { IsErrOf result ClassesFault.Read → F.can_fail files.old }
    ensures stays { F.can_fail files.new → F.can_fail files.old }
    ensures writes { F.write_faults files.new ≡ F.write_faults files.old }
    ensures files { KeepsFiles (F.store files.old) (F.store files.new) }
{
    // At most so many classes are loaded: so a load ends.
    let _count = library.loaded.count();
    let name = next.name.as_slice();
    match enter(alloc, paths, files, library, path, name, next.loader) {
        Ok(Entered::Present) => Ok(pass_base(library, path)),
        Ok(Entered::Begun) => Ok(None),
        Ok(Entered::Fails(throwable)) => Ok(Some(throwable)),
        Err(fault) => Err(fault),
    }
}

// Makes one step: the innermost class completes, or its next base is loaded already or begins to be.
fn step<F: Files>(
    alloc: Global,
    paths: &Paths,
    files: &mut F,
    library: &mut Library,
    path: &mut UnderWay,
) -> Result<Option<JavaFault>, ClassesFault>
    requires kept { IsKept library.old.readings library.old.loaded }
    requires path { IsPath library.old.readings library.old.loaded path.old }
    requires few { length path.old < 2 ^ 64 }
    requires some { IsSomePath path.old }
    requires right { ForFiles (F.store files.old) paths.now (λ p. IsRight p library.old.readings library.old.loaded) }
    requires path_right { ForFiles (F.store files.old) paths.now (λ p. IsPathOf p library.old.loaded path.old) }
    ensures told { ForStores (F.store files.old) (F.store files.new) paths.now (λ p s t. Goes p path.old path.new
        (progress_of s library.old.readings library.old.loaded) (progress_of t library.new.readings library.new.loaded) result) }
    ensures falls { IfOk result (λ fault. fault ≡ None → work library.new.loaded path.new < work library.old.loaded path.old) }
    ensures awaits { IfOk result (λ fault. fault ≡ None → (name : List ℕ) → IsAwaited name library.old.loaded path.old → IsAwaited name library.new.loaded path.new) }
    ensures kept { IsKept library.new.readings library.new.loaded }
    ensures path { OnOk result (IsPath library.new.readings library.new.loaded path.new) }
    ensures right { ForFiles (F.store files.new) paths.now (λ p. IsRight p library.new.readings library.new.loaded) }
    ensures path_right { OnOk result (ForFiles (F.store files.new) paths.now (λ p. IsPathOf p library.new.loaded path.new)) }
    ensures grows { GrowsTo library.old.loaded library.new.loaded }
    ensures limit { NamesLimit result }
    ensures cause { CountsRead (F.read_faults files.old) (F.read_faults files.new) result }
    ensures failed { IsErrOf result ClassesFault.Read → F.can_fail files.old }
    ensures stays { F.can_fail files.new → F.can_fail files.old }
    ensures writes { F.write_faults files.new ≡ F.write_faults files.old }
    ensures files { KeepsFiles (F.store files.old) (F.store files.new) }
{
    match next_base(alloc, path)? {
        None => finish(library, path),
        Some(next) => begin(alloc, paths, files, library, path, &next),
    }
}

// Makes steps until no class is under way, or the load ends with a throwable.
fn run<F: Files>(
    alloc: Global,
    paths: &Paths,
    files: &mut F,
    library: &mut Library,
    path: &mut UnderWay,
) -> Result<Option<JavaFault>, ClassesFault>
    requires kept { IsKept library.old.readings library.old.loaded }
    requires path { IsPath library.old.readings library.old.loaded path.old }
    requires right { ForFiles (F.store files.old) paths.now (λ p. IsRight p library.old.readings library.old.loaded) }
    requires path_right { ForFiles (F.store files.old) paths.now (λ p. IsPathOf p library.old.loaded path.old) }
    ensures told { ForStores (F.store files.old) (F.store files.new) paths.now (λ p s t. Ends p (left_of p path.old)
        (progress_of s library.old.readings library.old.loaded) (progress_of t library.new.readings library.new.loaded) result) }
    ensures loaded { result ≡ Ok None → (name : List ℕ) → IsAwaited name library.old.loaded path.old → is_among name (names_loaded library.new.loaded) ≡ true }
    ensures kept { IsKept library.new.readings library.new.loaded }
    ensures right { ForFiles (F.store files.new) paths.now (λ p. IsRight p library.new.readings library.new.loaded) }
    ensures grows { GrowsTo library.old.loaded library.new.loaded }
    ensures limit { NamesLimit result }
    ensures cause { CountsRead (F.read_faults files.old) (F.read_faults files.new) result }
    ensures failed { IsErrOf result ClassesFault.Read → F.can_fail files.old }
    ensures stays { F.can_fail files.new → F.can_fail files.old }
    ensures writes { F.write_faults files.new ≡ F.write_faults files.old }
    ensures files { KeepsFiles (F.store files.old) (F.store files.new) }
{
    while path.top().is_some() {
        match step(alloc, paths, files, library, path) {
            Ok(None) => {}
            Ok(Some(fault)) => return Ok(Some(fault)),
            Err(fault) => return Err(fault),
        }
    }
    Ok(None)
}

/// Loads the class of a name from a loader, unless it is loaded. Answers the throwable that the load ends with, or `None`.
pub(crate) fn load_name<F: Files>(
    alloc: Global,
    paths: &Paths,
    files: &mut F,
    library: &mut Library,
    name: &[u8],
    from: Loader,
) -> Result<Option<JavaFault>, ClassesFault>
    requires kept { IsKept library.old.readings library.old.loaded }
    requires right { ForFiles (F.store files.old) paths.now (λ p. IsRight p library.old.readings library.old.loaded) }
    ensures told { ForStores (F.store files.old) (F.store files.new) paths.now (λ p s t. Ends p (load_of p from name.now)
        (progress_of s library.old.readings library.old.loaded) (progress_of t library.new.readings library.new.loaded) result) }
    ensures loaded { result ≡ Ok None → is_among name.now (names_loaded library.new.loaded) ≡ true }
    ensures kept { IsKept library.new.readings library.new.loaded }
    ensures right { ForFiles (F.store files.new) paths.now (λ p. IsRight p library.new.readings library.new.loaded) }
    ensures grows { GrowsTo library.old.loaded library.new.loaded }
    ensures limit { NamesLimit result }
    ensures cause { CountsRead (F.read_faults files.old) (F.read_faults files.new) result }
    ensures failed { IsErrOf result ClassesFault.Read → F.can_fail files.old }
    ensures stays { F.can_fail files.new → F.can_fail files.old }
    ensures writes { F.write_faults files.new ≡ F.write_faults files.old }
    ensures files { KeepsFiles (F.store files.old) (F.store files.new) }
{
    let mut path = UnderWay::new(alloc);
    match enter(alloc, paths, files, library, &mut path, name, from) {
        Ok(Entered::Present) => Ok(None),
        Ok(Entered::Begun) => run(alloc, paths, files, library, &mut path),
        Ok(Entered::Fails(fault)) => Ok(Some(fault)),
        Err(fault) => Err(fault),
    }
}
