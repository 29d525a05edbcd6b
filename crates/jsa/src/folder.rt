//! The manifest of the folder of a command.
ghost use Rattle.std.specs.Prelude.{◌≡◌, IsTrue, IfOk, IsErrOf};
ghost use Rattle.jsa_files.specs.Causes.{CountsFailure};
ghost use Rattle.archive_header.specs.Manifests.{MakesSmall};
ghost use Rattle.plain_classes.specs.Archives.{has_one_folder};
ghost use Rattle.jsa_files.specs.Told.{contents_told};
ghost use Rattle.jsa.specs.Archived.{lists_of, MakesOf};

use archive_header::{Manifest, manifest};
use jsa_files::{Files, FilesFault, Names};
use loader_rules::Paths;
use std::alloc::{AllocError, Global};

// The folder as the only one in which classes are looked for.
fn paths(alloc: Global, folder: &str) -> Result<Paths, AllocError>
    ensures { IfOk result (λ paths. paths ≡ lists_of folder.now) }
{
    let mut app = Names::new(alloc);
    app.push(folder)?;
    match Paths::new(Names::new(alloc), Names::new(alloc), app) {
        Some(paths) => Ok(paths),
        None => unreachable!(),
    }
}

/// The manifest of the folder as the store has it now, as `archive_header` makes it of one application folder.
pub(crate) fn folder_manifest<F: Files>(
    alloc: Global,
    folder: &str,
    files: &mut F,
) -> Result<Manifest, FilesFault>
    ensures answer { MakesOf (contents_told (F.store files.old)) (lists_of folder.now) result }
    ensures small { MakesSmall result }
    ensures one { IfOk result (λ m. IsTrue (has_one_folder m)) }
    ensures store { F.store files.new ≡ F.store files.old }
    ensures cause { CountsFailure (F.read_faults files.old) (F.read_faults files.new) result }
    ensures failed { IsErrOf result FilesFault.Failed → F.can_fail files.old }
    ensures stays { F.can_fail files.new → F.can_fail files.old }
    ensures writes { F.write_faults files.new ≡ F.write_faults files.old }
{
    match paths(alloc, folder) {
        Ok(paths) => manifest(alloc, &paths, files),
        Err(_) => Err(FilesFault::Memory),
    }
}
