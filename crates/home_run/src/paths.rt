//! The folders of a run.
ghost use Rattle.std.specs.Prelude.{◌≡◌, ◌≤◌, ◌++◌, ◌∷◌, [], length, map, IfOk};
ghost use Rattle.std.specs.String.{string_bytes};
ghost use Rattle.std.specs.Vec.{vec_len};
ghost use Rattle.command_words.specs.Requests.{home_view};
ghost use Rattle.home_run.specs.Requests.{folder_lists};

use command_words::HomeRun;
use jsa_files::Names;
use loader_rules::Paths;
use std::alloc::{AllocError, Global};

// The one folder below a home.
fn folder_of(alloc: Global, home: &str, below: &str) -> Result<Names, AllocError>
    ensures { IfOk result (λ names. names ≡ (home.now ++ below.now) ∷ []) }
{
    let mut path = String::from_str(alloc, home)?;
    path.push_str(below)?;
    let mut names = Names::new(alloc);
    names.push(path.as_str())?;
    Ok(names)
}

fn folders_of(alloc: Global, folders: &[String]) -> Result<Names, AllocError>
    requires { length folders.now ≤ 64 }
    ensures { IfOk result (λ names. names ≡ map string_bytes folders.now) }
{
    let mut names = Names::new(alloc);
    for folder in folders {
        names.push(folder.as_str())?;
    }
    Ok(names)
}

/// The folders of the three loaders.
pub(crate) fn paths_of(alloc: Global, request: &HomeRun) -> Result<Paths, AllocError>
    requires { vec_len request.now.folders ≤ 64 }
    ensures { IfOk result (λ paths. paths ≡ folder_lists (home_view request.now)) }
{
    let boot = folder_of(alloc, request.home.as_str(), "/boot")?;
    let platform = folder_of(alloc, request.home.as_str(), "/platform")?;
    let app = folders_of(alloc, request.folders.as_slice())?;
    match Paths::new(boot, platform, app) {
        Some(paths) => Ok(paths),
        None => unreachable!(),
    }
}
