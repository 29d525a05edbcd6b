//! The run.
ghost use Rattle.std.specs.Prelude.{◌≡◌, ◌<◌, ◌≤◌, ◌⊎◌, length};
ghost use Rattle.std.specs.Vec.{vec_len};
ghost use Rattle.class_record.specs.Facts.{name_at};
ghost use Rattle.class_linker.specs.Fresh.{fresh_view, world_in};
ghost use Rattle.command_words.specs.Requests.{home_view};
ghost use Rattle.home_run.specs.Requests.{folder_lists};
ghost use Rattle.home_run.specs.Answers.{AnswersRun, CountsReads, CountsWrites};
ghost use Rattle.home_run.specs.Steps.{MainAnswers, ClassesAnswer, CountsPuts, end_of_fault, progress_in};

use crate::end::HomeEnd;
use crate::listing::list_classes;
use crate::paths::paths_of;
use crate::tree_run::run_tree;
use class_linker::Fresh;
use class_record::{ClassId, ClassesFault, Start};
use command_words::HomeRun;
use jsa_files::{Files, Sink};
use std::alloc::Global;
use vm_start::start_run;

// Runs the main class, which is loaded.
fn run_main<F: Files, O: Sink>(
    alloc: Global,
    classes: &Fresh<F>,
    id: ClassId,
    steps: u64,
    out: &mut O,
) -> HomeEnd
    requires { id.0 < length classes.now.loaded.classes }
    ensures answer { MainAnswers (world_in (F.store classes.now.files) classes.now.folders) (name_at classes.now.loaded.classes id.0) steps (O.taken out.old) (O.taken out.new) result }
    ensures write_fault { CountsPuts (O.faults out.old) (O.faults out.new) result }
    ensures can_fail { result ≡ HomeEnd.Write → O.can_fail out.old }
    ensures stays { O.can_fail out.new → O.can_fail out.old }
{
    run_tree(alloc, classes.tree(id), steps, out)
}

// The end of a run whose classes ended it with a fault.
fn end_of_fault(fault: ClassesFault) -> HomeEnd
    ensures { result ≡ end_of_fault fault }
{
    match fault {
        ClassesFault::Read => HomeEnd::Read,
        ClassesFault::Limit(quantity, limit) => HomeEnd::Limit(quantity, limit),
        ClassesFault::Memory => HomeEnd::Memory,
    }
}

// Starts the run, and runs the main class.
fn run_classes<F: Files, O: Sink>(
    alloc: Global,
    request: &HomeRun,
    classes: &mut Fresh<F>,
    out: &mut O,
) -> HomeEnd
    ensures answer { ClassesAnswer (world_in (F.store classes.old.files) classes.old.folders) (home_view request.now).name request.now.steps (progress_in F.store classes.old) (progress_in F.store classes.new) (O.taken out.old) (O.taken out.new) result }
    ensures world { world_in (F.store classes.new.files) classes.new.folders ≡ world_in (F.store classes.old.files) classes.old.folders }
    ensures read_fault { CountsReads (F.read_faults classes.old.files) (F.read_faults classes.new.files) result }
    ensures write_fault { CountsPuts (O.faults out.old) (O.faults out.new) result }
    ensures writes { F.write_faults classes.new.files ≡ F.write_faults classes.old.files }
    ensures read_can_fail { result ≡ HomeEnd.Read → F.can_fail classes.old.files }
    ensures write_can_fail { result ≡ HomeEnd.Write → O.can_fail out.old }
    ensures files_stay { F.can_fail classes.new.files → F.can_fail classes.old.files }
    ensures out_stays { O.can_fail out.new → O.can_fail out.old }
{
    match start_run(classes, request.name.as_slice()) {
        Ok(Start::NoBoot(number)) => HomeEnd::NoBoot(number),
        Ok(Start::NoMain) => HomeEnd::NoMain,
        Ok(Start::Ready(id)) => run_main(alloc, classes, id, request.steps, out),
        Err(fault) => end_of_fault(fault),
    }
}

// Runs the main class over classes of which none is loaded, and writes their list after a run that exits.
fn run_over<F: Files, O: Sink>(
    alloc: Global,
    request: &HomeRun,
    classes: Fresh<F>,
    out: &mut O,
) -> (HomeEnd, F)
    requires new { classes ≡ fresh_view (folder_lists (home_view request.now)) classes.files }
    ensures answer { AnswersRun (F.store classes.files) (F.store result.1) (F.write_faults classes.files, F.write_faults result.1) (home_view request.now) (O.taken out.old) (O.taken out.new) result.0 }
    ensures read_fault { CountsReads (F.read_faults classes.files) (F.read_faults result.1) result.0 }
    ensures write_fault { CountsWrites (F.write_faults classes.files) (F.write_faults result.1) (O.faults out.old) (O.faults out.new) result.0 }
    ensures read_can_fail { result.0 ≡ HomeEnd.Read → F.can_fail classes.files }
    ensures write_can_fail { result.0 ≡ HomeEnd.Write → F.can_fail classes.files ⊎ O.can_fail out.old }
    ensures files_stay { F.can_fail result.1 → F.can_fail classes.files }
    ensures out_stays { O.can_fail out.new → O.can_fail out.old }
{
    let mut classes = classes;
    match run_classes(alloc, request, &mut classes, out) {
        HomeEnd::Exit => list_classes(alloc, request, classes),
        end => (end, classes.into_files()),
    }
}

/// Runs a main class. The required classes are loaded and linked first, then the main class is loaded (JVMS 5.2, 5.3, 5.4), and
/// its `main` makes its turns, where it is one that can be run yet. The store comes back with every answer.
///
/// The caller gives 64 application folders at most.
///
/// - `Exit`: `main` returned, and where a file is given for them the names of the loaded classes were written, in load order, a
///   line each.
/// - `NoBoot`: a required class is wanting; this is the number of the first. Nothing is loaded after it.
/// - `NoMain`: the main class doesn't load.
/// - `Unsupported`: the main class is none that can be run yet.
/// - `Stopped`: as many turns were made as the limit, and `main` hasn't returned.
/// - `Limit`: a class file of more than `MAX_FILE` bytes is to be read, or a class more than 65,535 would be loaded,
///   whichever is first.
/// - `Read`: the store failed at reading a class file.
/// - `Write`: `out` failed at a put; or `main` returned, and the store failed at writing the list, whose path then holds what
///   it held or a front of the list.
/// - `Memory`: memory ran out; this may come in place of any answer.
pub fn run_home<F: Files, O: Sink>(
    alloc: Global,
    request: &HomeRun,
    files: F,
    out: &mut O,
) -> (HomeEnd, F)
    requires few { vec_len request.now.folders ≤ 64 }
    ensures answer { AnswersRun (F.store files) (F.store result.1) (F.write_faults files, F.write_faults result.1) (home_view request.now) (O.taken out.old) (O.taken out.new) result.0 }
    // A fault is answered only where its count rose, and only where a call could fail.
    ensures read_fault { CountsReads (F.read_faults files) (F.read_faults result.1) result.0 }
    ensures write_fault { CountsWrites (F.write_faults files) (F.write_faults result.1) (O.faults out.old) (O.faults out.new) result.0 }
    ensures read_can_fail { result.0 ≡ HomeEnd.Read → F.can_fail files }
    ensures write_can_fail { result.0 ≡ HomeEnd.Write → F.can_fail files ⊎ O.can_fail out.old }
    // Where no call can fail, none can afterwards.
    ensures files_stay { F.can_fail result.1 → F.can_fail files }
    ensures out_stays { O.can_fail out.new → O.can_fail out.old }
{
    match paths_of(alloc, request) {
        Ok(paths) => run_over(alloc, request, Fresh::new(alloc, paths, files), out),
        Err(_) => (HomeEnd::Memory, files),
    }
}
