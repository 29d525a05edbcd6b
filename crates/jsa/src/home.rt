//! Runs a main class over a home, and makes homes.
ghost use Rattle.std.specs.Prelude.{◌≡◌, ◌≤◌, ℕ, List, Option, Some};
ghost use Rattle.std.specs.Vec.{vec_len};
ghost use Rattle.command_words.specs.Requests.{home_view};
ghost use Rattle.jsa.specs.HomeRuns.{end_of_run, home_subject, end_of_home};
ghost use Rattle.jsa.specs.Lines.{CountsErr};
ghost use Rattle.jsa.specs.Command.{RequestAnswers, Answered, TakesSomeFront, CountsReads, CountsWrites, CountsFor, CanFailWrites, Leaves, steps_of};
ghost use Rattle.command_words.specs.Grammar as asked;

use crate::ended::Ended;
use crate::lines::tell;
use boot_library::{HomeFault, boot_text, write_home};
use command_words::HomeRun;
use home_run::{HomeEnd, run_home};
use jsa_files::{Files, FilesFault, Sink};
use std::alloc::Global;
use vm_start::required_name;

// The end of a command whose run over a home ended so.
fn end_of_run(end: HomeEnd) -> Ended
    ensures { result ≡ end_of_run end }
{
    match end {
        HomeEnd::Exit => Ended::Exit(0),
        HomeEnd::NoBoot(_) => Ended::NoBoot,
        HomeEnd::NoMain => Ended::NoMain,
        HomeEnd::Stopped => Ended::Stopped,
        HomeEnd::Unsupported => Ended::Unsupported,
        HomeEnd::Read => Ended::ReadFault,
        HomeEnd::Write => Ended::WriteFault,
        HomeEnd::Limit(quantity, limit) => Ended::Limit(quantity, limit),
        HomeEnd::Memory => Ended::Memory,
    }
}

// What the line of the run's end tells.
fn home_subject(request: &HomeRun, end: HomeEnd) -> &[u8]
    ensures { result.now ≡ home_subject (home_view request.now) end }
{
    match end {
        HomeEnd::NoBoot(number) => required_name(number),
        _ => request.name.as_slice(),
    }
}

/// Runs a main class over a home, and puts the end's line.
pub(crate) fn run_home_request<F: Files, O: Sink, E: Sink>(
    alloc: Global,
    request: &HomeRun,
    files: F,
    out: &mut O,
    err: &mut E,
) -> (Ended, F)
    requires few { vec_len request.now.folders ≤ 64 }
    ensures answer { Answered (RequestAnswers (Some (asked.HomeRun (home_view request.now))) (F.store files) (F.store result.1) (F.write_faults files, F.write_faults result.1) (O.taken out.old) (O.taken out.new)) (steps_of (Some (asked.HomeRun (home_view request.now))))
        (E.taken err.old) (E.taken err.new) (E.faults err.old) (E.faults err.new) (E.can_fail err.old) result.0 }
    ensures leaves { Leaves (Some (asked.HomeRun (home_view request.now))) (F.store files) (F.store result.1) }
    ensures memory { result.0 ≡ Ended.Memory → TakesSomeFront (RequestAnswers (Some (asked.HomeRun (home_view request.now))) (F.store files) (F.store result.1) (F.write_faults files, F.write_faults result.1) (O.taken out.old) (O.taken out.new))
        (CountsFor (Some (asked.HomeRun (home_view request.now))) (F.write_faults files) (F.write_faults result.1) (O.faults out.old) (O.faults out.new)) (steps_of (Some (asked.HomeRun (home_view request.now))))
        (E.taken err.old) (E.taken err.new) (F.read_faults files) (F.read_faults result.1) }
    ensures err_faults { CountsErr (E.faults err.old) (E.faults err.new) result.0 }
    ensures read_fault { CountsReads (F.read_faults files) (F.read_faults result.1) result.0 }
    ensures write_fault { CountsFor (Some (asked.HomeRun (home_view request.now))) (F.write_faults files) (F.write_faults result.1) (O.faults out.old) (O.faults out.new) result.0 }
    ensures read_can_fail { result.0 ≡ Ended.ReadFault → F.can_fail files }
    ensures write_can_fail { result.0 ≡ Ended.WriteFault → CanFailWrites (Some (asked.HomeRun (home_view request.now))) (F.can_fail files) (O.can_fail out.old) }
    ensures files_stay { F.can_fail result.1 → F.can_fail files }
    ensures out_stays { O.can_fail out.new → O.can_fail out.old }
    ensures err_stays { E.can_fail err.new → E.can_fail err.old }
{
    let (end, files) = run_home(alloc, request, files, out);
    let subject = home_subject(request, end);
    let ended = tell(alloc, end_of_run(end), subject, request.steps, err);
    (ended, files)
}

// The end of a command that made a home so.
fn end_of_home(made: Result<(), HomeFault>) -> Ended
    ensures { result ≡ end_of_home made }
{
    match made {
        Ok(()) => Ended::Exit(0),
        Err(HomeFault::Line(number)) => Ended::BadText(number),
        Err(HomeFault::Files(FilesFault::Failed)) => Ended::WriteFault,
        Err(HomeFault::Files(FilesFault::TooLarge(_))) => Ended::Memory,
        Err(HomeFault::Files(FilesFault::TooMany(_))) => Ended::Memory,
        Err(HomeFault::Files(FilesFault::Memory)) => Ended::Memory,
        Err(HomeFault::Memory) => Ended::Memory,
    }
}

/// Makes a home of the boot library in the folder, and puts the end's line. Nothing goes to `out`, whatever it took.
pub(crate) fn make_home_request<F: Files, E: Sink>(
    alloc: Global,
    folder: &str,
    files: &mut F,
    err: &mut E,
) -> Ended
    ensures answer { (out : Option (List ℕ)) → Answered (RequestAnswers (Some (asked.MakeHome folder.now)) (F.store files.old) (F.store files.new) (F.write_faults files.old, F.write_faults files.new) out out) (steps_of (Some (asked.MakeHome folder.now)))
        (E.taken err.old) (E.taken err.new) (E.faults err.old) (E.faults err.new) (E.can_fail err.old) result }
    ensures leaves { Leaves (Some (asked.MakeHome folder.now)) (F.store files.old) (F.store files.new) }
    ensures memory { (out : Option (List ℕ)) (outs : ℕ) → result ≡ Ended.Memory → TakesSomeFront (RequestAnswers (Some (asked.MakeHome folder.now)) (F.store files.old) (F.store files.new) (F.write_faults files.old, F.write_faults files.new) out out)
        (CountsFor (Some (asked.MakeHome folder.now)) (F.write_faults files.old) (F.write_faults files.new) outs outs) (steps_of (Some (asked.MakeHome folder.now)))
        (E.taken err.old) (E.taken err.new) (F.read_faults files.old) (F.read_faults files.new) }
    ensures err_faults { CountsErr (E.faults err.old) (E.faults err.new) result }
    ensures read_fault { CountsReads (F.read_faults files.old) (F.read_faults files.new) result }
    ensures write_fault { CountsWrites (F.write_faults files.old) (F.write_faults files.new) result }
    ensures read_can_fail { result ≡ Ended.ReadFault → F.can_fail files.old }
    ensures write_can_fail { result ≡ Ended.WriteFault → F.can_fail files.old }
    ensures files_stay { F.can_fail files.new → F.can_fail files.old }
    ensures err_stays { E.can_fail err.new → E.can_fail err.old }
{
    let made = write_home(alloc, folder, boot_text(), files);
    tell(alloc, end_of_home(made), b"", 0, err)
}
