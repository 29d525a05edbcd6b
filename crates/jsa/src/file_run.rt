//! Runs the class in a file.
ghost use Rattle.std.specs.Prelude.{◌≡◌, ◌≢◌, ◌≤◌, length, Some};
ghost use Rattle.jsa_files.specs.Told.{contents_told, reads_told};
ghost use Rattle.jsa.specs.Runs.{PathAnswers, FileAnswers, ReadsPath};
ghost use Rattle.jsa.specs.Command.{CountsReads, CountsWrites};
ghost use Rattle.command_words.specs.Words.{class_path};
ghost use Rattle.command_words.specs.Requests.{run_view};

use crate::ended::Ended;
use command_words::{RunWords, class_path};
use first_form::RunEnd;
use jsa_base::Quantity;
use jsa_files::{Files, FilesFault, MAX_FILE, Sink};
use std::alloc::Global;

/// Runs the main class out of its file.
pub(crate) fn run_path<F: Files, O: Sink>(
    alloc: Global,
    request: &RunWords,
    files: &mut F,
    out: &mut O,
) -> Ended
    ensures answer { PathAnswers (contents_told (F.store files.old)) (class_path (run_view request.now)) request.now.steps (O.taken out.old) (O.taken out.new) result }
    ensures reads { ReadsPath (reads_told (F.store files.old)) (reads_told (F.store files.new)) (class_path (run_view request.now)) result }
    ensures contents { contents_told (F.store files.new) ≡ contents_told (F.store files.old) }
    ensures read_fault { CountsReads (F.read_faults files.old) (F.read_faults files.new) result }
    ensures write_fault { CountsWrites (O.faults out.old) (O.faults out.new) result }
    ensures writes { F.write_faults files.new ≡ F.write_faults files.old }
    ensures read_can_fail { result ≡ Ended.ReadFault → F.can_fail files.old }
    ensures write_can_fail { result ≡ Ended.WriteFault → O.can_fail out.old }
    ensures files_stay { F.can_fail files.new → F.can_fail files.old }
    ensures out_stays { O.can_fail out.new → O.can_fail out.old }
{
    match class_path(request) {
        Ok(path) => run_file(alloc, path.as_str(), request.steps, files, out),
        Err(_) => Ended::Memory,
    }
}

// Runs the class in the file at the path.
#[tactic(auto, using(crate::proofs::Ends::path_of_file))]
fn run_file<F: Files, O: Sink>(
    alloc: Global,
    path: &str,
    steps: u64,
    files: &mut F,
    out: &mut O,
) -> Ended
    ensures answer { PathAnswers (contents_told (F.store files.old)) path.now steps (O.taken out.old) (O.taken out.new) result }
    ensures reads { ReadsPath (reads_told (F.store files.old)) (reads_told (F.store files.new)) path.now result }
    ensures contents { contents_told (F.store files.new) ≡ contents_told (F.store files.old) }
    ensures read_fault { CountsReads (F.read_faults files.old) (F.read_faults files.new) result }
    ensures write_fault { CountsWrites (O.faults out.old) (O.faults out.new) result }
    ensures writes { F.write_faults files.new ≡ F.write_faults files.old }
    ensures read_can_fail { result ≡ Ended.ReadFault → F.can_fail files.old }
    ensures write_can_fail { result ≡ Ended.WriteFault → O.can_fail out.old }
    ensures files_stay { F.can_fail files.new → F.can_fail files.old }
    ensures out_stays { O.can_fail out.new → O.can_fail out.old }
{
    match files.read(alloc, path) {
        Ok(Some(bytes)) => run_bytes(alloc, bytes.as_slice(), steps, out),
        Ok(None) => Ended::NoMain,
        Err(FilesFault::Failed) => Ended::ReadFault,
        Err(FilesFault::TooLarge(_)) => Ended::Limit(Quantity::FileSize, MAX_FILE as u64),
        Err(FilesFault::TooMany(_)) => unreachable!(),
        Err(FilesFault::Memory) => Ended::Memory,
    }
}

/// Runs the class that the bytes of a class file are: the one place where a run without a home asks how a class is run.
pub(crate) fn run_bytes<O: Sink>(alloc: Global, bytes: &[u8], steps: u64, out: &mut O) -> Ended
    requires { length bytes.now ≤ MAX_FILE }
    ensures answer { FileAnswers (Some bytes.now) steps (O.taken out.old) (O.taken out.new) result }
    ensures write_fault { CountsWrites (O.faults out.old) (O.faults out.new) result }
    ensures write_can_fail { result ≡ Ended.WriteFault → O.can_fail out.old }
    ensures out_stays { O.can_fail out.new → O.can_fail out.old }
    ensures outside { result ≢ Ended.ReadFault }
{
    match first_form::run_bytes(alloc, bytes, steps, out) {
        RunEnd::Returned => Ended::Exit(0),
        RunEnd::Stopped => Ended::Stopped,
        RunEnd::Unsupported => Ended::Unsupported,
        RunEnd::Write => Ended::WriteFault,
        RunEnd::Memory => Ended::Memory,
    }
}
