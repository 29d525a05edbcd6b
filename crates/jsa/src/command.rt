//! The top call.
ghost use Rattle.std.specs.Prelude.{◌≡◌, ℕ, List, Option, Some, map};
ghost use Rattle.std.specs.String.{string_bytes};
ghost use Rattle.jsa_files.specs.Told.{contents_told};
ghost use Rattle.jsa.specs.Lines.{CountsErr};
ghost use Rattle.jsa.specs.Command.{run_subject, RequestAnswers, Answered, TakesSomeFront, CountsReads, CountsWrites, CountsDump, CountsFor, CanFailWrites, Leaves, KeepsClassFiles, steps_of};
ghost use Rattle.jsa_files.specs.Causes.{Rose};
ghost use Rattle.jsa.specs.Completes.{RequestCompletes};
ghost use Rattle.jsa.specs.Headline.{RunsAsFromFile};
ghost use Rattle.command_words.specs.ClassList.{listed_once};
ghost use Rattle.jsa.specs.Dumps.{Listed};
ghost use Rattle.jsa.specs.Steps.{texts_of};
ghost use Rattle.command_words.specs.Grammar.{request_of, Run, Dump, Asm, HasFewFolders};
ghost use Rattle.command_words.specs.Requests.{command_view, run_view, dump_view, asm_view};

use crate::archive_run::run_archived;
use crate::assembling::assemble_file;
use crate::dump::{dump_names, read_names};
use crate::ended::Ended;
use crate::gathering::subject_at;
use crate::home::{make_home_request, run_home_request};
use crate::lines::tell;
use command_words::{AsmWords, Command, DumpWords, RunWords, read_words};
use jsa_files::{Files, Sink};
use std::alloc::Global;

/// Does what the words after the program's name ask for, and puts the end's line to `err`. The store comes back with
/// every answer.
///
/// - `Usage`: the words are those of no command.
/// - `BadText`: a line of the text of an assembly, or of the boot library, is outside the grammar; this is the first, counted
///   from 1.
/// - `NoBoot`: a required class of a run over a home is wanting; the line tells the first.
/// - `NoMain`: the main class doesn't load. With an archive option: no mapped archive holds it, and the folder has no file of
///   it.
/// - `Missing`: the class list of a dump or the text of an assembly isn't there.
/// - `NotShared`: the archive of a run with `-Xshare:on` is refused, for the first cause that holds.
/// - `Limit`: the first of these that passes its limit in the order in which they are met: `FileSize`, where a class file that
///   a run over a home is to read, the archive of a run, the class list of a dump, the text of an assembly, a class file of the
///   folder where an archive is given, or the class's file has more than `MAX_FILE` bytes; `Loaded`, where a run over a home
///   would load more than `MAX_LOADED` classes; `Names`, where the folder has more than `MAX_NAMES` class files and an archive
///   is given; `Classes`, where a dump lists more than 65,535; `ArchiveSize`, where a dump's archive has more than 67,108,864
///   bytes.
/// - `Unsupported`: the main class is none that can be run yet; a listed name has no file, or one that has no such class
///   inside or one with another name.
/// - `Exit(0)`: the class ran, `out` took what its `main` put, and the names of the loaded classes were written where a file
///   is given for them; or the archive was written, and `out` took how many classes it holds; or each class of the text, or the
///   home, was written.
/// - `Stopped`: as many turns were made as the limit, and `main` hasn't returned.
/// - `ReadFault`, `WriteFault`: the store failed at reading a file, or `out` at a put or the store at writing a file. Where
///   that is the class list of a run, `main` has returned.
/// - `Memory`: memory ran out; this may come in place of any answer.
pub fn run_command<F: Files, O: Sink, E: Sink>(
    alloc: Global,
    words: &[String],
    files: F,
    out: &mut O,
    err: &mut E,
) -> (Ended, F)
    // The answer is the one that the words and what is in the store have, out took what goes with it, and err its line.
    ensures answer { Answered (RequestAnswers (request_of (map string_bytes words.now)) (F.store files) (F.store result.1) (F.write_faults files, F.write_faults result.1) (O.taken out.old) (O.taken out.new)) (steps_of (request_of (map string_bytes words.now)))
        (E.taken err.old) (E.taken err.new) (E.faults err.old) (E.faults err.new) (E.can_fail err.old) result.0 }

    // Where the store tells and no call of it or of out failed, each cause has its answer, unless memory runs out.
    ensures complete { ¬ (Rose (F.read_faults files) (F.read_faults result.1)) → ¬ (Rose (F.write_faults files) (F.write_faults result.1)) → ¬ (Rose (O.faults out.old) (O.faults out.new))
        → RequestCompletes (request_of (map string_bytes words.now)) (F.store files) (F.store result.1) (O.taken out.old) (O.taken out.new) result.0 }

    // Where the store tells, a run that is given an archive that a dump wrote is the run that reads the class's file, if no
    // two class files clash.
    ensures headline { RunsAsFromFile (request_of (map string_bytes words.now)) (F.store files) (O.taken out.old) (O.taken out.new) result.0 }

    // A run over a home writes its class list alone, a dump its archive, and an assembly and the making of a home their files;
    // nothing but the last two writes a file of a class.
    ensures leaves { Leaves (request_of (map string_bytes words.now)) (F.store files) (F.store result.1) }
    ensures class_files { KeepsClassFiles (request_of (map string_bytes words.now)) (contents_told (F.store files)) (contents_told (F.store result.1)) }

    // Where memory ran out err took a front of the line of that, or of the answer that it took the place of.
    ensures memory { result.0 ≡ Ended.Memory → TakesSomeFront (RequestAnswers (request_of (map string_bytes words.now)) (F.store files) (F.store result.1) (F.write_faults files, F.write_faults result.1) (O.taken out.old) (O.taken out.new))
        (CountsFor (request_of (map string_bytes words.now)) (F.write_faults files) (F.write_faults result.1) (O.faults out.old) (O.faults out.new)) (steps_of (request_of (map string_bytes words.now)))
        (E.taken err.old) (E.taken err.new) (F.read_faults files) (F.read_faults result.1) }
    ensures err_faults { CountsErr (E.faults err.old) (E.faults err.new) result.0 }

    // A fault is answered only where its count rose, and only where a call could fail.
    ensures read_fault { CountsReads (F.read_faults files) (F.read_faults result.1) result.0 }
    ensures write_fault { CountsFor (request_of (map string_bytes words.now)) (F.write_faults files) (F.write_faults result.1) (O.faults out.old) (O.faults out.new) result.0 }
    ensures read_can_fail { result.0 ≡ Ended.ReadFault → F.can_fail files }
    ensures write_can_fail { result.0 ≡ Ended.WriteFault → CanFailWrites (request_of (map string_bytes words.now)) (F.can_fail files) (O.can_fail out.old) }

    // Where no call can fail, none can afterwards.
    ensures files_stay { F.can_fail result.1 → F.can_fail files }
    ensures out_stays { O.can_fail out.new → O.can_fail out.old }
    ensures err_stays { E.can_fail err.new → E.can_fail err.old }
{
    do_words(alloc, words, files, out, err)
}

// Lets go of a command.
fn let_go(_command: Command) {}

// Does what the words ask for, and puts the end's line.
#[tactic(auto, using(crate::proofs::Tells::memory_told))]
fn do_words<F: Files, O: Sink, E: Sink>(
    alloc: Global,
    words: &[String],
    files: F,
    out: &mut O,
    err: &mut E,
) -> (Ended, F)
    ensures answer { Answered (RequestAnswers (request_of (map string_bytes words.now)) (F.store files) (F.store result.1) (F.write_faults files, F.write_faults result.1) (O.taken out.old) (O.taken out.new)) (steps_of (request_of (map string_bytes words.now)))
        (E.taken err.old) (E.taken err.new) (E.faults err.old) (E.faults err.new) (E.can_fail err.old) result.0 }
    ensures leaves { Leaves (request_of (map string_bytes words.now)) (F.store files) (F.store result.1) }
    ensures memory { result.0 ≡ Ended.Memory → TakesSomeFront (RequestAnswers (request_of (map string_bytes words.now)) (F.store files) (F.store result.1) (F.write_faults files, F.write_faults result.1) (O.taken out.old) (O.taken out.new))
        (CountsFor (request_of (map string_bytes words.now)) (F.write_faults files) (F.write_faults result.1) (O.faults out.old) (O.faults out.new)) (steps_of (request_of (map string_bytes words.now)))
        (E.taken err.old) (E.taken err.new) (F.read_faults files) (F.read_faults result.1) }
    ensures err_faults { CountsErr (E.faults err.old) (E.faults err.new) result.0 }
    ensures read_fault { CountsReads (F.read_faults files) (F.read_faults result.1) result.0 }
    ensures write_fault { CountsFor (request_of (map string_bytes words.now)) (F.write_faults files) (F.write_faults result.1) (O.faults out.old) (O.faults out.new) result.0 }
    ensures read_can_fail { result.0 ≡ Ended.ReadFault → F.can_fail files }
    ensures write_can_fail { result.0 ≡ Ended.WriteFault → CanFailWrites (request_of (map string_bytes words.now)) (F.can_fail files) (O.can_fail out.old) }
    ensures files_stay { F.can_fail result.1 → F.can_fail files }
    ensures out_stays { O.can_fail out.new → O.can_fail out.old }
    ensures err_stays { E.can_fail err.new → E.can_fail err.old }
{
    match read_words(alloc, words) {
        Ok(Some(command)) => {
            let done = do_command(alloc, &command, files, out, err);
            let_go(command);
            done
        }
        Ok(None) => (tell(alloc, Ended::Usage, b"", 0, err), files),
        Err(_) => (tell(alloc, Ended::Memory, b"", 0, err), files),
    }
}

// Does what is asked for.
fn do_command<F: Files, O: Sink, E: Sink>(
    alloc: Global,
    command: &Command,
    files: F,
    out: &mut O,
    err: &mut E,
) -> (Ended, F)
    requires few { HasFewFolders (command_view command.now) }
    ensures answer { Answered (RequestAnswers (Some (command_view command.now)) (F.store files) (F.store result.1) (F.write_faults files, F.write_faults result.1) (O.taken out.old) (O.taken out.new)) (steps_of (Some (command_view command.now)))
        (E.taken err.old) (E.taken err.new) (E.faults err.old) (E.faults err.new) (E.can_fail err.old) result.0 }
    ensures leaves { Leaves (Some (command_view command.now)) (F.store files) (F.store result.1) }
    ensures memory { result.0 ≡ Ended.Memory → TakesSomeFront (RequestAnswers (Some (command_view command.now)) (F.store files) (F.store result.1) (F.write_faults files, F.write_faults result.1) (O.taken out.old) (O.taken out.new))
        (CountsFor (Some (command_view command.now)) (F.write_faults files) (F.write_faults result.1) (O.faults out.old) (O.faults out.new)) (steps_of (Some (command_view command.now)))
        (E.taken err.old) (E.taken err.new) (F.read_faults files) (F.read_faults result.1) }
    ensures err_faults { CountsErr (E.faults err.old) (E.faults err.new) result.0 }
    ensures read_fault { CountsReads (F.read_faults files) (F.read_faults result.1) result.0 }
    ensures write_fault { CountsFor (Some (command_view command.now)) (F.write_faults files) (F.write_faults result.1) (O.faults out.old) (O.faults out.new) result.0 }
    ensures read_can_fail { result.0 ≡ Ended.ReadFault → F.can_fail files }
    ensures write_can_fail { result.0 ≡ Ended.WriteFault → CanFailWrites (Some (command_view command.now)) (F.can_fail files) (O.can_fail out.old) }
    ensures files_stay { F.can_fail result.1 → F.can_fail files }
    ensures out_stays { O.can_fail out.new → O.can_fail out.old }
    ensures err_stays { E.can_fail err.new → E.can_fail err.old }
{
    match command {
        Command::HomeRun(request) => run_home_request(alloc, request, files, out, err),
        Command::MakeHome(folder) => {
            let mut files = files;
            let ended = make_home_request(alloc, folder.as_str(), &mut files, err);
            (ended, files)
        }
        Command::Run(request) => {
            let mut files = files;
            let ended = run_request(alloc, request, &mut files, out, err);
            (ended, files)
        }
        Command::Dump(request) => {
            let mut files = files;
            let ended = dump_request(alloc, request, &mut files, out, err);
            (ended, files)
        }
        Command::Asm(request) => {
            let mut files = files;
            let ended = assemble_request(alloc, request, &mut files, err);
            (ended, files)
        }
    }
}

// What the line of a run's end tells.
fn run_subject(request: &RunWords, ended: Ended) -> &[u8]
    ensures { result.now ≡ run_subject (run_view request.now) ended }
{
    match ended {
        Ended::NotShared(_) => request.archive.as_bytes(),
        _ => request.name.as_bytes(),
    }
}

// Runs the class that is asked for, and puts the end's line.
fn run_request<F: Files, O: Sink, E: Sink>(
    alloc: Global,
    request: &RunWords,
    files: &mut F,
    out: &mut O,
    err: &mut E,
) -> Ended
    ensures answer { Answered (RequestAnswers (Some (Run (run_view request.now))) (F.store files.old) (F.store files.new) (F.write_faults files.old, F.write_faults files.new) (O.taken out.old) (O.taken out.new)) (steps_of (Some (Run (run_view request.now))))
        (E.taken err.old) (E.taken err.new) (E.faults err.old) (E.faults err.new) (E.can_fail err.old) result }
    ensures leaves { Leaves (Some (Run (run_view request.now))) (F.store files.old) (F.store files.new) }
    ensures memory { result ≡ Ended.Memory → TakesSomeFront (RequestAnswers (Some (Run (run_view request.now))) (F.store files.old) (F.store files.new) (F.write_faults files.old, F.write_faults files.new) (O.taken out.old) (O.taken out.new))
        (CountsFor (Some (Run (run_view request.now))) (F.write_faults files.old) (F.write_faults files.new) (O.faults out.old) (O.faults out.new)) (steps_of (Some (Run (run_view request.now))))
        (E.taken err.old) (E.taken err.new) (F.read_faults files.old) (F.read_faults files.new) }
    ensures err_faults { CountsErr (E.faults err.old) (E.faults err.new) result }
    ensures read_fault { CountsReads (F.read_faults files.old) (F.read_faults files.new) result }
    ensures write_fault { CountsFor (Some (Run (run_view request.now))) (F.write_faults files.old) (F.write_faults files.new) (O.faults out.old) (O.faults out.new) result }
    ensures read_can_fail { result ≡ Ended.ReadFault → F.can_fail files.old }
    ensures write_can_fail { result ≡ Ended.WriteFault → CanFailWrites (Some (Run (run_view request.now))) (F.can_fail files.old) (O.can_fail out.old) }
    ensures files_stay { F.can_fail files.new → F.can_fail files.old }
    ensures out_stays { O.can_fail out.new → O.can_fail out.old }
    ensures err_stays { E.can_fail err.new → E.can_fail err.old }
{
    let ended = run_archived(alloc, request, files, out);
    let subject = run_subject(request, ended);
    tell(alloc, ended, subject, request.steps, err)
}

// Dumps the classes that are listed, and puts the end's line.
fn dump_request<F: Files, O: Sink, E: Sink>(
    alloc: Global,
    request: &DumpWords,
    files: &mut F,
    out: &mut O,
    err: &mut E,
) -> Ended
    ensures answer { Answered (RequestAnswers (Some (Dump (dump_view request.now))) (F.store files.old) (F.store files.new) (F.write_faults files.old, F.write_faults files.new) (O.taken out.old) (O.taken out.new)) (steps_of (Some (Dump (dump_view request.now))))
        (E.taken err.old) (E.taken err.new) (E.faults err.old) (E.faults err.new) (E.can_fail err.old) result }
    ensures leaves { Leaves (Some (Dump (dump_view request.now))) (F.store files.old) (F.store files.new) }
    ensures memory { result ≡ Ended.Memory → TakesSomeFront (RequestAnswers (Some (Dump (dump_view request.now))) (F.store files.old) (F.store files.new) (F.write_faults files.old, F.write_faults files.new) (O.taken out.old) (O.taken out.new))
        (CountsFor (Some (Dump (dump_view request.now))) (F.write_faults files.old) (F.write_faults files.new) (O.faults out.old) (O.faults out.new)) (steps_of (Some (Dump (dump_view request.now))))
        (E.taken err.old) (E.taken err.new) (F.read_faults files.old) (F.read_faults files.new) }
    ensures err_faults { CountsErr (E.faults err.old) (E.faults err.new) result }
    ensures read_fault { CountsReads (F.read_faults files.old) (F.read_faults files.new) result }
    ensures write_fault { CountsFor (Some (Dump (dump_view request.now))) (F.write_faults files.old) (F.write_faults files.new) (O.faults out.old) (O.faults out.new) result }
    ensures read_can_fail { result ≡ Ended.ReadFault → F.can_fail files.old }
    ensures write_can_fail { result ≡ Ended.WriteFault → CanFailWrites (Some (Dump (dump_view request.now))) (F.can_fail files.old) (O.can_fail out.old) }
    ensures files_stay { F.can_fail files.new → F.can_fail files.old }
    ensures out_stays { O.can_fail out.new → O.can_fail out.old }
    ensures err_stays { E.can_fail err.new → E.can_fail err.old }
{
    match read_names(alloc, request, files) {
        Ok(names) => dump_listed(alloc, request, names.as_slice(), files, out, err),
        Err(ended) => tell(alloc, ended, request.list.as_bytes(), 0, err),
    }
}

// The same for the names of the list.
fn dump_listed<F: Files, O: Sink, E: Sink>(
    alloc: Global,
    request: &DumpWords,
    names: &[Vec<u8>],
    files: &mut F,
    out: &mut O,
    err: &mut E,
) -> Ended
    ensures answer { (l : Listed (contents_told (F.store files.old)) (dump_view request.now)) → listed_once l.bytes ≡ texts_of names.now → Answered (RequestAnswers (Some (Dump (dump_view request.now))) (F.store files.old) (F.store files.new) (F.write_faults files.old, F.write_faults files.new) (O.taken out.old) (O.taken out.new)) (steps_of (Some (Dump (dump_view request.now))))
        (E.taken err.old) (E.taken err.new) (E.faults err.old) (E.faults err.new) (E.can_fail err.old) result }
    ensures leaves { (l : Listed (contents_told (F.store files.old)) (dump_view request.now)) → listed_once l.bytes ≡ texts_of names.now → Leaves (Some (Dump (dump_view request.now))) (F.store files.old) (F.store files.new) }
    ensures memory { (l : Listed (contents_told (F.store files.old)) (dump_view request.now)) → listed_once l.bytes ≡ texts_of names.now → result ≡ Ended.Memory → TakesSomeFront (RequestAnswers (Some (Dump (dump_view request.now))) (F.store files.old) (F.store files.new) (F.write_faults files.old, F.write_faults files.new) (O.taken out.old) (O.taken out.new))
        (CountsFor (Some (Dump (dump_view request.now))) (F.write_faults files.old) (F.write_faults files.new) (O.faults out.old) (O.faults out.new)) (steps_of (Some (Dump (dump_view request.now))))
        (E.taken err.old) (E.taken err.new) (F.read_faults files.old) (F.read_faults files.new) }
    ensures err_faults { CountsErr (E.faults err.old) (E.faults err.new) result }
    ensures read_fault { CountsReads (F.read_faults files.old) (F.read_faults files.new) result }
    ensures write_fault { CountsFor (Some (Dump (dump_view request.now))) (F.write_faults files.old) (F.write_faults files.new) (O.faults out.old) (O.faults out.new) result }
    ensures read_can_fail { result ≡ Ended.ReadFault → F.can_fail files.old }
    ensures write_can_fail { result ≡ Ended.WriteFault → CanFailWrites (Some (Dump (dump_view request.now))) (F.can_fail files.old) (O.can_fail out.old) }
    ensures files_stay { F.can_fail files.new → F.can_fail files.old }
    ensures out_stays { O.can_fail out.new → O.can_fail out.old }
    ensures err_stays { E.can_fail err.new → E.can_fail err.old }
{
    let end = dump_names(alloc, request, names, files, out);
    tell(alloc, end.ended, subject_at(names, end.place), 0, err)
}

// Assembles the text that is asked for, and puts the end's line. Nothing goes to `out`, whatever it took.
fn assemble_request<F: Files, E: Sink>(
    alloc: Global,
    request: &AsmWords,
    files: &mut F,
    err: &mut E,
) -> Ended
    ensures answer { (out : Option (List ℕ)) → Answered (RequestAnswers (Some (Asm (asm_view request.now))) (F.store files.old) (F.store files.new) (F.write_faults files.old, F.write_faults files.new) out out) (steps_of (Some (Asm (asm_view request.now))))
        (E.taken err.old) (E.taken err.new) (E.faults err.old) (E.faults err.new) (E.can_fail err.old) result }
    ensures leaves { Leaves (Some (Asm (asm_view request.now))) (F.store files.old) (F.store files.new) }
    ensures memory { (out : Option (List ℕ)) (outs : ℕ) → result ≡ Ended.Memory → TakesSomeFront (RequestAnswers (Some (Asm (asm_view request.now))) (F.store files.old) (F.store files.new) (F.write_faults files.old, F.write_faults files.new) out out)
        (CountsFor (Some (Asm (asm_view request.now))) (F.write_faults files.old) (F.write_faults files.new) outs outs) (steps_of (Some (Asm (asm_view request.now))))
        (E.taken err.old) (E.taken err.new) (F.read_faults files.old) (F.read_faults files.new) }
    ensures err_faults { CountsErr (E.faults err.old) (E.faults err.new) result }
    ensures read_fault { CountsReads (F.read_faults files.old) (F.read_faults files.new) result }
    ensures write_fault { CountsWrites (F.write_faults files.old) (F.write_faults files.new) result }
    ensures read_can_fail { result ≡ Ended.ReadFault → F.can_fail files.old }
    ensures write_can_fail { result ≡ Ended.WriteFault → F.can_fail files.old }
    ensures files_stay { F.can_fail files.new → F.can_fail files.old }
    ensures err_stays { E.can_fail err.new → E.can_fail err.old }
{
    let ended = assemble_file(alloc, request, files);
    tell(alloc, ended, request.text.as_bytes(), 0, err)
}
