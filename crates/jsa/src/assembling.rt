//! Assembles a text into class files.
ghost use Rattle.std.specs.Prelude.{◌≡◌, ◌≤◌, length};
ghost use Rattle.jsa_files.specs.Told.{contents_told, reads_told};
ghost use Rattle.jsa.specs.Runs.{ReadsPath};
ghost use Rattle.jsa.specs.Assembles.{HasText, AsmAnswers};
ghost use Rattle.jsa.specs.Steps.{end_of_writes, IsOfText};
ghost use Rattle.jsa.specs.Command.{CountsReads, CountsWrites};
ghost use Rattle.command_words.specs.Requests.{asm_view};

use crate::ended::Ended;
use class_asm::{AsmFault, assemble};
use class_folder::write_classes;
use command_words::AsmWords;
use jsa_base::Quantity;
use jsa_files::{Files, FilesFault, MAX_FILE};
use std::alloc::Global;

// The end of an assembly whose files were written, or why not.
fn end_of_writes(written: Result<(), FilesFault>) -> Ended
    ensures end { result ≡ end_of_writes written }
{
    match written {
        Ok(()) => Ended::Exit(0),
        Err(FilesFault::Failed) => Ended::WriteFault,
        Err(FilesFault::TooLarge(_)) => Ended::Memory,
        Err(FilesFault::TooMany(_)) => Ended::Memory,
        Err(FilesFault::Memory) => Ended::Memory,
    }
}

// Assembles the text that was read, and writes its classes.
fn write_text<F: Files>(alloc: Global, request: &AsmWords, text: &[u8], files: &mut F) -> Ended
    requires { length text.now ≤ MAX_FILE }
    ensures answer { (t : HasText (contents_told (F.store files.old)) (asm_view request.now)) → t.text ≡ text.now
        → AsmAnswers (contents_told (F.store files.old)) (contents_told (F.store files.new)) (F.write_faults files.old, F.write_faults files.new) (asm_view request.now) result }
    ensures write_fault { CountsWrites (F.write_faults files.old) (F.write_faults files.new) result }
    ensures reads { reads_told (F.store files.new) ≡ reads_told (F.store files.old) }
    ensures read_faults { F.read_faults files.new ≡ F.read_faults files.old }
    ensures write_can_fail { result ≡ Ended.WriteFault → F.can_fail files.old }
    ensures kind { IsOfText result }
    ensures files_stay { F.can_fail files.new → F.can_fail files.old }
{
    match assemble(alloc, text) {
        Ok(trees) => {
            let written = write_classes(alloc, request.folder.as_str(), trees.as_slice(), files);
            end_of_writes(written)
        }
        Err(AsmFault::Line(number)) => Ended::BadText(number),
        Err(AsmFault::Memory) => Ended::Memory,
    }
}

/// Reads the text that is asked for, assembles it, and writes the file of each of its classes to the folder, in the order
/// of the text. Nothing is written before the text was assembled.
pub(crate) fn assemble_file<F: Files>(alloc: Global, request: &AsmWords, files: &mut F) -> Ended
    ensures answer { AsmAnswers (contents_told (F.store files.old)) (contents_told (F.store files.new)) (F.write_faults files.old, F.write_faults files.new) (asm_view request.now) result }
    ensures reads { ReadsPath (reads_told (F.store files.old)) (reads_told (F.store files.new)) (asm_view request.now).text result }
    ensures read_fault { CountsReads (F.read_faults files.old) (F.read_faults files.new) result }
    ensures write_fault { CountsWrites (F.write_faults files.old) (F.write_faults files.new) result }
    ensures read_can_fail { result ≡ Ended.ReadFault → F.can_fail files.old }
    ensures write_can_fail { result ≡ Ended.WriteFault → F.can_fail files.old }
    ensures files_stay { F.can_fail files.new → F.can_fail files.old }
{
    match files.read(alloc, request.text.as_str()) {
        Ok(Some(text)) => write_text(alloc, request, text.as_slice(), files),
        Ok(None) => Ended::Missing,
        Err(FilesFault::Failed) => Ended::ReadFault,
        Err(FilesFault::TooLarge(_)) => Ended::Limit(Quantity::FileSize, MAX_FILE as u64),
        Err(FilesFault::TooMany(_)) => unreachable!(),
        Err(FilesFault::Memory) => Ended::Memory,
    }
}
