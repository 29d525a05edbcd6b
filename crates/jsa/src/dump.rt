//! Dumps the classes of a list into an archive.
ghost use Rattle.std.specs.Prelude.{◌≡◌, ◌≢◌, ◌⊎◌, ℕ, List, IsTrue, IfOk, IfErr, IsErrOf};
ghost use Rattle.std.specs.String.{string_bytes};
ghost use Rattle.plain_classes.specs.Archives.{has_one_folder};
ghost use Rattle.command_words.specs.ClassList.{listed_once};
ghost use Rattle.jsa_files.specs.Told.{contents_told};
ghost use Rattle.jsa.specs.Dumps.{Listed, Prepared, Gathered, DumpAnswers, dumped_line, names_listed};
ghost use Rattle.jsa.specs.Steps.{texts_of, ListsAs, NamesIn, subject_at, WritesArchive, PutsLine, IsOfArchive};
ghost use Rattle.jsa.specs.Command.{CountsReads, CountsDump, CountsWrites};
ghost use Rattle.command_words.specs.Requests.{dump_view};

use crate::ended::Ended;
use crate::faults::end_of;
use crate::folder::folder_manifest;
use crate::gathering::{DumpEnd, gather};
use archive_dump::{DumpFault, MAX_ARCHIVE, MAX_CLASSES, dump_static};
use archive_header::Manifest;
use command_words::{DumpWords, read_list};
use jsa_base::Quantity;
use jsa_files::{Files, FilesFault, Sink, SinkFault};
use plain_classes::PlainClass;
use sqlite_items::Items;
use std::alloc::{AllocError, Global};

// The names in a file that was found.
fn names_in(alloc: Global, bytes: &[u8]) -> Result<Vec<Vec<u8>>, Ended>
    ensures { NamesIn bytes.now result }
{
    read_list(alloc, bytes).map_err(|_| Ended::Memory)
}

/// The names that the class list of a dump lists, each once.
pub(crate) fn read_names<F: Files>(
    alloc: Global,
    request: &DumpWords,
    files: &mut F,
) -> Result<Vec<Vec<u8>>, Ended>
    ensures lists { ListsAs (contents_told (F.store files.old)) (dump_view request.now) result }
    ensures contents { contents_told (F.store files.new) ≡ contents_told (F.store files.old) }
    ensures counts { IfOk result (λ names. F.read_faults files.new ≡ F.read_faults files.old) }
    ensures read_fault { IfErr result (λ ended. CountsReads (F.read_faults files.old) (F.read_faults files.new) ended) }
    ensures writes { F.write_faults files.new ≡ F.write_faults files.old }
    ensures read_can_fail { IsErrOf result Ended.ReadFault → F.can_fail files.old }
    ensures files_stay { F.can_fail files.new → F.can_fail files.old }
{
    match files.read(alloc, request.list.as_str()) {
        Ok(Some(bytes)) => names_in(alloc, bytes.as_slice()),
        Ok(None) => Err(Ended::Missing),
        Err(fault) => Err(end_of(fault)),
    }
}

fn line(alloc: Global, count: usize) -> Result<String, AllocError>
    ensures { IfOk result (λ line. string_bytes line ≡ dumped_line count) }
{
    format!(in alloc; "archived {count} skipped 0\n")
}

// Puts the line of a dump that was written.
fn put_line<O: Sink>(alloc: Global, count: usize, out: &mut O) -> Ended
    ensures puts { PutsLine count (O.taken out.old) (O.taken out.new) result }
    ensures write_fault { CountsWrites (O.faults out.old) (O.faults out.new) result }
    ensures write_can_fail { result ≡ Ended.WriteFault → O.can_fail out.old }
    ensures kind { IsOfArchive result }
    ensures out_stays { O.can_fail out.new → O.can_fail out.old }
{
    let Ok(line) = line(alloc, count) else {
        return Ended::Memory;
    };
    match out.put(alloc, line.as_bytes()) {
        Ok(()) => Ended::Exit(0),
        Err(SinkFault::Failed) => Ended::WriteFault,
        Err(SinkFault::Memory) => Ended::Memory,
    }
}

// Writes the archive of so many classes, and puts the line.
fn write_archive<F: Files, O: Sink>(
    alloc: Global,
    path: &str,
    archive: &[u8],
    count: usize,
    files: &mut F,
    out: &mut O,
) -> Ended
    ensures writes { WritesArchive (contents_told (F.store files.old)) (contents_told (F.store files.new)) (F.write_faults files.old, F.write_faults files.new) path.now archive.now count (O.taken out.old) (O.taken out.new) result }
    ensures write_fault { CountsDump (F.write_faults files.old) (F.write_faults files.new) (O.faults out.old) (O.faults out.new) result }
    ensures reads { F.read_faults files.new ≡ F.read_faults files.old }
    ensures write_can_fail { result ≡ Ended.WriteFault → (F.can_fail files.old ⊎ O.can_fail out.old) }
    ensures kind { IsOfArchive result }
    ensures files_stay { F.can_fail files.new → F.can_fail files.old }
    ensures out_stays { O.can_fail out.new → O.can_fail out.old }
{
    match files.write(alloc, path, archive) {
        Ok(()) => put_line(alloc, count, out),
        Err(FilesFault::Failed) => Ended::WriteFault,
        Err(FilesFault::TooLarge(_)) => unreachable!(),
        Err(FilesFault::TooMany(_)) => unreachable!(),
        Err(FilesFault::Memory) => Ended::Memory,
    }
}

// Makes the archive of the classes, writes it, and puts the line.
fn dump_classes<F: Files, O: Sink>(
    alloc: Global,
    request: &DumpWords,
    classes: &[PlainClass],
    now: &Manifest,
    files: &mut F,
    out: &mut O,
) -> Ended
    requires one { IsTrue (has_one_folder now.now) }
    ensures answer { (g : Gathered (contents_told (F.store files.old)) (dump_view request.now)) → g.classes ≡ classes.now → g.prepared.now ≡ now.now → (name : List ℕ)
        → DumpAnswers (contents_told (F.store files.old)) (contents_told (F.store files.new)) (F.write_faults files.old, F.write_faults files.new) (dump_view request.now) (O.taken out.old) (O.taken out.new) name result }
    ensures write_fault { CountsDump (F.write_faults files.old) (F.write_faults files.new) (O.faults out.old) (O.faults out.new) result }
    ensures reads { F.read_faults files.new ≡ F.read_faults files.old }
    ensures write_can_fail { result ≡ Ended.WriteFault → (F.can_fail files.old ⊎ O.can_fail out.old) }
    ensures kind { IsOfArchive result }
    ensures files_stay { F.can_fail files.new → F.can_fail files.old }
    ensures out_stays { O.can_fail out.new → O.can_fail out.old }
{
    match dump_static(alloc, classes, now) {
        Ok(archive) => write_archive(
            alloc,
            request.archive.as_str(),
            archive.as_slice(),
            classes.len(),
            files,
            out,
        ),
        Err(DumpFault::TooMany) => Ended::Limit(Quantity::Classes, MAX_CLASSES as u64),
        Err(DumpFault::TooLarge) => Ended::Limit(Quantity::ArchiveSize, MAX_ARCHIVE),
        Err(DumpFault::Memory) => Ended::Memory,
    }
}

// Reads the classes of the names, and dumps them.
fn dump_named<F: Files, O: Sink>(
    alloc: Global,
    request: &DumpWords,
    names: &[Vec<u8>],
    now: &Manifest,
    files: &mut F,
    out: &mut O,
) -> DumpEnd
    requires one { IsTrue (has_one_folder now.now) }
    ensures answer { (p : Prepared (contents_told (F.store files.old)) (dump_view request.now)) → names_listed p ≡ texts_of names.now → p.now ≡ now.now
        → DumpAnswers (contents_told (F.store files.old)) (contents_told (F.store files.new)) (F.write_faults files.old, F.write_faults files.new) (dump_view request.now) (O.taken out.old) (O.taken out.new) (subject_at (texts_of names.now) result.place) result.ended }
    ensures read_fault { CountsReads (F.read_faults files.old) (F.read_faults files.new) result.ended }
    ensures write_fault { CountsDump (F.write_faults files.old) (F.write_faults files.new) (O.faults out.old) (O.faults out.new) result.ended }
    ensures read_can_fail { result.ended ≡ Ended.ReadFault → F.can_fail files.old }
    ensures listed { result.ended ≢ Ended.Missing }
    ensures write_can_fail { result.ended ≡ Ended.WriteFault → (F.can_fail files.old ⊎ O.can_fail out.old) }
    ensures files_stay { F.can_fail files.new → F.can_fail files.old }
    ensures out_stays { O.can_fail out.new → O.can_fail out.old }
{
    match gather(alloc, request.folder.as_str(), names, files) {
        Ok(classes) => DumpEnd {
            ended: dump_classes(alloc, request, classes.as_slice(), now, files, out),
            place: 0,
        },
        Err(end) => end,
    }
}

/// Dumps the classes of these names, which the list has: makes the manifest, reads the classes, makes the archive, writes
/// it, and puts the line to `out`. Where the end is `Unsupported` the place is that of the name that has no class.
pub(crate) fn dump_names<F: Files, O: Sink>(
    alloc: Global,
    request: &DumpWords,
    names: &[Vec<u8>],
    files: &mut F,
    out: &mut O,
) -> DumpEnd
    ensures answer { (l : Listed (contents_told (F.store files.old)) (dump_view request.now)) → listed_once l.bytes ≡ texts_of names.now
        → DumpAnswers (contents_told (F.store files.old)) (contents_told (F.store files.new)) (F.write_faults files.old, F.write_faults files.new) (dump_view request.now) (O.taken out.old) (O.taken out.new) (subject_at (texts_of names.now) result.place) result.ended }
    ensures read_fault { CountsReads (F.read_faults files.old) (F.read_faults files.new) result.ended }
    ensures write_fault { CountsDump (F.write_faults files.old) (F.write_faults files.new) (O.faults out.old) (O.faults out.new) result.ended }
    ensures read_can_fail { result.ended ≡ Ended.ReadFault → F.can_fail files.old }
    ensures listed { result.ended ≢ Ended.Missing }
    ensures write_can_fail { result.ended ≡ Ended.WriteFault → (F.can_fail files.old ⊎ O.can_fail out.old) }
    ensures files_stay { F.can_fail files.new → F.can_fail files.old }
    ensures out_stays { O.can_fail out.new → O.can_fail out.old }
{
    match folder_manifest(alloc, request.folder.as_str(), files) {
        Ok(now) => dump_named(alloc, request, names, &now, files, out),
        Err(fault) => DumpEnd {
            ended: end_of(fault),
            place: 0,
        },
    }
}
