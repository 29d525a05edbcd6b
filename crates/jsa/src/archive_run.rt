//! Runs a class that an archive may hold.
ghost use Rattle.std.specs.Prelude.{◌≡◌, ◌≤◌, ℕ, List, [], length, Some, Ok, Err, IfOk, IfErr, IsErrOf};
ghost use Rattle.std.specs.Option.{option_map};
ghost use Rattle.archive_header.specs.declared.folders.Folders.{Folders};
ghost use Rattle.archive_mapper.specs.Mapping.{Maps};
ghost use Rattle.jsa_files.specs.declared.TheConstants.{MAX_FILE};
ghost use Rattle.jsa_files.specs.Told.{contents_told, reads_told};
ghost use Rattle.jsa.specs.Archived.{archive_bytes, Refuses, MappedAnswers, ArchiveAnswers};
ghost use Rattle.jsa.specs.Steps.{OpensAs, IsSmallIn};
ghost use Rattle.jsa.specs.Command.{CountsReads, CountsWrites};
ghost use Rattle.command_words.specs.Requests.{run_view};

use crate::ended::Ended;
use crate::faults::end_of;
use crate::file_run::{run_bytes, run_path};
use crate::folder::folder_manifest;
use archive_header::{Manifest, Refuse};
use archive_mapper::map;
use command_words::{RunWords, Share};
use jsa_files::{Files, Sink};
use plain_classes::{PlainClass, class_in};
use std::alloc::Global;

/// What a run knows before it takes its class: the bytes of the archive's file, and the manifest of the folder.
#[derive(Drop)]
pub(crate) struct ArchiveAndManifest {
    pub(crate) archive: Vec<u8>,
    pub(crate) manifest: Manifest,
}

// The bytes of the archive's file. One that isn't there counts as empty.
fn archive_bytes(alloc: Global, found: Option<Vec<u8>>) -> Vec<u8>
    ensures { result.items ≡ archive_bytes (option_map (λ bytes. bytes.items) found) }
{
    match found {
        Some(bytes) => bytes,
        None => Vec::new(alloc),
    }
}

// Reads the archive's file, then makes the manifest.
fn open<F: Files>(
    alloc: Global,
    folder: &str,
    archive: &str,
    files: &mut F,
) -> Result<ArchiveAndManifest, Ended>
    ensures opens { OpensAs (contents_told (F.store files.old)) (reads_told (F.store files.old)) (reads_told (F.store files.new)) folder.now archive.now result }
    ensures small { IfOk result (λ both. length both.archive.items ≤ MAX_FILE) }
    ensures contents { contents_told (F.store files.new) ≡ contents_told (F.store files.old) }
    ensures counts { IfOk result (λ both. F.read_faults files.new ≡ F.read_faults files.old) }
    ensures read_fault { IfErr result (λ ended. CountsReads (F.read_faults files.old) (F.read_faults files.new) ended) }
    ensures writes { F.write_faults files.new ≡ F.write_faults files.old }
    ensures read_can_fail { IsErrOf result Ended.ReadFault → F.can_fail files.old }
    ensures files_stay { F.can_fail files.new → F.can_fail files.old }
{
    let found = match files.read(alloc, archive) {
        Ok(found) => found,
        Err(fault) => return Err(end_of(fault)),
    };
    match folder_manifest(alloc, folder, files) {
        Ok(manifest) => Ok(ArchiveAndManifest {
            archive: archive_bytes(alloc, found),
            manifest,
        }),
        Err(fault) => Err(end_of(fault)),
    }
}

// Runs the class out of the classes of a mapped archive, or out of its file where the archive doesn't hold it.
fn run_held<F: Files, O: Sink>(
    alloc: Global,
    request: &RunWords,
    classes: &[PlainClass],
    files: &mut F,
    out: &mut O,
) -> Ended
    requires { IsSmallIn classes.now }
    ensures answer { (bytes : List ℕ) (now : Folders) → Maps bytes (Some now) (Ok classes.now)
        → MappedAnswers (contents_told (F.store files.old)) (reads_told (F.store files.old)) (reads_told (F.store files.new)) [] (run_view request.now) bytes now (O.taken out.old) (O.taken out.new) result }
    ensures contents { contents_told (F.store files.new) ≡ contents_told (F.store files.old) }
    ensures read_fault { CountsReads (F.read_faults files.old) (F.read_faults files.new) result }
    ensures write_fault { CountsWrites (O.faults out.old) (O.faults out.new) result }
    ensures writes { F.write_faults files.new ≡ F.write_faults files.old }
    ensures read_can_fail { result ≡ Ended.ReadFault → F.can_fail files.old }
    ensures write_can_fail { result ≡ Ended.WriteFault → O.can_fail out.old }
    ensures files_stay { F.can_fail files.new → F.can_fail files.old }
    ensures out_stays { O.can_fail out.new → O.can_fail out.old }
{
    match class_in(classes, request.name.as_bytes()) {
        Some(bytes) => run_bytes(alloc, bytes, request.steps, out),
        None => run_path(alloc, request, files, out),
    }
}

// Runs the class out of its file, unless the archive that is refused had to be used.
fn run_refused<F: Files, O: Sink>(
    alloc: Global,
    request: &RunWords,
    refuse: Refuse,
    files: &mut F,
    out: &mut O,
) -> Ended
    ensures answer { (bytes : List ℕ) (now : Folders) → Refuses bytes now refuse
        → MappedAnswers (contents_told (F.store files.old)) (reads_told (F.store files.old)) (reads_told (F.store files.new)) [] (run_view request.now) bytes now (O.taken out.old) (O.taken out.new) result }
    ensures contents { contents_told (F.store files.new) ≡ contents_told (F.store files.old) }
    ensures read_fault { CountsReads (F.read_faults files.old) (F.read_faults files.new) result }
    ensures write_fault { CountsWrites (O.faults out.old) (O.faults out.new) result }
    ensures writes { F.write_faults files.new ≡ F.write_faults files.old }
    ensures read_can_fail { result ≡ Ended.ReadFault → F.can_fail files.old }
    ensures write_can_fail { result ≡ Ended.WriteFault → O.can_fail out.old }
    ensures files_stay { F.can_fail files.new → F.can_fail files.old }
    ensures out_stays { O.can_fail out.new → O.can_fail out.old }
{
    match request.share {
        Share::On => Ended::NotShared(refuse),
        Share::Auto => run_path(alloc, request, files, out),
    }
}

// The same for whatever mapping answers in place of classes.
fn run_unmapped<F: Files, O: Sink>(
    alloc: Global,
    request: &RunWords,
    refuse: Refuse,
    files: &mut F,
    out: &mut O,
) -> Ended
    ensures answer { (bytes : List ℕ) (now : Folders) → Maps bytes (Some now) (Err refuse)
        → MappedAnswers (contents_told (F.store files.old)) (reads_told (F.store files.old)) (reads_told (F.store files.new)) [] (run_view request.now) bytes now (O.taken out.old) (O.taken out.new) result }
    ensures contents { contents_told (F.store files.new) ≡ contents_told (F.store files.old) }
    ensures read_fault { CountsReads (F.read_faults files.old) (F.read_faults files.new) result }
    ensures write_fault { CountsWrites (O.faults out.old) (O.faults out.new) result }
    ensures writes { F.write_faults files.new ≡ F.write_faults files.old }
    ensures read_can_fail { result ≡ Ended.ReadFault → F.can_fail files.old }
    ensures write_can_fail { result ≡ Ended.WriteFault → O.can_fail out.old }
    ensures files_stay { F.can_fail files.new → F.can_fail files.old }
    ensures out_stays { O.can_fail out.new → O.can_fail out.old }
{
    match refuse {
        Refuse::Memory => Ended::Memory,
        _ => run_refused(alloc, request, refuse, files, out),
    }
}

// Maps the archive, and runs the class.
fn run_mapped<F: Files, O: Sink>(
    alloc: Global,
    request: &RunWords,
    opened: &ArchiveAndManifest,
    files: &mut F,
    out: &mut O,
) -> Ended
    requires { length opened.now.archive.items ≤ MAX_FILE }
    ensures answer { MappedAnswers (contents_told (F.store files.old)) (reads_told (F.store files.old)) (reads_told (F.store files.new)) [] (run_view request.now) opened.now.archive.items opened.now.manifest (O.taken out.old) (O.taken out.new) result }
    ensures contents { contents_told (F.store files.new) ≡ contents_told (F.store files.old) }
    ensures read_fault { CountsReads (F.read_faults files.old) (F.read_faults files.new) result }
    ensures write_fault { CountsWrites (O.faults out.old) (O.faults out.new) result }
    ensures writes { F.write_faults files.new ≡ F.write_faults files.old }
    ensures read_can_fail { result ≡ Ended.ReadFault → F.can_fail files.old }
    ensures write_can_fail { result ≡ Ended.WriteFault → O.can_fail out.old }
    ensures files_stay { F.can_fail files.new → F.can_fail files.old }
    ensures out_stays { O.can_fail out.new → O.can_fail out.old }
{
    match map(alloc, opened.archive.as_slice(), Some(&opened.manifest)) {
        Ok(classes) => run_held(alloc, request, classes.as_slice(), files, out),
        Err(refuse) => run_unmapped(alloc, request, refuse, files, out),
    }
}

/// Runs the class of a run with an archive.
pub(crate) fn run_archived<F: Files, O: Sink>(
    alloc: Global,
    request: &RunWords,
    files: &mut F,
    out: &mut O,
) -> Ended
    ensures answer { ArchiveAnswers (contents_told (F.store files.old)) (reads_told (F.store files.old)) (reads_told (F.store files.new)) (run_view request.now) (O.taken out.old) (O.taken out.new) result }
    ensures contents { contents_told (F.store files.new) ≡ contents_told (F.store files.old) }
    ensures read_fault { CountsReads (F.read_faults files.old) (F.read_faults files.new) result }
    ensures write_fault { CountsWrites (O.faults out.old) (O.faults out.new) result }
    ensures writes { F.write_faults files.new ≡ F.write_faults files.old }
    ensures read_can_fail { result ≡ Ended.ReadFault → F.can_fail files.old }
    ensures write_can_fail { result ≡ Ended.WriteFault → O.can_fail out.old }
    ensures files_stay { F.can_fail files.new → F.can_fail files.old }
    ensures out_stays { O.can_fail out.new → O.can_fail out.old }
{
    let folder = request.folder.as_str();
    let archive = request.archive.as_str();
    match open(alloc, folder, archive, files) {
        Ok(opened) => run_mapped(alloc, request, &opened, files, out),
        Err(ended) => ended,
    }
}
