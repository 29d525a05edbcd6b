//! A store over the files of the system.
ghost use Rattle.std.specs.Prelude.{◌≡◌, ◌≤◌, None, IfOk, IfErr, ⊤};
ghost use Rattle.std.specs.Io.{ReadsAtMost};
ghost use Rattle.std.specs.Io.KnownBytes.{ReadConsumes};
ghost use Rattle.jsa_files.specs.Causes.{CountsFailure};
ghost use Rattle.jsa_files.specs.Store.{KeepsSize, StampsSmall};
ghost use Rattle.jsa_files.specs.Listing.{ListsFew, Ascend, AllEndInClass};
ghost use Rattle.jsa_files.specs.Disk.{IsOfCall, KeepsWhole, GivesWhole, StampsWhole, GivesStamp, Counts};

use crate::MAX_FILE;
use crate::disk_listing::files_below;
use crate::fault::FilesFault;
use crate::files::Files;
use crate::listing::class_names;
use crate::names::Names;
use crate::stamp::Stamp;
use crate::std_sink::write_whole;
use sha2::{Digest, Sha256};
use std::alloc::Global;
use std::fs;
use std::io::{ErrorKind, Read};

/// How many bytes one read asks the system for.
const BUFFER: usize = 65_536;

/// A store over the files of the system, as a runtime of std gives them. It tells nothing of what they
/// hold.
///
/// A path is as the system takes it: one that doesn't begin with `/` is below the current folder.
/// `read` and `digest` read to the end. They keep or hash at most `MAX_FILE` bytes, and only count what
/// is beyond them, so that `TooLarge` has the whole size. `list` walks the folders, through links too,
/// and takes the files that it finds. `write` makes the folders above the path that aren't there, and
/// takes over a file that is.
///
/// - A path that isn't there, is below something that is no folder, or is longer than a path may be, is `None`, and no
///   fault.
/// - An `Err` of the kind `OutOfMemory` is `Memory`, and no fault. Of a write this holds until the file
///   is open, since its old bytes are gone then.
/// - Each other `Err` of the runtime, also one of the kind `Interrupted`, is `Failed` and counts once, in
///   the count of read faults, or of write faults where it is a write's. A path that is a folder is one
///   of these; so are, in a listing, a name that isn't UTF-8 and a folder that lies more than 64 deep,
///   and in a write, one that takes nothing. A count stands still at 2^64 - 1.
#[derive(Drop)]
pub struct DiskFiles<R> {
    rt: R,
    read_faults: u64,
    write_faults: u64,
}

impl<R: std::rt::Files + Alloc> DiskFiles<R> {
    /// A store over the runtime's files, which has counted no fault.
    pub fn new(rt: R) -> DiskFiles<R>
        ensures read_faults { ⟦<DiskFiles<R> as Files>⟧.read_faults result ≡ 0 }
        ensures write_faults { ⟦<DiskFiles<R> as Files>⟧.write_faults result ≡ 0 }
    {
        DiskFiles {
            rt,
            read_faults: 0,
            write_faults: 0,
        }
    }
}

impl<R: std::rt::Files + Alloc> Files for DiskFiles<R> {
    ghost store = { λ _. None };

    ghost read_faults = { λ d. d.read_faults };

    ghost write_faults = { λ d. d.write_faults };

    ghost can_fail = { λ _. ⊤ };

    fn read(&mut self, alloc: Global, path: &str) -> Result<Option<Vec<u8>>, FilesFault> {
        let answer = read_path(&self.rt, alloc, path);
        counted(answer, &mut self.read_faults)
    }

    fn digest(&mut self, _alloc: Global, path: &str) -> Result<Option<Stamp>, FilesFault> {
        let answer = digest_path(&self.rt, path);
        counted(answer, &mut self.read_faults)
    }

    fn list(&mut self, alloc: Global, folder: &str) -> Result<Names, FilesFault> {
        let answer = list_folder(&self.rt, alloc, folder);
        counted(answer, &mut self.read_faults)
    }

    fn write(&mut self, _alloc: Global, path: &str, bytes: &[u8]) -> Result<(), FilesFault> {
        let answer = write_path(&self.rt, path, bytes);
        counted(answer, &mut self.write_faults)
    }
}

/// Counts the answer of a call where it is `Failed`.
fn counted<T>(answer: Result<T, FilesFault>, faults: &mut u64) -> Result<T, FilesFault>
    ensures same { result ≡ answer }
    ensures count { CountsFailure faults.old faults.new answer }
{
    if let Err(FilesFault::Failed) = &answer {
        *faults = faults.saturating_add(1);
    }
    answer
}

/// Opens the path and reads it to its end.
fn read_path<R: std::rt::Files>(
    rt: &R,
    alloc: Global,
    path: &str,
) -> Result<Option<Vec<u8>>, FilesFault>
    ensures { KeepsSize result }
{
    match fs::open(rt, path) {
        Ok(mut file) => match read_whole(&mut file, alloc) {
            Ok(bytes) => Ok(Some(bytes)),
            Err(fault) => Err(fault),
        },
        Err(e) => missing(e.kind()),
    }
}

/// Opens the path, reads it to its end and hashes it.
fn digest_path<R: std::rt::Files>(rt: &R, path: &str) -> Result<Option<Stamp>, FilesFault>
    ensures { StampsSmall result }
{
    match fs::open(rt, path) {
        Ok(mut file) => match digest_whole(&mut file) {
            Ok(stamp) => Ok(Some(stamp)),
            Err(fault) => Err(fault),
        },
        Err(e) => missing(e.kind()),
    }
}

/// The names of the class files below the folder.
fn list_folder<R: std::rt::Files + Alloc>(
    rt: &R,
    alloc: Global,
    folder: &str,
) -> Result<Names, FilesFault>
    ensures number { ListsFew result }
    ensures order { IfOk result Ascend }
    ensures classes { IfOk result AllEndInClass }
{
    let files = files_below(rt, alloc, folder)?;
    class_names(alloc, &files, folder)
}

/// A path that isn't there is no fault.
pub(crate) fn missing<T>(kind: ErrorKind) -> Result<Option<T>, FilesFault>
    ensures none { IfOk result (λ found. found ≡ None) }
    ensures fault { IfErr result IsOfCall }
{
    match kind {
        ErrorKind::NotFound | ErrorKind::NotADirectory | ErrorKind::InvalidFilename => Ok(None),
        kind => Err(fault_of(kind)),
    }
}

/// Makes the folders above the path and then the file, and writes the bytes. Once the file is opened
/// its old bytes are gone, so that from there on want of memory is a fault too.
fn write_path<R: std::rt::Files>(rt: &R, path: &str, bytes: &[u8]) -> Result<(), FilesFault>
    ensures { IfErr result IsOfCall }
{
    make_folders(rt, path)?;
    match fs::create(rt, path) {
        Ok(mut file) => match write_whole(&mut file, bytes) {
            Ok(()) => Ok(()),
            Err(_) => Err(FilesFault::Failed),
        },
        Err(e) => Err(fault_of(e.kind())),
    }
}

/// Makes the folders above the path that aren't there.
fn make_folders<R: std::rt::Files>(rt: &R, path: &str) -> Result<(), FilesFault>
    ensures { IfErr result IsOfCall }
{
    let Some((folder, _)) = path.rsplit_once('/') else {
        return Ok(());
    };
    match fs::create_dir_all(rt, folder) {
        Ok(()) => Ok(()),
        Err(e) => Err(fault_of(e.kind())),
    }
}

/// Reads to the end, and hands out what the reader had left. More than `MAX_FILE` bytes are only counted: the answer is
/// then `TooLarge` with the size of all of them. An `Err` of the reader ends this, as `Memory` where its kind is
/// `OutOfMemory`, and else as `Failed`, which no store counts. `TooMany` never comes.
pub fn read_whole<F: Read>(file: &mut F, alloc: Global) -> Result<Vec<u8>, FilesFault>
    ensures size { KeepsWhole result }
    ensures bytes { GivesWhole (F.remaining file.old) result }
{
    let mut bytes = Vec::new(alloc);
    let mut buffer = [0u8; BUFFER];
    loop {
        let count = read_some(file, &mut buffer)?;
        if count == 0 {
            return Ok(bytes);
        }
        if bytes.len() + count > MAX_FILE {
            let before = (bytes.len() + count) as u64;
            return Err(FilesFault::TooLarge(count_rest(file, before)?));
        }
        bytes.extend_from_slice(&buffer[..count])?;
    }
}

/// Reads to the end and hashes: the size in bytes and the SHA-256 of what the reader had left. More than `MAX_FILE` bytes
/// are only counted, and faults come as from `read_whole`. This takes no memory, so `Memory` comes from the reader alone.
pub fn digest_whole<F: Read>(file: &mut F) -> Result<Stamp, FilesFault>
    ensures size { StampsWhole result }
    ensures stamp { GivesStamp (F.remaining file.old) result }
{
    let mut hasher = Sha256::new();
    let mut size = 0usize;
    let mut buffer = [0u8; BUFFER];
    loop {
        let taken = read_some(file, &mut buffer)?;
        if taken == 0 {
            return Ok(Stamp {
                size: size as u64,
                sha256: hasher.finalize(),
            });
        }
        if size + taken > MAX_FILE {
            let before = (size + taken) as u64;
            return Err(FilesFault::TooLarge(count_rest(file, before)?));
        }
        hasher.update(&buffer[..taken]);
        size += taken;
    }
}

/// Reads to the end and keeps nothing. Answers how many bytes that were, with those before.
fn count_rest<F: Read>(file: &mut F, before: u64) -> Result<u64, FilesFault>
    ensures least { IfOk result (λ size. before ≤ size) }
    ensures size { IfOk result (Counts (F.remaining file.old) before) }
    ensures fault { IfErr result IsOfCall }
{
    let mut size = before;
    let mut buffer = [0u8; BUFFER];
    while size < u64::MAX {
        let more = read_some(file, &mut buffer)?;
        if more == 0 {
            break;
        }
        size = size.saturating_add(more as u64);
    }
    Ok(size)
}

/// Reads once, up to the buffer's length.
fn read_some<F: Read>(file: &mut F, buffer: &mut [u8]) -> Result<usize, FilesFault>
    ensures bound { ReadsAtMost result buffer.new }
    ensures bytes { ReadConsumes (F.remaining file.old) (F.remaining file.new) result buffer.new }
    ensures fault { IfErr result IsOfCall }
{
    match file.read(buffer) {
        Ok(count) => Ok(count),
        Err(e) => Err(fault_of(e.kind())),
    }
}

/// Want of memory is no fault of the outside.
pub(crate) fn fault_of(kind: ErrorKind) -> FilesFault
    ensures { IsOfCall result }
{
    match kind {
        ErrorKind::OutOfMemory => FilesFault::Memory,
        _ => FilesFault::Failed,
    }
}
