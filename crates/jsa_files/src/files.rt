//! A store of files.
ghost use Rattle.std.specs.Prelude.{◌≡◌, ℕ, Option, IfOk, IsErrOf};
ghost use Rattle.jsa_files.specs.Store.{Store, AnswersAsTold, KeepsSize, store_after_read, StampsAsTold, StampsSmall, Writes};
ghost use Rattle.jsa_files.specs.Listing.{ListsAsTold, ListsFew, Ascend, AllEndInClass};
ghost use Rattle.jsa_files.specs.Causes.{CountsFailure};

use crate::fault::FilesFault;
use crate::names::Names;
use crate::stamp::Stamp;
use std::alloc::Global;

/// A store of files.
///
/// Contracts speak of four things that no code need hold. An implementer says what they are for its
/// type, and owes each clause at every call: so it counts each failure of the outside in the call
/// that answers it, and counts nothing else.
pub trait Files {
    /// What the store holds and what was read of it, where it tells that, and else `None`.
    ///
    /// Its contents are a finite map from paths to bytes; a path is the text that a caller gives, byte
    /// for byte. Its reads are the paths for which `read` handed out bytes, in order. No call changes
    /// whether the store tells.
    ghost store: { Self → Option Store };

    /// How many calls that read have failed. It never falls, and may stand still at 2^64 - 1.
    ghost read_faults: { Self → ℕ };

    /// How many calls that write have failed. It never falls, and may stand still at 2^64 - 1.
    ghost write_faults: { Self → ℕ };

    /// Whether a call may fail from here on. Where none may, none ever will.
    ghost can_fail: { Self → Type 0 };

    /// The bytes at the path, or `None` where the store has no such path.
    ///
    /// The contents stay as they are, whatever the answer. A call that hands out bytes appends its
    /// path to the reads; one that answers `None` or a fault leaves them.
    ///
    /// - `Failed` comes only from a store that can fail, and only where the count of read faults rose:
    ///   it is greater than before, or at 2^64 - 1. After every other answer it is as before. The
    ///   count of write faults always is.
    /// - `TooLarge(size)` comes where the file is above `MAX_FILE` bytes, and only there; `size` is
    ///   its whole size. Such a file is never handed out, in whole or in part.
    /// - `TooMany` never comes.
    /// - `Memory` comes where memory ran out.
    fn read(&mut self, alloc: Global, path: &str) -> Result<Option<Vec<u8>>, FilesFault>
        ensures answer { AnswersAsTold (store self.old) path.now result }
        ensures size { KeepsSize result }
        ensures store { store self.new ≡ store_after_read (store self.old) path.now result }
        ensures cause { CountsFailure (read_faults self.old) (read_faults self.new) result }
        ensures failed { IsErrOf result FilesFault.Failed → can_fail self.old }
        ensures stays { can_fail self.new → can_fail self.old }
        ensures writes { write_faults self.new ≡ write_faults self.old };

    /// The size and the SHA-256 of the bytes at the path, or `None` where `read` would give it. No bytes
    /// are handed out, so the reads stay, and so do the contents.
    ///
    /// - `Failed` comes as from `read`, and counts as a read fault.
    /// - `TooLarge(size)` comes where the file is above `MAX_FILE` bytes, and only there; `size` is
    ///   its whole size.
    /// - `TooMany` never comes.
    /// - `Memory` comes where memory ran out.
    fn digest(&mut self, alloc: Global, path: &str) -> Result<Option<Stamp>, FilesFault>
        ensures answer { StampsAsTold (store self.old) path.now result }
        ensures size { StampsSmall result }
        ensures store { store self.new ≡ store self.old }
        ensures cause { CountsFailure (read_faults self.old) (read_faults self.new) result }
        ensures failed { IsErrOf result FilesFault.Failed → can_fail self.old }
        ensures stays { can_fail self.new → can_fail self.old }
        ensures writes { write_faults self.new ≡ write_faults self.old };

    /// The class files below the folder: what follows `FOLDER/` in the path of each file that ends in
    /// `.class`, however deep it lies, in ascending order of bytes. A folder that isn't there has none. The
    /// contents and the reads stay.
    ///
    /// - `Failed` comes as from `read`, and counts as a read fault.
    /// - `TooLarge` never comes.
    /// - `TooMany(count)` comes where there are more than `MAX_NAMES` of them, and only there; `count` is
    ///   how many there are.
    /// - `Memory` comes where memory ran out.
    fn list(&mut self, alloc: Global, folder: &str) -> Result<Names, FilesFault>
        ensures answer { ListsAsTold (store self.old) folder.now result }
        ensures number { ListsFew result }
        ensures order { IfOk result Ascend }
        ensures classes { IfOk result AllEndInClass }
        ensures store { store self.new ≡ store self.old }
        ensures cause { CountsFailure (read_faults self.old) (read_faults self.new) result }
        ensures failed { IsErrOf result FilesFault.Failed → can_fail self.old }
        ensures stays { can_fail self.new → can_fail self.old }
        ensures writes { write_faults self.new ≡ write_faults self.old };

    /// Makes the path hold the bytes, in place of what it held, and leaves all else.
    ///
    /// - `Failed` comes only from a store that can fail, and only where the count of write faults
    ///   rose: it is greater than before, or at 2^64 - 1. After every other answer it is as before. The
    ///   count of read faults always is. The path then holds what it held before or a front of the
    ///   bytes, which may be none or all, and all else is as before.
    /// - `TooLarge` and `TooMany` never come.
    /// - `Memory` comes where memory ran out. Then nothing has changed.
    fn write(&mut self, alloc: Global, path: &str, bytes: &[u8]) -> Result<(), FilesFault>
        ensures store { Writes (store self.old) (store self.new) path.now bytes.now result }
        ensures cause { CountsFailure (write_faults self.old) (write_faults self.new) result }
        ensures failed { IsErrOf result FilesFault.Failed → can_fail self.old }
        ensures stays { can_fail self.new → can_fail self.old }
        ensures reads { read_faults self.new ≡ read_faults self.old };
}
