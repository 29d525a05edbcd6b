//! A store in memory.
ghost use Rattle.std.specs.Prelude.{◌≡◌, IfOk};
ghost use Rattle.std.specs.FinMap.{get};
ghost use Rattle.jsa_files.specs.Store.{Answers, KeepsSize, Stamps, StampsSmall};
ghost use Rattle.jsa_files.specs.Listing.{Lists, ListsFew, Ascend, AllEndInClass, class_names};
ghost use Rattle.jsa_files.specs.Plans.{FailsWhereDue, WriteFailsWhereDue, due};
ghost use Rattle.jsa_files.specs.Memory.{after_read, after_look, after_write};

use crate::MAX_FILE;
use crate::fault::FilesFault;
use crate::files::Files;
use crate::listing::{ascends, class_names};
use crate::names::Names;
use crate::plan::{CallPlan, counted, front};
use crate::stamp::{Stamp, sha256};
use std::alloc::Global;
use std::collections::BTreeMap;
use std::marker::Model;

/// A store in memory, which tells what it holds, and fails exactly where that was planned.
///
/// In contracts a value is its contents and its reads, how many calls that read and that write have
/// failed, and the plan: how many calls of the trait were made, whatever they answered, and which fail.
/// The counts stand still at 2^64 - 1.
#[derive(Drop)]
pub struct MemoryFiles {
    files: BTreeMap<String, Vec<u8>>,
    reads: Vec<String>,
    read_faults: u64,
    write_faults: u64,
    plan: CallPlan,
    alloc: Global,
}

impl Model for MemoryFiles {
    ghost use Rattle.jsa_files.specs.Memory.{StoreState, store_code, contents_of, paths_of};

    ghost Value = { StoreState };

    ghost coded = { store_code };

    ghost view = { λ m. record {
      contents = contents_of m.files.entries;
      reads = paths_of m.reads.items;
      read_faults = m.read_faults;
      write_faults = m.write_faults;
      plan = m.plan;
    } };
}

impl MemoryFiles {
    ghost use Rattle.std.specs.Prelude.{◌≡◌, ◌≤◌, [], length, Some, OnOk, OnErr, IfOk, IfErr, IfSome, IsOkUnless};
    ghost use Rattle.std.specs.FinMap.{get, insert, empty};
    ghost use Rattle.std.specs.Option.{option_map};
    ghost use Rattle.jsa_files.specs.declared.fault.FilesFault.TheVariants as fault;
    ghost use Rattle.jsa_files.specs.Store.{IsTooLarge};
    ghost use Rattle.jsa_files.specs.Listing.{Lists, ListsFew, Ascend, AllEndInClass, IsOfList, class_names};
    ghost use Rattle.jsa_files.specs.Memory.{paths_of};
    ghost use Rattle.jsa_files.specs.Plans.{no_plan, with_failure};

    /// A store with no file, of which nothing was read, and that can't fail.
    pub fn new(alloc: Global) -> MemoryFiles
        ensures store { ⟦<MemoryFiles as Files>⟧.store result
            ≡ Some (record { contents = empty; reads = [] }) }
        ensures read_faults { ⟦<MemoryFiles as Files>⟧.read_faults result ≡ 0 }
        ensures write_faults { ⟦<MemoryFiles as Files>⟧.write_faults result ≡ 0 }
        ensures plan { result.plan ≡ no_plan }
        ensures can_fail { ¬ ⟦<MemoryFiles as Files>⟧.can_fail result }
    {
        MemoryFiles {
            files: BTreeMap::new(alloc),
            reads: Vec::new(alloc),
            read_faults: 0,
            write_faults: 0,
            plan: CallPlan::new(alloc),
            alloc,
        }
    }

    /// Makes the path hold the bytes, in place of what it held, and leaves all else. After `Memory`, the
    /// only fault, nothing has changed. Bytes above `MAX_FILE` are held too, and `read` then answers
    /// `TooLarge`.
    pub fn with(&mut self, path: &str, bytes: &[u8]) -> Result<(), FilesFault>
        ensures ok { OnOk result (self.new
            ≡ record self.old { contents = insert self.old.contents path.now bytes.now }) }
        ensures err { OnErr result (self.new ≡ self.old) }
        ensures cause { IsOkUnless result fault.Memory }
    {
        let key = String::from_str(self.alloc, path)?;
        let value = Vec::from_slice(self.alloc, bytes)?;
        self.files.insert(key, value)?;
        Ok(())
    }

    /// Makes the call of this number fail, counted from 1 over all calls of the trait on this store. The
    /// first `kept` bytes of a call that writes stand; one that reads has none. A later plan for one
    /// call takes the place of an earlier one, and a number that was passed has no effect. After
    /// `Memory`, the only fault, nothing has changed.
    pub fn fail(&mut self, call: u64, kept: u64) -> Result<(), FilesFault>
        ensures ok { OnOk result (self.new
            ≡ record self.old { plan = with_failure self.old.plan call kept }) }
        ensures err { OnErr result (self.new ≡ self.old) }
        ensures cause { IsOkUnless result fault.Memory }
    {
        Ok(self.plan.fail(call, kept)?)
    }

    /// The bytes that the path holds.
    fn at(&self, path: &str) -> Option<&[u8]>
        ensures { get self.now.contents path.now ≡ option_map (λ bytes. bytes.now) result }
    {
        match self.files.get(path) {
            Some(bytes) => Some(bytes.as_slice()),
            None => None,
        }
    }

    /// The bytes that the path holds, where they aren't too large.
    fn small_at(&self, path: &str) -> Result<Option<&[u8]>, FilesFault>
        ensures found { IfOk result (λ found. get self.now.contents path.now
            ≡ option_map (λ bytes. bytes.now) found) }
        ensures small { IfOk result (λ found. IfSome found (λ bytes. length bytes.now ≤ MAX_FILE)) }
        ensures large { IfErr result (IsTooLarge (get self.now.contents path.now)) }
    {
        match self.at(path) {
            None => Ok(None),
            Some(bytes) if bytes.len() > MAX_FILE => Err(FilesFault::TooLarge(bytes.len() as u64)),
            Some(bytes) => Ok(Some(bytes)),
        }
    }

    /// The class files below the folder.
    fn class_names(&self, alloc: Global, folder: &str) -> Result<Names, FilesFault>
        ensures answer { Lists (class_names self.now.contents folder.now) result }
        ensures number { ListsFew result }
        ensures order { IfOk result Ascend }
        ensures classes { IfOk result AllEndInClass }
        ensures fault { IfErr result IsOfList }
    {
        ascends(&self.files);
        class_names(alloc, &self.files, folder)
    }

    /// Begins a call that reads. It fails where that is due.
    fn begin_reading(&mut self) -> Result<(), FilesFault>
        ensures planned { FailsWhereDue (due self.old.plan) result }
        ensures cause { IsOkUnless result fault.Failed }
        ensures after { self.new ≡ after_look self.old result }
    {
        match self.plan.begin() {
            None => Ok(()),
            Some(_) => {
                self.read_faults = counted(self.read_faults);
                Err(FilesFault::Failed)
            }
        }
    }

    /// The paths whose bytes `read` handed out, in order.
    pub fn reads(&self) -> &[String]
        ensures { paths_of result.now ≡ self.now.reads }
    {
        &self.reads
    }
}

impl Files for MemoryFiles {
    ghost use Rattle.std.specs.Prelude.{Some};
    ghost use Rattle.jsa_files.specs.Memory.{store_of};
    ghost use Rattle.jsa_files.specs.Plans.{FailsLater};

    ghost store = { λ m. Some (store_of m) };

    ghost read_faults = { λ m. m.read_faults };

    ghost write_faults = { λ m. m.write_faults };

    ghost can_fail = { λ m. FailsLater m.plan };

    /// Fails exactly where that was planned, whatever the path holds, and then reads nothing.
    fn read(&mut self, alloc: Global, path: &str) -> Result<Option<Vec<u8>>, FilesFault>
        ensures planned { FailsWhereDue (due self.old.plan) result }
        ensures answer { Answers (get self.old.contents path.now) result }
        ensures size { KeepsSize result }
        ensures after { self.new ≡ after_read self.old path.now result }
    {
        self.begin_reading()?;
        let Some(bytes) = self.small_at(path)? else {
            return Ok(None);
        };
        let copy = Vec::from_slice(alloc, bytes)?;
        self.reads.push(String::from_str(self.alloc, path)?)?;
        Ok(Some(copy))
    }

    /// Fails exactly where that was planned, whatever the path holds.
    fn digest(&mut self, _alloc: Global, path: &str) -> Result<Option<Stamp>, FilesFault>
        ensures planned { FailsWhereDue (due self.old.plan) result }
        ensures answer { Stamps (get self.old.contents path.now) result }
        ensures size { StampsSmall result }
        ensures after { self.new ≡ after_look self.old result }
    {
        self.begin_reading()?;
        let Some(bytes) = self.small_at(path)? else {
            return Ok(None);
        };
        let stamp = Stamp {
            size: bytes.len() as u64,
            sha256: sha256(bytes),
        };
        Ok(Some(stamp))
    }

    /// Fails exactly where that was planned, whatever the folder holds.
    fn list(&mut self, alloc: Global, folder: &str) -> Result<Names, FilesFault>
        ensures planned { FailsWhereDue (due self.old.plan) result }
        ensures answer { Lists (class_names self.old.contents folder.now) result }
        ensures number { ListsFew result }
        ensures order { IfOk result Ascend }
        ensures classes { IfOk result AllEndInClass }
        ensures after { self.new ≡ after_look self.old result }
    {
        self.begin_reading()?;
        self.class_names(alloc, folder)
    }

    /// Fails exactly where that was planned, and keeps as many of the bytes as the plan says. Only
    /// `Memory` comes beside it, after which the path holds what it held.
    fn write(&mut self, _alloc: Global, path: &str, bytes: &[u8]) -> Result<(), FilesFault>
        ensures planned { WriteFailsWhereDue (due self.old.plan) result }
        ensures after { self.new ≡ after_write self.old path.now bytes.now result }
    {
        match self.plan.begin() {
            None => self.with(path, bytes),
            Some(kept) => {
                self.with(path, front(bytes, kept))?;
                self.write_faults = counted(self.write_faults);
                Err(FilesFault::Failed)
            }
        }
    }
}
