// The counts of faults after a first call that was to fail, which no code can read.
ghost use Rattle.std.specs.Prelude.{◌≡◌, IfOk};

use jsa_files::{Files, FilesFault, MemoryFiles};
use std::alloc::Global;
use std::test::Fail;

// A store without files, after a first call that was to fail.
pub fn after_a_planned_failure(alloc: Global) -> Result<MemoryFiles, FilesFault>
    ensures { IfOk result (λ files. ⟦<MemoryFiles as Files>⟧.read_faults files ≡ 1) }
{
    let mut files = MemoryFiles::new(alloc);
    files.fail(1, 0)?;
    let _failed = files.read(alloc, "app/A.class");
    Ok(files)
}

// A new store whose first call was to fail.
fn with_a_failure(alloc: Global) -> Result<MemoryFiles, FilesFault>
    ensures reads { IfOk result (λ files. ⟦<MemoryFiles as Files>⟧.read_faults files ≡ 0) }
    ensures writes { IfOk result (λ files. ⟦<MemoryFiles as Files>⟧.write_faults files ≡ 0) }
{
    let mut files = MemoryFiles::new(alloc);
    files.fail(1, 0)?;
    Ok(files)
}

// One fault is counted after a digest that failed.
fn after_a_failed_digest(alloc: Global) -> Result<MemoryFiles, FilesFault>
    ensures { IfOk result (λ files. ⟦<MemoryFiles as Files>⟧.read_faults files ≡ 1) }
{
    let mut files = with_a_failure(alloc)?;
    match files.digest(alloc, "a") {
        Err(FilesFault::Failed) => Ok(files),
        _ => Err(FilesFault::Memory),
    }
}

fn after_a_failed_list(alloc: Global) -> Result<MemoryFiles, FilesFault>
    ensures { IfOk result (λ files. ⟦<MemoryFiles as Files>⟧.read_faults files ≡ 1) }
{
    let mut files = with_a_failure(alloc)?;
    match files.list(alloc, "a") {
        Err(FilesFault::Failed) => Ok(files),
        _ => Err(FilesFault::Memory),
    }
}

fn after_a_failed_write(alloc: Global) -> Result<MemoryFiles, FilesFault>
    ensures reads { IfOk result (λ files. ⟦<MemoryFiles as Files>⟧.read_faults files ≡ 0) }
    ensures writes { IfOk result (λ files. ⟦<MemoryFiles as Files>⟧.write_faults files ≡ 1) }
{
    let mut files = with_a_failure(alloc)?;
    match files.write(alloc, "a", b"b") {
        Err(FilesFault::Failed) => Ok(files),
        _ => Err(FilesFault::Memory),
    }
}

fn all_failed(alloc: Global) -> bool {
    after_a_failed_digest(alloc).is_ok()
        && after_a_failed_list(alloc).is_ok()
        && after_a_failed_write(alloc).is_ok()
}

#[test]
fn the_first_failure_is_counted_once(rt: HostRuntime) -> Result<(), Fail> {
    assert!(rt; all_failed(rt.alloc()));
    Ok(())
}
