//! A sink over a writer of std.
ghost use Rattle.std.specs.Prelude.{◌≡◌, None, ⊤, IsErrOf};
ghost use Rattle.jsa_files.specs.Causes.{CountsSinkFailure};
ghost use Rattle.jsa_files.specs.Sinks.{Takes};
ghost use Rattle.jsa_files.specs.StdSink.{writer_of, Writes};

use crate::fault::SinkFault;
use crate::sink::Sink;
use std::alloc::Global;
use std::io::{ErrorKind, Write};

/// A sink over a writer of std, as standard output. It tells nothing of what it took.
///
/// `put` writes until all of the bytes are taken, and then flushes. It stops at the first `Err` of the
/// writer, also at one of the kind `Interrupted`, and at a write that takes nothing of a piece that
/// isn't empty: that is `Failed`, and counts once. An `Err` of the kind `OutOfMemory` is `Memory`, and
/// no fault. The count stands still at 2^64 - 1.
#[derive(Drop)]
pub struct StdSink<W> {
    writer: W,
    faults: u64,
}

impl<W: Write> StdSink<W> {
    /// A sink over the writer, which has counted no fault.
    pub fn new(writer: W) -> StdSink<W>
        ensures writer { writer_of result ≡ writer }
        ensures faults { ⟦<StdSink<W> as Sink>⟧.faults result ≡ 0 }
    {
        StdSink { writer, faults: 0 }
    }
}

impl<W: Write> Sink for StdSink<W> {
    ghost taken = { λ _. None };

    ghost faults = { λ s. s.faults };

    ghost can_fail = { λ _. ⊤ };

    // The trait's other clauses hold too. By the last one here the writer took what the sink did.
    fn put(&mut self, _alloc: Global, bytes: &[u8]) -> Result<(), SinkFault>
        ensures cause { CountsSinkFailure (⟦<StdSink<W> as Sink>⟧.faults self.old)
            (⟦<StdSink<W> as Sink>⟧.faults self.new) result }
        ensures written { Writes (W.contents (writer_of self.old)) (W.contents (writer_of self.new))
            bytes.now result }
    {
        match write_whole(&mut self.writer, bytes) {
            Ok(()) => Ok(()),
            Err(SinkFault::Memory) => Err(SinkFault::Memory),
            Err(SinkFault::Failed) => {
                self.faults = self.faults.saturating_add(1);
                Err(SinkFault::Failed)
            }
        }
    }
}

/// Writes all of the bytes and flushes.
pub(crate) fn write_whole<W: Write>(writer: &mut W, bytes: &[u8]) -> Result<(), SinkFault>
    ensures { Writes (W.contents writer.old) (W.contents writer.new) bytes.now result }
{
    let mut rest = bytes;
    while !rest.is_empty() {
        match writer.write(rest) {
            Ok(0) => return Err(SinkFault::Failed),
            Ok(count) => rest = &rest[count..],
            Err(e) => return Err(fault_of(e.kind())),
        }
    }
    match writer.flush() {
        Ok(()) => Ok(()),
        Err(e) => Err(fault_of(e.kind())),
    }
}

/// Want of memory is no fault of the outside.
fn fault_of(kind: ErrorKind) -> SinkFault {
    match kind {
        ErrorKind::OutOfMemory => SinkFault::Memory,
        _ => SinkFault::Failed,
    }
}
