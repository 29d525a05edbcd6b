//! A sink in memory.
ghost use Rattle.std.specs.Prelude.{◌≡◌};
ghost use Rattle.jsa_files.specs.Memory.{after_put};
ghost use Rattle.jsa_files.specs.Plans.{PutFailsWhereDue, due};

use crate::fault::SinkFault;
use crate::plan::{CallPlan, counted, front};
use crate::sink::Sink;
use std::alloc::Global;
use std::marker::Model;

/// A sink in memory, which tells what it took, and fails exactly where that was planned.
///
/// In contracts a value is what it took, how many puts have failed, and the plan: how many puts were
/// made, whatever they answered, and which fail. Both counts stand still at 2^64 - 1.
#[derive(Drop)]
pub struct MemorySink {
    bytes: Vec<u8>,
    faults: u64,
    plan: CallPlan,
}

impl Model for MemorySink {
    ghost use Rattle.jsa_files.specs.Memory.{SinkState, sink_code};

    ghost Value = { SinkState };

    ghost coded = { sink_code };

    ghost view = { λ s. record { taken = s.bytes.items; faults = s.faults; plan = s.plan } };
}

impl MemorySink {
    ghost use Rattle.std.specs.Prelude.{◌≡◌, [], Some, OnOk, OnErr, IsOkUnless};
    ghost use Rattle.jsa_files.specs.declared.fault.SinkFault.TheVariants as fault;
    ghost use Rattle.jsa_files.specs.Plans.{no_plan, with_failure};

    /// A sink that has taken nothing yet, and that can't fail.
    pub fn new(alloc: Global) -> MemorySink
        ensures taken { ⟦<MemorySink as Sink>⟧.taken result ≡ Some [] }
        ensures faults { ⟦<MemorySink as Sink>⟧.faults result ≡ 0 }
        ensures plan { result.plan ≡ no_plan }
        ensures can_fail { ¬ ⟦<MemorySink as Sink>⟧.can_fail result }
    {
        MemorySink {
            bytes: Vec::new(alloc),
            faults: 0,
            plan: CallPlan::new(alloc),
        }
    }

    /// Makes the put of this number fail, counted from 1 over all puts of this sink. The first `kept`
    /// bytes of that put are taken, all of them where it has fewer. A later plan for one put takes the
    /// place of an earlier one, and a number that was passed has no effect. After `Memory`, the only
    /// fault, nothing has changed.
    pub fn fail(&mut self, call: u64, kept: u64) -> Result<(), SinkFault>
        ensures ok { OnOk result (self.new
            ≡ record self.old { plan = with_failure self.old.plan call kept }) }
        ensures err { OnErr result (self.new ≡ self.old) }
        ensures cause { IsOkUnless result fault.Memory }
    {
        Ok(self.plan.fail(call, kept)?)
    }

    /// All the bytes that it took, in order.
    pub fn bytes(&self) -> &[u8]
        ensures { ⟦<MemorySink as Sink>⟧.taken self.now ≡ Some result.now }
    {
        &self.bytes
    }
}

impl Sink for MemorySink {
    ghost use Rattle.std.specs.Prelude.{Some};
    ghost use Rattle.jsa_files.specs.Plans.{FailsLater};

    ghost taken = { λ s. Some s.taken };

    ghost faults = { λ s. s.faults };

    ghost can_fail = { λ s. FailsLater s.plan };

    /// Fails exactly where that was planned, and only `Memory` comes beside it, after which nothing was
    /// taken.
    fn put(&mut self, _alloc: Global, bytes: &[u8]) -> Result<(), SinkFault>
        ensures planned { PutFailsWhereDue (due self.old.plan) result }
        ensures after { self.new ≡ after_put self.old bytes.now result }
    {
        match self.plan.begin() {
            None => Ok(self.bytes.extend_from_slice(bytes)?),
            Some(kept) => {
                self.bytes.extend_from_slice(front(bytes, kept))?;
                self.faults = counted(self.faults);
                Err(SinkFault::Failed)
            }
        }
    }
}
