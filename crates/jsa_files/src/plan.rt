//! Which calls of a store or of a sink in memory fail.
ghost use Rattle.std.specs.Prelude.{◌≡◌, take, OnOk, OnErr};
ghost use Rattle.jsa_files.specs.Plans.{no_plan, with_failure, due, counted, after_call};

use std::alloc::{AllocError, Global};
use std::collections::BTreeMap;
use std::marker::Model;

/// How many calls were made, up to 2^64 - 1, and which calls fail.
#[derive(Drop)]
pub(crate) struct CallPlan {
    made: u64,
    failing: BTreeMap<u64, u64>,
}

impl Model for CallPlan {
    ghost use Rattle.std.specs.Prelude.{◌≡◌, ◌^◌, None};
    ghost use Rattle.std.specs.FinMap.{get};
    ghost use Rattle.jsa_files.specs.Plans.{Plan, plan_code, failing_of};

    ghost Value = { Plan };

    ghost coded = { plan_code };

    ghost view = { λ p. record { made = p.made; failing = failing_of p.failing.entries } };

    // no call has a number above those of the type
    ghost invariant = { λ p. get (failing_of p.failing.entries) (2 ^ 64) ≡ None };
}

impl CallPlan {
    /// No call was made, and none fails.
    pub(crate) fn new(alloc: Global) -> CallPlan
        ensures { result ≡ no_plan }
    {
        CallPlan {
            made: 0,
            failing: BTreeMap::new(alloc),
        }
    }

    /// Makes the call of this number fail, counted from 1, and keeps so many of its bytes. A later plan
    /// for one call takes the place of an earlier one.
    pub(crate) fn fail(&mut self, call: u64, kept: u64) -> Result<(), AllocError>
        ensures ok { OnOk result (self.new ≡ with_failure self.old call kept) }
        ensures err { OnErr result (self.new ≡ self.old) }
    {
        match self.failing.insert(call, kept) {
            Ok(_) => Ok(()),
            Err(_) => Err(AllocError),
        }
    }

    /// Counts a call. Where it fails, answers how many of its bytes are kept.
    pub(crate) fn begin(&mut self) -> Option<u64>
        ensures due { result ≡ due self.old }
        ensures made { self.new ≡ after_call self.old }
    {
        if self.made == u64::MAX {
            return None;
        }
        self.made += 1;
        self.failing.get(&self.made).copied()
    }
}

/// One more, up to the end of the type.
pub(crate) fn counted(count: u64) -> u64
    ensures { result ≡ counted count }
{
    if count < u64::MAX { count + 1 } else { count }
}

/// The first `kept` bytes, or all of them.
pub(crate) fn front(bytes: &[u8], kept: u64) -> &[u8]
    ensures { result.now ≡ take kept bytes.now }
{
    let count = (bytes.len() as u64).min(kept) as usize;
    &bytes[..count]
}
