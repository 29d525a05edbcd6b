//! Runs of so many turns.
ghost use Rattle.std.specs.Prelude.{◌≡◌, ◌≢◌, true, Some, IfOk, OnOk, OnErr, IsErrOf};
ghost use Rattle.jsa_files.specs.Sinks.{GrowsBy, GrowsByFront};
ghost use Rattle.first_form.specs.Program.{is_tested};
ghost use Rattle.first_form.specs.declared.running.RunFault.TheVariants.{Memory};
ghost use Rattle.first_form.specs.Faults.{CountsWrite};
ghost use Rattle.first_form.specs.Machine.{IsNew, IsAt, state_after, start};
ghost use Rattle.first_form.specs.Does.{text_of};

use crate::machine::{End, Machine};
use crate::program::Program;
use crate::turns::turn;
use jsa_files::{Sink, SinkFault};
use std::alloc::{AllocError, Global};

/// Why a run broke off.
#[derive(Clone, Copy, Debug, PartialEq, Eq)]
pub enum RunFault {
    /// The sink failed.
    Write,
    /// No memory is left.
    Memory,
}

impl From<AllocError> for RunFault {
    ghost from_gives = { λ _ e. e ≡ Memory };

    fn from(_: AllocError) -> RunFault {
        RunFault::Memory
    }
}

// Puts the number and the end of a line.
#[tactic(auto, using(jsa_files::proofs::Taken::grows_nothing, jsa_files::proofs::Taken::front_nothing))]
fn put_number<O: Sink>(alloc: Global, number: Option<i32>, out: &mut O) -> Result<(), RunFault>
    ensures out { OnOk result (GrowsBy (O.taken out.old) (O.taken out.new) (text_of number)) }
    ensures front { OnErr result (GrowsByFront (O.taken out.old) (O.taken out.new) (text_of number)) }
    ensures cause { CountsWrite (O.faults out.old) (O.faults out.new) result }
    ensures failed { IsErrOf result RunFault.Write → O.can_fail out.old }
    ensures stays { O.can_fail out.new → O.can_fail out.old }
{
    let Some(n) = number else {
        return Ok(());
    };
    let line = format!(in alloc; "{n}\n")?;
    match out.put(alloc, line.as_bytes()) {
        Ok(()) => Ok(()),
        Err(SinkFault::Failed) => Err(RunFault::Write),
        Err(SinkFault::Memory) => Err(RunFault::Memory),
    }
}

/// Makes at most `limit` turns of a new machine, and puts to `out` what they put. The answer is the end, or `None` where
/// the run hasn't ended after so many turns. After an error nothing is said of the machine.
pub fn run<O: Sink>(
    alloc: Global,
    program: &Program,
    machine: &mut Machine,
    out: &mut O,
    limit: u64,
) -> Result<Option<End>, RunFault>
    requires new { IsNew machine.old }
    requires tested { is_tested program.now ≡ true }
    // The machine and the answer are those of the state after so many turns.
    ensures ran { IfOk result (IsAt (state_after program.now limit start) machine.new) }
    ensures out { OnOk result (GrowsBy (O.taken out.old) (O.taken out.new)
        (state_after program.now limit start).out) }
    // After a fault a front of that was put.
    ensures front { OnErr result (GrowsByFront (O.taken out.old) (O.taken out.new)
        (state_after program.now limit start).out) }
    ensures cause { CountsWrite (O.faults out.old) (O.faults out.new) result }
    ensures failed { IsErrOf result RunFault.Write → O.can_fail out.old }
    ensures stays { O.can_fail out.new → O.can_fail out.old }
    // A tested program never meets a state without a row.
    ensures sound { IfOk result (λ end. end ≢ Some End.Stuck) }
{
    for _ in 0..limit {
        let turned = turn(alloc, program, machine)?;
        machine.turns += 1;
        put_number(alloc, turned.put, out)?;
        if turned.end.is_some() {
            return Ok(turned.end);
        }
    }
    Ok(None)
}
