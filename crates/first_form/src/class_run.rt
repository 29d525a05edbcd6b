//! Runs a class of the first form.
ghost use Rattle.std.specs.Prelude.{◌≡◌, true};
ghost use Rattle.first_form.specs.Program.{is_tested};
ghost use Rattle.first_form.specs.Runs.{RunAnswers, HasRun, HasNoRun, FileHasRun, FileHasNoRun, OneRun, run_of_program};
ghost use Rattle.first_form.specs.Faults.{CountsPuts};

use crate::fault::FormFault;
use crate::machine::{End, Machine};
use crate::program::Program;
use crate::program_reading::{read_program, tree_program};
use crate::running::{RunFault, run};
use class_tree::ClassTree;
use jsa_files::Sink;
use std::alloc::Global;

/// How the run of a class ended.
#[derive(Clone, Copy, Debug, PartialEq, Eq)]
pub enum RunEnd {
    /// `main` returned.
    Returned,
    /// As many turns were made as the limit, and `main` hasn't returned.
    Stopped,
    /// The class isn't of the first form, and nothing was put.
    Unsupported,
    /// The sink failed at a put.
    Write,
    /// Memory ran out.
    Memory,
}

// Runs a program that was tested.
fn run_program<O: Sink>(alloc: Global, program: &Program, turns: u64, out: &mut O) -> RunEnd
    requires tested { is_tested program.now ≡ true }
    ensures answer { RunAnswers (λ r. r ≡ run_of_program program.now) ⊥ turns (O.taken out.old) (O.taken out.new) result }
    ensures write_fault { CountsPuts (O.faults out.old) (O.faults out.new) result }
    ensures can_fail { result ≡ RunEnd.Write → O.can_fail out.old }
    ensures stays { O.can_fail out.new → O.can_fail out.old }
{
    let Ok(mut machine) = Machine::new(alloc) else {
        return RunEnd::Memory;
    };
    match run(alloc, program, &mut machine, out, turns) {
        Ok(Some(End::Exit)) => RunEnd::Returned,
        Ok(Some(End::Stuck)) => unreachable!(),
        Ok(None) => RunEnd::Stopped,
        Err(RunFault::Write) => RunEnd::Write,
        Err(RunFault::Memory) => RunEnd::Memory,
    }
}

/// Runs the `main` of a class file's tree (JVMS 4, 5.2), so many turns at most, and puts to `out` what it puts.
///
/// - `Returned`: `main` returned within so many turns.
/// - `Stopped`: it hasn't.
/// - `Unsupported`: the tree breaks a rule of form (JVMS 4.1, 4.4 to 4.7), or its class isn't of the first form.
/// - `Write`: `out` failed at a put, and took a front of what the run puts.
/// - `Memory`: memory ran out; `out` took a front of what the run puts.
#[tactic(auto, using(crate::proofs::ClassRuns::tree_has_none))]
pub fn run_tree<O: Sink>(alloc: Global, tree: &ClassTree, turns: u64, out: &mut O) -> RunEnd
    ensures answer { RunAnswers (HasRun tree.now) (HasNoRun tree.now) turns (O.taken out.old) (O.taken out.new) result }
    // A fault is answered only where its count rose, and only where a put could fail.
    ensures write_fault { CountsPuts (O.faults out.old) (O.faults out.new) result }
    ensures can_fail { result ≡ RunEnd.Write → O.can_fail out.old }
    // Where no put can fail, none can afterwards.
    ensures stays { O.can_fail out.new → O.can_fail out.old }
{
    match tree_program(alloc, tree) {
        Ok(program) => run_program(alloc, &program, turns, out),
        Err(FormFault::NotFirstForm) => RunEnd::Unsupported,
        Err(FormFault::Memory) => RunEnd::Memory,
    }
}

/// Runs the `main` of the class that the bytes of a class file are, as `run_tree` does. `Unsupported` comes exactly where
/// the bytes are no class file (JVMS 4), or one of a class that isn't of the first form.
#[tactic(auto, using(crate::proofs::ClassRuns::file_ran))]
pub fn run_bytes<O: Sink>(alloc: Global, bytes: &[u8], turns: u64, out: &mut O) -> RunEnd
    ensures answer { RunAnswers (FileHasRun bytes.now) (FileHasNoRun bytes.now) turns (O.taken out.old) (O.taken out.new) result }
    ensures write_fault { CountsPuts (O.faults out.old) (O.faults out.new) result }
    ensures can_fail { result ≡ RunEnd.Write → O.can_fail out.old }
    ensures stays { O.can_fail out.new → O.can_fail out.old }
{
    match read_program(alloc, bytes) {
        Ok(program) => run_program(alloc, &program, turns, out),
        Err(FormFault::NotFirstForm) => RunEnd::Unsupported,
        Err(FormFault::Memory) => RunEnd::Memory,
    }
}

/// A class file has one run at most.
pub fn one_run()
    ensures { OneRun }
{}
