//! Runs the main class.
ghost use Rattle.std.specs.Prelude.{◌≡◌};
ghost use Rattle.first_form.specs.Runs.{HasRun, HasNoRun};
ghost use Rattle.home_run.specs.Steps.{MainAnswersAs, CountsPuts};

use crate::end::HomeEnd;
use class_tree::ClassTree;
use first_form::RunEnd;
use jsa_files::Sink;
use std::alloc::Global;

/// Runs the `main` of a class file's tree, so many turns at most: the one place where a run over a home asks how a class is
/// run.
pub(crate) fn run_tree<O: Sink>(alloc: Global, tree: &ClassTree, steps: u64, out: &mut O) -> HomeEnd
    ensures answer { MainAnswersAs (HasRun tree.now) (HasNoRun tree.now) steps (O.taken out.old) (O.taken out.new) result }
    ensures write_fault { CountsPuts (O.faults out.old) (O.faults out.new) result }
    ensures can_fail { result ≡ HomeEnd.Write → O.can_fail out.old }
    ensures stays { O.can_fail out.new → O.can_fail out.old }
{
    match first_form::run_tree(alloc, tree, steps, out) {
        RunEnd::Returned => HomeEnd::Exit,
        RunEnd::Stopped => HomeEnd::Stopped,
        RunEnd::Unsupported => HomeEnd::Unsupported,
        RunEnd::Write => HomeEnd::Write,
        RunEnd::Memory => HomeEnd::Memory,
    }
}
