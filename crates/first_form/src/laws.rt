//! Laws of the machine's runs.
ghost use Rattle.std.specs.Prelude.{◌≡◌, ◌≢◌, ◌≤◌, ◌+◌, ℕ, true, Some, length};
ghost use Rattle.class_tree.specs.declared.tree.ClassTree.{ClassTree};
ghost use Rattle.first_form.specs.declared.program.Program.{Program};
ghost use Rattle.first_form.specs.Program.{is_tested, program_of};
ghost use Rattle.first_form.specs.Machine.{state_after, start};

use crate::machine::End;

/// A tested program exits: each instruction is done in one turn, and four turns are those of the entry frame and of the
/// initialisation of the main class.
pub fn a_fitting_program_exits()
    ensures { (n : ℕ) (program : Program)
        → is_tested program ≡ true → length program.instructions + 4 ≤ n
        → (state_after program n start).end ≡ Some End.Exit }
{}

/// No run of a class of the first form meets a state without a row: after any number of turns `main` has returned, or it
/// goes on.
pub fn no_class_is_stuck()
    ensures { (n : ℕ) (tree : ClassTree) (program : Program)
        → program_of tree ≡ Some program → (state_after program n start).end ≢ Some End.Stuck }
{}
