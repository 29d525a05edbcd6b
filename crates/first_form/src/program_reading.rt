//! Reads the program of a class of the first form.
ghost use Rattle.std.specs.Prelude.{◌≡◌, ◌≤◌, length, true, find, IfOk};
ghost use Rattle.std.specs.Bool.{IsTrue};
ghost use Rattle.std.specs.Option.{option_copied};
ghost use Rattle.class_tree.specs.WellFormed.{is_well_formed};
ghost use Rattle.first_form.specs.Outcomes.{Yields};
ghost use Rattle.first_form.specs.Form as form;
ghost use Rattle.first_form.specs.Program as program;
ghost use Rattle.first_form.specs.FirstForm.{Accepts, HasProgram, OneProgram, IsTreeOf};

use crate::fault::FormFault;
use crate::fitting::fits;
use crate::form::{has_form, is_main};
use crate::instructions::instructions;
use crate::program::{MAX_CODE, Program};
use class_tree::{ClassTree, CodeTree, FormatFault, MethodTree, Pool, is_well_formed};
use classfile_reader::read_class;
use std::alloc::Global;

#[tactic(auto, unfolding(crate::specs::Program::program_in))]
fn program_in(alloc: Global, t: &ClassTree, code: &CodeTree) -> Result<Program, FormFault>
    requires { length code.now.bytes ≤ MAX_CODE }
    ensures exact { Yields result (program.program_in t.now code.now) }
    ensures tested { IfOk result (λ r. program.is_tested r ≡ true) }
    ensures few { IfOk result (λ r. length r.instructions ≤ MAX_CODE) }
{
    let instructions = instructions(alloc, t, code.bytes.as_slice())?;
    let fit = fits(alloc, code.stack, code.locals, instructions.as_slice())?;
    if !fit {
        return Err(FormFault::NotFirstForm);
    }
    Ok(Program {
        max_stack: code.stack,
        max_locals: code.locals,
        instructions,
    })
}

fn main_among<'a>(pool: &Pool, methods: &'a [MethodTree]) -> Option<&'a MethodTree>
    ensures { option_copied result ≡ find (form.is_main pool.now) methods.now }
{
    methods.iter().find(|m| is_main(pool, m))
}

/// The program of the tree of a class file, where it has the first form.
#[tactic(auto, unfolding(crate::specs::Program::program_of))]
pub(crate) fn program_of(alloc: Global, t: &ClassTree) -> Result<Program, FormFault>
    requires { IsTrue (is_well_formed t.now) }
    ensures exact { Yields result (program.program_of t.now) }
    ensures tested { IfOk result (λ r. program.is_tested r ≡ true) }
    ensures few { IfOk result (λ r. length r.instructions ≤ MAX_CODE) }
{
    if !has_form(t) {
        return Err(FormFault::NotFirstForm);
    }
    let Some(main) = main_among(&t.pool, t.methods.as_slice()) else {
        return Err(FormFault::NotFirstForm);
    };
    let Some(code) = &main.code else {
        return Err(FormFault::NotFirstForm);
    };
    program_in(alloc, t, code)
}

/// The tree of the class that the bytes are.
pub(crate) fn class_of(alloc: Global, bytes: &[u8]) -> Result<ClassTree, FormFault>
    ensures { IsTreeOf bytes.now result }
{
    match read_class(alloc, bytes) {
        Ok(tree) => Ok(tree),
        Err(FormatFault::NotClass) => Err(FormFault::NotFirstForm),
        Err(FormatFault::Version(_, _)) => Err(FormFault::NotFirstForm),
        Err(FormatFault::Memory) => Err(FormFault::Memory),
    }
}

/// The program of the class that the bytes are (JVMS 4), where it has the first form.
///
/// `NotFirstForm` comes exactly where the bytes are no class of the first form.
pub fn read_program(alloc: Global, bytes: &[u8]) -> Result<Program, FormFault>
    ensures exact { Accepts bytes.now result }
    // Each instruction finds its operands, its room and its local, and the last one alone returns.
    ensures tested { IfOk result (λ r. program.is_tested r ≡ true) }
    ensures few { IfOk result (λ r. length r.instructions ≤ MAX_CODE) }
{
    let tree = class_of(alloc, bytes)?;
    program_of(alloc, &tree)
}

/// The program of the tree of a class file (JVMS 4), where it has the first form.
///
/// `NotFirstForm` comes exactly where the tree breaks a rule of form (JVMS 4.1, 4.4 to 4.7) or isn't of the first form.
pub fn tree_program(alloc: Global, tree: &ClassTree) -> Result<Program, FormFault>
    ensures exact { HasProgram tree.now result }
    // Each instruction finds its operands, its room and its local, and the last one alone returns.
    ensures tested { IfOk result (λ r. program.is_tested r ≡ true) }
    ensures few { IfOk result (λ r. length r.instructions ≤ MAX_CODE) }
{
    if !is_well_formed(alloc, tree)? {
        return Err(FormFault::NotFirstForm);
    }
    program_of(alloc, tree)
}

/// A text has one program at most.
pub fn one_program()
    ensures { OneProgram }
{}
