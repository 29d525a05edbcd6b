//! A text as class trees.
ghost use Rattle.std.specs.Prelude.{◌≡◌, ◌≤◌, ◌<◌, ◌-◌, ◌+◌, ◌^◌, [], length};
ghost use Rattle.asm_text.specs.Outcome.{Gives};
ghost use Rattle.class_asm.specs.Assembly as spec;
ghost use Rattle.class_asm.specs.declared.place.Place.TheVariants as places;

use crate::fault::AsmFault;
use crate::place::{Place, finish, leave, step};
use asm_text::{LineFault, Statement, statements};
use class_tree::ClassTree;
use std::alloc::Global;

#[tactic(auto, unfolding(crate::specs::Assembly::advance))]
fn step_line(
    alloc: Global,
    rest: &[Option<Statement>],
    line: &Option<Statement>,
    place: Place,
    trees: &mut Vec<ClassTree>,
) -> Result<Place, LineFault>
    ensures { Gives (λ p. p) result trees.new.items (spec.advance rest.now line.now place trees.old.items) }
{
    match line {
        Some(statement) => step(alloc, rest, statement, place, trees),
        None => Err(leave(place, LineFault::Outside)),
    }
}

// The fault of the line with this number.
fn fault_at(number: u32, fault: LineFault) -> AsmFault
    ensures { result ≡ spec.numbered number fault }
{
    match fault {
        LineFault::Outside => AsmFault::Line(number),
        LineFault::Memory => AsmFault::Memory,
    }
}

// The trees of lines that are counted from 1.
#[tactic(auto, unfolding(crate::specs::Assembly::run))]
fn trees_of(alloc: Global, lines: &[Option<Statement>]) -> Result<Vec<ClassTree>, AsmFault>
    requires { length lines.now < 2 ^ 32 - 1 }
    ensures { spec.Answers result (spec.run 1 places.Start [] lines.now) }
{
    let mut trees = Vec::new(alloc);
    let mut place = Place::Start;
    let mut number: u32 = 1;
    let mut rest = lines;
    loop {
        let [line, more @ ..] = rest else {
            break;
        };
        place = match step_line(alloc, more, line, place, &mut trees) {
            Ok(place) => place,
            Err(fault) => return Err(fault_at(number, fault)),
        };
        number += 1;
        rest = more;
    }
    match finish(&mut trees, place) {
        Ok(()) => Ok(trees),
        Err(fault) => Err(fault_at(number, fault)),
    }
}

/// The class trees that an assembler text stands for, in the order of their `class` lines: none for a text without one. The
/// text is UTF-8, and has fewer than 2^32 - 1 bytes, so that its lines have numbers.
///
/// - `Line`: this line is the first outside the grammar, counted from 1; where an `end` is missing at the end of the text,
///   one more than the last.
/// - `Memory`: memory ran out.
#[tactic(auto, unfolding(crate::specs::Assembly::assembled))]
pub fn assemble(alloc: Global, text: &[u8]) -> Result<Vec<ClassTree>, AsmFault>
    requires { length text.now < 2 ^ 32 - 1 }
    ensures { spec.Answers result (spec.assembled text.now) }
{
    let lines = statements(alloc, text)?;
    trees_of(alloc, lines.as_slice())
}
