//! Where the instructions of a code begin (JVMS 4.9.1).
ghost use Rattle.std.specs.Prelude.{◌≡◌, ◌<◌, IfOk, length, replicate, option_map, slice_get};
ghost use Rattle.std.specs.Option.{option_copied};
ghost use Rattle.jsa_base.specs.Reading.{IsBytes};
ghost use Rattle.jsa_ops.specs.Instruction.{shown};
ghost use Rattle.verify_rules.specs.Places.{instructions, is_start, is_new, is_new_instruction, placed_shown};
ghost use Rattle.verify_types.specs.Marks.{Knows, mark_of, begins, makes};
ghost use Rattle.verify_types.specs.declared.places.Mark.TheVariants.{Inside};

use jsa_base::Cursor;
use jsa_ops::{Instr, decode};
use sqlite_items::{Items, at};
use std::alloc::{AllocError, Global};
use std::marker::Model;

// What begins at a byte of a code.
#[derive(Clone, Copy, Debug, PartialEq, Eq)]
enum Mark {
    // Nothing.
    Inside,
    // An instruction other than `new`.
    Start,
    // A `new`.
    New,
}

/// A code, with the places at which its instructions begin: those that decoding from place 0 reaches. A code of more than
/// 65,535 bytes has none (JVMS 4.7.3).
///
/// Contracts see it as the list of the code's bytes.
#[derive(Debug, Drop)]
pub struct Places<'a> {
    code: &'a [u8],
    // A mark for each byte, or none at all.
    marks: Items<Mark>,
    // The places, one after the other.
    starts: Items<u32>,
    // The first place at which nothing is decoded.
    bad: Option<u32>,
}

impl<'a> Model for Places<'a> {
    ghost use Rattle.std.specs.Prelude.{List, ℕ};
    ghost use Rattle.verify_types.specs.Marks.{Knows};

    ghost Value = { List ℕ };

    ghost view = { λ p. p.code.now };

    ghost invariant = { λ p. Knows p.code.now p.marks p.starts p.bad };
}

fn is_new_instruction(instr: &Instr<'_>) -> bool
    ensures { result ≡ is_new_instruction (shown instr.now) }
{
    match instr {
        Instr::ClassOf(op, _) => *op == 0xbb,
        _ => false,
    }
}

fn mark_of(instr: &Instr<'_>) -> Mark
    ensures { result ≡ mark_of (shown instr.now) }
{
    if is_new_instruction(instr) {
        Mark::New
    } else {
        Mark::Start
    }
}

// So many bytes at which nothing begins.
fn unmarked(alloc: Global, count: usize) -> Result<Items<Mark>, AllocError>
    ensures { IfOk result (λ marks. marks ≡ replicate count Inside) }
{
    let mut marks = Items::new(alloc);
    for _ in 0..count {
        marks.push(Mark::Inside)?;
    }
    Ok(marks)
}

// What is kept of a code that isn't too long.
fn walked(alloc: Global, code: &[u8]) -> Result<(Items<Mark>, Items<u32>, Option<u32>), AllocError>
    requires bytes { IsBytes code.now }
    requires short { length code.now < 65536 }
    ensures { IfOk result (λ w. Knows code.now w.0 w.1 w.2) }
{
    let mut marks = unmarked(alloc, code.len())?;
    let mut starts = Items::new(alloc);
    let mut place = 0u32;
    for _ in 0..code.len() {
        if place as usize >= code.len() {
            return Ok((marks, starts, None));
        }
        let Ok((instr, next)) = decode(code, place) else {
            return Ok((marks, starts, Some(place)));
        };
        marks.set(place as usize, mark_of(&instr));
        starts.push(place)?;
        place = next;
    }
    Ok((marks, starts, None))
}

impl<'a> Places<'a> {
    /// Decodes a code once, from its first byte to its last.
    pub fn new(alloc: Global, code: &'a [u8]) -> Result<Places<'a>, AllocError>
        ensures { IfOk result (λ places. places ≡ code.now) }
    {
        Cursor::new(code).are_bytes();
        if code.len() > 65_535 {
            return Ok(Places {
                code,
                marks: Items::new(alloc),
                starts: Items::new(alloc),
                bad: Some(0),
            });
        }
        let (marks, starts, bad) = walked(alloc, code)?;
        Ok(Places {
            code,
            marks,
            starts,
            bad,
        })
    }

    /// The code.
    pub fn code(&self) -> &'a [u8]
        ensures { result.now ≡ self.now }
    {
        self.code
    }

    /// Whether an instruction begins at a place.
    pub fn is_start(&self, place: u32) -> bool
        ensures { result ≡ is_start self.now place }
    {
        begins(at(self.marks.as_slice(), place as usize))
    }

    /// Whether a `new` begins at a place.
    pub fn is_new(&self, place: u32) -> bool
        ensures { result ≡ is_new self.now place }
    {
        makes(at(self.marks.as_slice(), place as usize))
    }

    /// How many instructions there are.
    pub fn len(&self) -> usize
        ensures { result ≡ length (instructions self.now).placed }
    {
        self.starts.len()
    }

    /// The place of an instruction, counted from 0, the instruction, and the place behind it. It is decoded again.
    pub fn get(&self, k: usize) -> Option<(u32, Instr<'a>, u32)>
        ensures { option_map placed_shown result ≡ slice_get (instructions self.now).placed k }
    {
        let Some(place) = at(self.starts.as_slice(), k) else {
            return None;
        };
        let Ok((instr, next)) = decode(self.code, *place) else {
            unreachable!()
        };
        Some((*place, instr, next))
    }

    /// The place at which nothing is decoded, behind the last instruction. `None` where the code ends there.
    pub fn bad(&self) -> Option<u32>
        ensures { result ≡ (instructions self.now).bad }
    {
        self.bad
    }
}

fn begins(mark: Option<&Mark>) -> bool
    ensures { result ≡ begins (option_copied mark.entry) }
{
    matches!(mark, Some(Mark::Start | Mark::New))
}

fn makes(mark: Option<&Mark>) -> bool
    ensures { result ≡ makes (option_copied mark.entry) }
{
    matches!(mark, Some(Mark::New))
}
