//! Reads the instructions of `main` (JVMS 6.5).
ghost use Rattle.std.specs.Prelude.{◌≡◌, ◌≤◌, slice_get, length, IfOk};
ghost use Rattle.first_form.specs.Outcomes.{Gives, Yields};
ghost use Rattle.first_form.specs.Program as program;
ghost use Rattle.first_form.specs.declared.program.Instruction.TheVariants as instruction;
ghost use Rattle.jsa_base.specs.Reading.{u1_at, u2_at};
ghost use Rattle.class_tree.specs.WellFormed.{is_like_class};

use crate::fault::FormFault;
use crate::form::declares_put;
use crate::program::Instruction;
use class_tree::{ClassTree, Pool, PoolEntry};
use jsa_base::Cursor;
use sqlite_items::{Items, at};
use std::alloc::Global;

fn u1(cursor: &mut Cursor<'_>) -> Result<u8, FormFault>
    ensures { Gives result cursor.new (u1_at cursor.old) }
{
    cursor.u1().ok_or(FormFault::NotFirstForm)
}

fn u2(cursor: &mut Cursor<'_>) -> Result<u16, FormFault>
    ensures { Gives result cursor.new (u2_at cursor.old) }
{
    cursor.u2().ok_or(FormFault::NotFirstForm)
}

// Whether both indices name classes, and the same one.
fn is_same_class(pool: &Pool, i: u16, j: u16) -> bool
    ensures { result ≡ is_like_class pool.now i j }
{
    let Some(a) = pool.class_name(i) else {
        return false;
    };
    let Some(b) = pool.class_name(j) else {
        return false;
    };
    a == b
}

// Whether the NameAndType at an index is that of `put`.
fn names_put(pool: &Pool, index: u16) -> bool
    ensures { result ≡ program.names_put pool.now index }
{
    match at(pool.entries(), usize::from(index)) {
        Some(PoolEntry::NameAndType(name, desc)) => {
            pool.is_text(*name, b"put") && pool.is_text(*desc, b"(I)V")
        }
        _ => false,
    }
}

// Whether the entry at an index is a Methodref to the method `put` that the class declares.
fn is_own_put(t: &ClassTree, index: u16) -> bool
    ensures { result ≡ program.is_own_put t.now (slice_get t.now.pool index) }
{
    let pool = &t.pool;
    match at(pool.entries(), usize::from(index)) {
        Some(PoolEntry::Methodref(class, member)) => {
            is_same_class(pool, *class, t.this)
                && names_put(pool, *member)
                && declares_put(pool, t.methods.as_slice())
        }
        _ => false,
    }
}

// The number of the Integer at an index.
fn constant(t: &ClassTree, index: u16) -> Option<Instruction>
    ensures { result ≡ program.constant_of (slice_get t.now.pool index) }
{
    match at(t.pool.entries(), usize::from(index)) {
        Some(PoolEntry::Integer(bits)) => Some(Instruction::Push(bits.cast_signed())),
        _ => None,
    }
}

fn byte(cursor: &mut Cursor<'_>) -> Result<Instruction, FormFault>
    ensures { Gives result cursor.new (program.byte_at cursor.old) }
{
    let byte = u1(cursor)?;
    Ok(Instruction::Push(i32::from(byte.cast_signed())))
}

fn short(cursor: &mut Cursor<'_>) -> Result<Instruction, FormFault>
    ensures { Gives result cursor.new (program.short_at cursor.old) }
{
    let short = u2(cursor)?;
    Ok(Instruction::Push(i32::from(short.cast_signed())))
}

fn constant_by_byte(t: &ClassTree, cursor: &mut Cursor<'_>) -> Result<Instruction, FormFault>
    ensures { Gives result cursor.new (program.constant_at t.now u1_at cursor.old) }
{
    let index = u1(cursor)?;
    constant(t, u16::from(index)).ok_or(FormFault::NotFirstForm)
}

fn constant_by_short(t: &ClassTree, cursor: &mut Cursor<'_>) -> Result<Instruction, FormFault>
    ensures { Gives result cursor.new (program.constant_at t.now u2_at cursor.old) }
{
    let index = u2(cursor)?;
    constant(t, index).ok_or(FormFault::NotFirstForm)
}

fn load(cursor: &mut Cursor<'_>) -> Result<Instruction, FormFault>
    ensures { Gives result cursor.new (program.local_at instruction.Load cursor.old) }
{
    let local = u1(cursor)?;
    Ok(Instruction::Load(local))
}

fn store(cursor: &mut Cursor<'_>) -> Result<Instruction, FormFault>
    ensures { Gives result cursor.new (program.local_at instruction.Store cursor.old) }
{
    let local = u1(cursor)?;
    Ok(Instruction::Store(local))
}

fn increment(cursor: &mut Cursor<'_>) -> Result<Instruction, FormFault>
    ensures { Gives result cursor.new (program.increment_at cursor.old) }
{
    let local = u1(cursor)?;
    let amount = u1(cursor)?;
    Ok(Instruction::Increment(local, amount.cast_signed()))
}

fn invokestatic(t: &ClassTree, cursor: &mut Cursor<'_>) -> Result<Instruction, FormFault>
    ensures { Gives result cursor.new (program.invokestatic_at t.now cursor.old) }
{
    let index = u2(cursor)?;
    if is_own_put(t, index) {
        Ok(Instruction::Put)
    } else {
        Err(FormFault::NotFirstForm)
    }
}

// An instruction that is its opcode alone.
#[tactic(auto, unfolding(crate::specs::Program::plain_by))]
fn plain(opcode: u8) -> Option<Instruction>
    ensures { result ≡ program.plain_by opcode }
{
    match opcode {
        0x00 => Some(Instruction::Nop),
        0x02..=0x08 => Some(Instruction::Push(i32::from(opcode) - 3)),
        0x1a..=0x1d => Some(Instruction::Load(opcode - 0x1a)),
        0x3b..=0x3e => Some(Instruction::Store(opcode - 0x3b)),
        0x57 => Some(Instruction::Pop),
        0x59 => Some(Instruction::Dup),
        0x60 => Some(Instruction::Add),
        0x64 => Some(Instruction::Subtract),
        0x68 => Some(Instruction::Multiply),
        0x74 => Some(Instruction::Negate),
        0x78 => Some(Instruction::ShiftLeft),
        0x7a => Some(Instruction::ShiftRight),
        0x7c => Some(Instruction::LogicalShiftRight),
        0x7e => Some(Instruction::And),
        0x80 => Some(Instruction::Or),
        0x82 => Some(Instruction::Xor),
        0x91 => Some(Instruction::ToByte),
        0x92 => Some(Instruction::ToChar),
        0x93 => Some(Instruction::ToShort),
        0xb1 => Some(Instruction::Return),
        _ => None,
    }
}

// An instruction whose operands stand behind its opcode.
#[tactic(auto, unfolding(crate::specs::Program::with_operands_by))]
fn with_operands(
    t: &ClassTree,
    opcode: u8,
    cursor: &mut Cursor<'_>,
) -> Result<Instruction, FormFault>
    ensures { Gives result cursor.new (program.with_operands_by t.now opcode cursor.old) }
{
    match opcode {
        0x10 => byte(cursor),
        0x11 => short(cursor),
        0x12 => constant_by_byte(t, cursor),
        0x13 => constant_by_short(t, cursor),
        0x15 => load(cursor),
        0x36 => store(cursor),
        0x84 => increment(cursor),
        0xb8 => invokestatic(t, cursor),
        _ => Err(FormFault::NotFirstForm),
    }
}

#[tactic(auto, unfolding(crate::specs::Program::instruction_at))]
fn instruction(t: &ClassTree, cursor: &mut Cursor<'_>) -> Result<Instruction, FormFault>
    ensures { Gives result cursor.new (program.instruction_at t.now cursor.old) }
{
    let opcode = u1(cursor)?;
    match plain(opcode) {
        Some(instruction) => Ok(instruction),
        None => with_operands(t, opcode, cursor),
    }
}

/// The instructions one after the other to the end of the code.
#[tactic(auto, using(crate::proofs::Loop::instructions_go_on, crate::proofs::Loop::instructions_end, crate::proofs::Loop::instructions_are_done, crate::proofs::Loop::instructions_are_cut))]
pub(crate) fn instructions(
    alloc: Global,
    t: &ClassTree,
    code: &[u8],
) -> Result<Items<Instruction>, FormFault>
    ensures exact { Yields result (program.instructions_in t.now (length code.now) code.now) }
    // Each instruction has a byte at least.
    ensures few { IfOk result (λ xs. length xs ≤ length code.now) }
{
    let mut instructions = Items::new(alloc);
    let mut cursor = Cursor::new(code);
    for _ in 0..code.len() {
        if cursor.left() == 0 {
            return Ok(instructions);
        }
        let next = instruction(t, &mut cursor)?;
        instructions.push(next)?;
    }
    if cursor.left() == 0 {
        Ok(instructions)
    } else {
        Err(FormFault::NotFirstForm)
    }
}
