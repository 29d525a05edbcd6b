//! Writes an instruction.
ghost use Rattle.std.specs.Prelude.{◌≡◌, ◌++◌, ◌∷◌, ◌/◌, ◌*◌, ◌%◌, [], length, replicate, true, OnOk};
ghost use Rattle.jsa_ops.specs.Opcodes.{form_of as form_at};
ghost use Rattle.jsa_ops.specs.Instruction.{shown};
ghost use Rattle.jsa_base.specs.Spelling.{u2 as u2_text, u4 as u4_text, s2 as s2_text, s4 as s4_text};
ghost use Rattle.jsa_ops.specs.Spelling.{padding, index_text, distance_text, operands as operands_text, text_of, opcode, is_longer};
ghost use Rattle.jsa_ops.specs.Places.{DecodesAgain};
ghost use Rattle.std.specs.Int.{w16, cast_unsigned};

use crate::fault::Memory;
use crate::form::{Form, form_of};
use crate::instr::Instr;
use jsa_base::{put_s1, put_s2, put_s4, put_u1, put_u2, put_u4};
use std::alloc::AllocError;

fn put_padding(out: &mut Vec<u8>, pc: u32) -> Result<(), AllocError>
    ensures { OnOk result (out.new.items ≡ out.old.items ++ replicate (padding pc) 0) }
{
    match pc % 4 {
        0 => out.extend_from_slice(&[0, 0, 0]),
        1 => out.extend_from_slice(&[0, 0]),
        2 => out.extend_from_slice(&[0]),
        _ => Ok(()),
    }
}

// A pool index and two more bytes.
fn put_call(out: &mut Vec<u8>, index: u16, first: u8, second: u8) -> Result<(), AllocError>
    ensures { OnOk result (out.new.items ≡ out.old.items ++ (u2_text index ++ (first ∷ second ∷ []))) }
{
    put_u2(out, index)?;
    put_u1(out, first)?;
    put_u1(out, second)
}

// A pool index: one byte behind ldc.
fn put_index(out: &mut Vec<u8>, op: u8, index: u16) -> Result<(), AllocError>
    ensures { OnOk result (out.new.items ≡ out.old.items ++ index_text (form_at op) index) }
{
    match form_of(op) {
        Some(Form::NearConstant) => put_u1(out, (index % 256) as u8),
        _ => put_u2(out, index),
    }
}

// A distance: four bytes behind goto_w and jsr_w.
fn put_distance(out: &mut Vec<u8>, op: u8, distance: i32) -> Result<(), AllocError>
    ensures { OnOk result (out.new.items ≡ out.old.items ++ distance_text (form_at op) distance) }
{
    match form_of(op) {
        Some(Form::FarBranch) => put_s4(out, distance),
        _ => put_u2(out, (distance.cast_unsigned() % 65_536) as u16),
    }
}

fn put_iinc(out: &mut Vec<u8>, local: u16, amount: i16) -> Result<(), AllocError>
    ensures { OnOk result (out.new.items ≡ out.old.items ++ ((local % 256) ∷ (cast_unsigned w16 amount % 256) ∷ [])) }
{
    out.extend_from_slice(&[(local % 256) as u8, (amount.cast_unsigned() % 256) as u8])
}

fn put_wide(out: &mut Vec<u8>, code: u8, local: u16) -> Result<(), AllocError>
    ensures { OnOk result (out.new.items ≡ out.old.items ++ code ∷ u2_text local) }
{
    put_u1(out, code)?;
    put_u2(out, local)
}

fn put_dimensions(out: &mut Vec<u8>, index: u16, dimensions: u8) -> Result<(), AllocError>
    ensures { OnOk result (out.new.items ≡ out.old.items ++ (u2_text index ++ (dimensions ∷ []))) }
{
    put_u2(out, index)?;
    put_u1(out, dimensions)
}

fn put_distances(out: &mut Vec<u8>, low: i32, high: i32, distances: &[u8]) -> Result<(), AllocError>
    ensures { OnOk result (out.new.items ≡ out.old.items ++ (s4_text low ++ (s4_text high ++ distances.now))) }
{
    put_s4(out, low)?;
    put_s4(out, high)?;
    out.extend_from_slice(distances)
}

// Padding, and the default distance of a switch.
fn put_default(out: &mut Vec<u8>, pc: u32, other: i32) -> Result<(), AllocError>
    ensures { OnOk result (out.new.items ≡ out.old.items ++ (replicate (padding pc) 0 ++ s4_text other)) }
{
    put_padding(out, pc)?;
    put_s4(out, other)
}

fn put_table(
    out: &mut Vec<u8>,
    pc: u32,
    other: i32,
    low: i32,
    high: i32,
    distances: &[u8],
) -> Result<(), AllocError>
    ensures { OnOk result (out.new.items ≡ out.old.items ++ (replicate (padding pc) 0 ++ (s4_text other ++ (s4_text low ++ (s4_text high ++ distances.now))))) }
{
    put_default(out, pc, other)?;
    put_distances(out, low, high, distances)
}

fn put_pairs(out: &mut Vec<u8>, pc: u32, other: i32, pairs: &[u8]) -> Result<(), AllocError>
    ensures { OnOk result (out.new.items ≡ out.old.items ++ (replicate (padding pc) 0 ++ (s4_text other ++ (u4_text (length pairs.now / 8 % 4294967296) ++ pairs.now)))) }
{
    put_padding(out, pc)?;
    put_s4(out, other)?;
    put_u4(out, (pairs.len() / 8 % 4_294_967_296) as u32)?;
    out.extend_from_slice(pairs)
}

fn put_wide_iinc(out: &mut Vec<u8>, local: u16, amount: i16) -> Result<(), AllocError>
    ensures { OnOk result (out.new.items ≡ out.old.items ++ (0x84 ∷ (u2_text local ++ s2_text amount))) }
{
    put_wide(out, 0x84, local)?;
    put_s2(out, amount)
}

// The operands of an instruction that holds more than an index or a local.
fn put_longer(out: &mut Vec<u8>, pc: u32, instr: &Instr<'_>) -> Result<(), AllocError>
    ensures { is_longer (shown instr.now) ≡ true → OnOk result (out.new.items ≡ out.old.items ++ operands_text (replicate (padding pc) 0) (shown instr.now)) }
{
    match *instr {
        Instr::Interface(_, index, count, zero) => put_call(out, index, count, zero),
        Instr::Dynamic(_, index, first, second) => put_call(out, index, first, second),
        Instr::MultiArray(_, index, dimensions) => put_dimensions(out, index, dimensions),
        Instr::TableSwitch(_, other, low, high, distances) => {
            put_table(out, pc, other, low, high, distances)
        }
        Instr::LookupSwitch(_, other, pairs) => put_pairs(out, pc, other, pairs),
        _ => Ok(()),
    }
}

// The operands of an instruction at a place.
fn put_operands(out: &mut Vec<u8>, pc: u32, instr: &Instr<'_>) -> Result<(), AllocError>
    ensures { OnOk result (out.new.items ≡ out.old.items ++ operands_text (replicate (padding pc) 0) (shown instr.now)) }
{
    match *instr {
        Instr::Plain(_) => Ok(()),
        Instr::Byte(_, value) => put_s1(out, value),
        Instr::Short(_, value) => put_s2(out, value),
        Instr::Constant(op, index) => put_index(out, op, index),
        Instr::Local(_, local) => put_u1(out, (local % 256) as u8),
        Instr::Iinc(_, local, amount) => put_iinc(out, local, amount),
        Instr::Wide(_, code, local) => put_wide(out, code, local),
        Instr::WideIinc(_, local, amount) => put_wide_iinc(out, local, amount),
        Instr::Branch(op, distance) => put_distance(out, op, distance),
        Instr::Member(_, index) => put_u2(out, index),
        Instr::ClassOf(_, index) => put_u2(out, index),
        Instr::NewArray(_, code) => put_u1(out, code),
        _ => put_longer(out, pc, instr),
    }
}

pub(crate) fn opcode_of(instr: &Instr<'_>) -> u8
    ensures { result ≡ opcode (shown instr.now) }
{
    match instr {
        Instr::Plain(op) => *op,
        Instr::Byte(op, _) => *op,
        Instr::Short(op, _) => *op,
        Instr::Constant(op, _) => *op,
        Instr::Local(op, _) => *op,
        Instr::Iinc(op, _, _) => *op,
        Instr::Wide(op, _, _) => *op,
        Instr::WideIinc(op, _, _) => *op,
        Instr::Branch(op, _) => *op,
        Instr::Member(op, _) => *op,
        Instr::Interface(op, _, _, _) => *op,
        Instr::Dynamic(op, _, _, _) => *op,
        Instr::ClassOf(op, _) => *op,
        Instr::NewArray(op, _) => *op,
        Instr::MultiArray(op, _, _) => *op,
        Instr::TableSwitch(op, _, _, _, _) => *op,
        Instr::LookupSwitch(op, _, _) => *op,
    }
}

/// Appends the bytes of an instruction that stands at the place `pc` of a code (JVMS 6.5), the padding of a switch
/// being 0. Of an operand that is too large for its place the low bytes are put; no bytes decode to such an instruction.
///
/// `Memory` comes only where memory runs out; a front of the bytes may then be appended.
pub fn write(instr: &Instr<'_>, pc: u32, out: &mut Vec<u8>) -> Result<(), Memory>
    ensures text { OnOk result (out.new.items ≡ out.old.items ++ text_of pc (shown instr.now)) }
    ensures again { OnOk result (length out.old.items ≡ pc → DecodesAgain (shown instr.now) out.old.items out.new.items) }
{
    out.push(opcode_of(instr))?;
    put_operands(out, pc, instr)?;
    Ok(())
}
