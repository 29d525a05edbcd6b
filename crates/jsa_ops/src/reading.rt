//! Reads the instruction at a place of a code.
ghost use Rattle.std.specs.Prelude.{◌≡◌, ◌<◌, ◌↔◌, length, drop, true, Result, Err, Some, None, MatchOption, ℕ, IfOk, ◌≤◌};
ghost use Rattle.jsa_base.specs.Reading.{u1_at, u2_at, bytes_at, pair_at};
ghost use Rattle.jsa_ops.specs.Instruction as shape;
ghost use Rattle.jsa_ops.specs.Instruction.{Instruction, shown};
ghost use Rattle.jsa_ops.specs.Opcodes.{form_of as form_at};
ghost use Rattle.jsa_ops.specs.declared.fault.OpFault.{OpFault as Fault};
ghost use Rattle.jsa_ops.specs.Spelling.{padding as padding_at};
ghost use Rattle.jsa_ops.specs.Places.{Answers, IsCut};
ghost use Rattle.jsa_ops.specs.declared.fault.OpFault.TheVariants.{Cut};
ghost use Rattle.jsa_ops.specs.Reading.{Gives, of_part, shown_at, decoded, is_longer_form, named_as, two_as, call_as, s1_at, s2_at, s4_at, wide_at, widened, distances_at, range_at, pairs_at, count_at, table_switch_at, lookup_switch_at, iinc_at, call_at, dimensions_at, operands_at, behind, instruction_at};

use crate::fault::OpFault;
use crate::form::{Form, form_of};
use crate::instr::Instr;
use crate::keys::ascend;
use jsa_base::Cursor;

// ---- numbers

fn s2(cursor: &mut Cursor<'_>) -> Option<i16>
    ensures { MatchOption result (s2_at cursor.old ≡ None) (λ n. s2_at cursor.old ≡ Some (n, cursor.new)) }
{
    let Some(half) = cursor.u2() else {
        return None;
    };
    Some(half.cast_signed())
}

fn s4(cursor: &mut Cursor<'_>) -> Option<i32>
    ensures { MatchOption result (s4_at cursor.old ≡ None) (λ n. s4_at cursor.old ≡ Some (n, cursor.new)) }
{
    let Some(number) = cursor.u4() else {
        return None;
    };
    Some(number.cast_signed())
}

// ---- operands of several parts

// The default distance, low and high.
fn range(cursor: &mut Cursor<'_>) -> Option<(i32, i32, i32)>
    ensures { MatchOption result (range_at cursor.old ≡ None) (λ p. range_at cursor.old ≡ Some ((p.0, (p.1, p.2)), cursor.new)) }
{
    let Some(other) = s4(cursor) else {
        return None;
    };
    let Some(low) = s4(cursor) else {
        return None;
    };
    let Some(high) = s4(cursor) else {
        return None;
    };
    Some((other, low, high))
}

// The default distance and the number of pairs.
fn count(cursor: &mut Cursor<'_>) -> Option<(i32, u32)>
    ensures { MatchOption result (count_at cursor.old ≡ None) (λ p. count_at cursor.old ≡ Some (p, cursor.new)) }
{
    let Some(other) = s4(cursor) else {
        return None;
    };
    let Some(count) = cursor.u4() else {
        return None;
    };
    Some((other, count))
}

// A pool index and two more bytes.
fn call(cursor: &mut Cursor<'_>) -> Option<(u16, u8, u8)>
    ensures { MatchOption result (call_at cursor.old ≡ None) (λ p. call_at cursor.old ≡ Some ((p.0, (p.1, p.2)), cursor.new)) }
{
    let Some(index) = cursor.u2() else {
        return None;
    };
    let Some(first) = cursor.u1() else {
        return None;
    };
    let Some(second) = cursor.u1() else {
        return None;
    };
    Some((index, first, second))
}

// ---- wide

fn wide_local<'a>(cursor: &mut Cursor<'a>, op: u8, code: u8) -> Result<Instr<'a>, OpFault>
    ensures { Gives result cursor.new (of_part (shape.Wide op code) u2_at cursor.old) }
{
    let Some(local) = cursor.u2() else {
        return Err(OpFault::Cut);
    };
    Ok(Instr::Wide(op, code, local))
}

fn wide_iinc<'a>(cursor: &mut Cursor<'a>, op: u8) -> Result<Instr<'a>, OpFault>
    ensures { Gives result cursor.new (of_part (λ p. shape.WideIinc op p.0 p.1) (pair_at u2_at s2_at) cursor.old) }
{
    let Some(local) = cursor.u2() else {
        return Err(OpFault::Cut);
    };
    let Some(amount) = s2(cursor) else {
        return Err(OpFault::Cut);
    };
    Ok(Instr::WideIinc(op, local, amount))
}

// What stands behind wide and the opcode after it.
#[tactic(auto, unfolding(crate::specs::Reading::widened))]
fn wide_operands<'a>(cursor: &mut Cursor<'a>, op: u8, code: u8) -> Result<Instr<'a>, OpFault>
    ensures { Gives result cursor.new (widened op code (form_at code) cursor.old) }
{
    match form_of(code) {
        Some(Form::Local) => wide_local(cursor, op, code),
        Some(Form::Iinc) => wide_iinc(cursor, op),
        _ => Err(OpFault::BadOpcode(code)),
    }
}

#[tactic(auto, unfolding(crate::specs::Reading::wide_at))]
fn wide<'a>(cursor: &mut Cursor<'a>, op: u8) -> Result<Instr<'a>, OpFault>
    ensures { Gives result cursor.new (wide_at op cursor.old) }
{
    let Some(code) = cursor.u1() else {
        return Err(OpFault::Cut);
    };
    wide_operands(cursor, op, code)
}

// ---- the switches

// The bytes up to the next multiple of four from the start of the code, which may be any.
fn padding<'a>(cursor: &mut Cursor<'a>, pc: u32) -> Option<&'a [u8]>
    ensures { MatchOption result (bytes_at (padding_at pc) cursor.old ≡ None) (λ b. bytes_at (padding_at pc) cursor.old ≡ Some (b.now, cursor.new)) }
{
    cursor.bytes(3 - pc as usize % 4)
}

// The distances of a table, one for each number from low to high. Their bytes are counted in 64 bits.
#[tactic(auto, unfolding(crate::specs::Reading::distances_at))]
fn distances<'a>(
    cursor: &mut Cursor<'a>,
    op: u8,
    other: i32,
    low: i32,
    high: i32,
) -> Result<Instr<'a>, OpFault>
    ensures { Gives result cursor.new (distances_at op other low high cursor.old) }
{
    if high < low {
        return Err(OpFault::BadOperand);
    }
    let count = high.abs_diff(low) as usize + 1;
    let Some(distances) = cursor.bytes(4 * count) else {
        return Err(OpFault::Cut);
    };
    Ok(Instr::TableSwitch(op, other, low, high, distances))
}

// The pairs of a lookup. A count from 2^31 on is a negative one.
#[tactic(auto, unfolding(crate::specs::Reading::pairs_at))]
fn pairs<'a>(cursor: &mut Cursor<'a>, op: u8, other: i32, count: u32) -> Result<Instr<'a>, OpFault>
    ensures { Gives result cursor.new (pairs_at op other count cursor.old) }
{
    if 0x8000_0000 <= count {
        return Err(OpFault::BadOperand);
    }
    let Some(pairs) = cursor.bytes(8 * count as usize) else {
        return Err(OpFault::Cut);
    };
    if ascend(pairs) {
        Ok(Instr::LookupSwitch(op, other, pairs))
    } else {
        Err(OpFault::BadOperand)
    }
}

#[tactic(auto, unfolding(crate::specs::Reading::table_switch_at))]
fn table_switch<'a>(cursor: &mut Cursor<'a>, pc: u32, op: u8) -> Result<Instr<'a>, OpFault>
    ensures { Gives result cursor.new (table_switch_at op pc cursor.old) }
{
    let Some(_padding) = padding(cursor, pc) else {
        return Err(OpFault::Cut);
    };
    let Some((other, low, high)) = range(cursor) else {
        return Err(OpFault::Cut);
    };
    distances(cursor, op, other, low, high)
}

#[tactic(auto, unfolding(crate::specs::Reading::lookup_switch_at))]
fn lookup_switch<'a>(cursor: &mut Cursor<'a>, pc: u32, op: u8) -> Result<Instr<'a>, OpFault>
    ensures { Gives result cursor.new (lookup_switch_at op pc cursor.old) }
{
    let Some(_padding) = padding(cursor, pc) else {
        return Err(OpFault::Cut);
    };
    let Some((other, count)) = count(cursor) else {
        return Err(OpFault::Cut);
    };
    pairs(cursor, op, other, count)
}

// ---- each form

fn byte<'a>(cursor: &mut Cursor<'a>, op: u8) -> Result<Instr<'a>, OpFault>
    ensures { Gives result cursor.new (of_part (shape.Byte op) s1_at cursor.old) }
{
    let Some(number) = cursor.u1() else {
        return Err(OpFault::Cut);
    };
    Ok(Instr::Byte(op, number.cast_signed()))
}

// sipush, or a branch by two bytes.
fn of_two<'a>(cursor: &mut Cursor<'a>, op: u8, is_branch: bool) -> Result<Instr<'a>, OpFault>
    ensures { Gives result cursor.new (of_part (two_as op is_branch) s2_at cursor.old) }
{
    let Some(number) = s2(cursor) else {
        return Err(OpFault::Cut);
    };
    if is_branch {
        Ok(Instr::Branch(op, i32::from(number)))
    } else {
        Ok(Instr::Short(op, number))
    }
}

fn far_branch<'a>(cursor: &mut Cursor<'a>, op: u8) -> Result<Instr<'a>, OpFault>
    ensures { Gives result cursor.new (of_part (shape.Branch op) s4_at cursor.old) }
{
    let Some(distance) = s4(cursor) else {
        return Err(OpFault::Cut);
    };
    Ok(Instr::Branch(op, distance))
}

/// What an instruction of one index or local is.
#[derive(Clone, Copy)]
pub(crate) enum Named {
    Constant,
    Local,
    Member,
    ClassOf,
}

fn with_index<'a>(op: u8, what: Named, index: u16) -> Instr<'a>
    ensures { shown result ≡ named_as op what index }
{
    match what {
        Named::Constant => Instr::Constant(op, index),
        Named::Local => Instr::Local(op, index),
        Named::Member => Instr::Member(op, index),
        Named::ClassOf => Instr::ClassOf(op, index),
    }
}

// With an index or a local of one byte.
fn near<'a>(cursor: &mut Cursor<'a>, op: u8, what: Named) -> Result<Instr<'a>, OpFault>
    ensures { Gives result cursor.new (of_part (named_as op what) u1_at cursor.old) }
{
    let Some(index) = cursor.u1() else {
        return Err(OpFault::Cut);
    };
    Ok(with_index(op, what, u16::from(index)))
}

// With an index of two bytes.
fn far<'a>(cursor: &mut Cursor<'a>, op: u8, what: Named) -> Result<Instr<'a>, OpFault>
    ensures { Gives result cursor.new (of_part (named_as op what) u2_at cursor.old) }
{
    let Some(index) = cursor.u2() else {
        return Err(OpFault::Cut);
    };
    Ok(with_index(op, what, index))
}

fn new_array<'a>(cursor: &mut Cursor<'a>, op: u8) -> Result<Instr<'a>, OpFault>
    ensures { Gives result cursor.new (of_part (shape.NewArray op) u1_at cursor.old) }
{
    let Some(code) = cursor.u1() else {
        return Err(OpFault::Cut);
    };
    Ok(Instr::NewArray(op, code))
}

fn iinc<'a>(cursor: &mut Cursor<'a>, op: u8) -> Result<Instr<'a>, OpFault>
    ensures { Gives result cursor.new (of_part (λ p. shape.Iinc op p.0 p.1) iinc_at cursor.old) }
{
    let Some(local) = cursor.u1() else {
        return Err(OpFault::Cut);
    };
    let Some(amount) = cursor.u1() else {
        return Err(OpFault::Cut);
    };
    Ok(Instr::Iinc(op, u16::from(local), i16::from(amount.cast_signed())))
}

fn multi_array<'a>(cursor: &mut Cursor<'a>, op: u8) -> Result<Instr<'a>, OpFault>
    ensures { Gives result cursor.new (of_part (λ p. shape.MultiArray op p.0 p.1) dimensions_at cursor.old) }
{
    let Some(index) = cursor.u2() else {
        return Err(OpFault::Cut);
    };
    let Some(dimensions) = cursor.u1() else {
        return Err(OpFault::Cut);
    };
    Ok(Instr::MultiArray(op, index, dimensions))
}

// invokeinterface or invokedynamic.
fn of_call<'a>(cursor: &mut Cursor<'a>, op: u8, is_dynamic: bool) -> Result<Instr<'a>, OpFault>
    ensures { Gives result cursor.new (of_part (call_as op is_dynamic) call_at cursor.old) }
{
    let Some((index, first, second)) = call(cursor) else {
        return Err(OpFault::Cut);
    };
    if is_dynamic {
        Ok(Instr::Dynamic(op, index, first, second))
    } else {
        Ok(Instr::Interface(op, index, first, second))
    }
}

// The operands of a switch or of wide, of more than one length.
#[tactic(auto, unfolding(crate::specs::Reading::operands_at))]
fn longer<'a>(cursor: &mut Cursor<'a>, pc: u32, op: u8, form: Form) -> Result<Instr<'a>, OpFault>
    ensures { is_longer_form form ≡ true → Gives result cursor.new (operands_at pc op form cursor.old) }
{
    match form {
        Form::TableSwitch => table_switch(cursor, pc, op),
        Form::LookupSwitch => lookup_switch(cursor, pc, op),
        Form::Wide => wide(cursor, op),
        _ => Err(OpFault::Cut),
    }
}

#[tactic(auto, unfolding(crate::specs::Reading::operands_at))]
fn operands<'a>(cursor: &mut Cursor<'a>, pc: u32, op: u8, form: Form) -> Result<Instr<'a>, OpFault>
    ensures { Gives result cursor.new (operands_at pc op form cursor.old) }
{
    match form {
        Form::Plain => Ok(Instr::Plain(op)),
        Form::Byte => byte(cursor, op),
        Form::Short => of_two(cursor, op, false),
        Form::NearConstant => near(cursor, op, Named::Constant),
        Form::Constant => far(cursor, op, Named::Constant),
        Form::Local => near(cursor, op, Named::Local),
        Form::Iinc => iinc(cursor, op),
        Form::Branch => of_two(cursor, op, true),
        Form::FarBranch => far_branch(cursor, op),
        Form::Member => far(cursor, op, Named::Member),
        Form::Interface => of_call(cursor, op, false),
        Form::Dynamic => of_call(cursor, op, true),
        Form::ClassOf => far(cursor, op, Named::ClassOf),
        Form::NewArray => new_array(cursor, op),
        Form::MultiArray => multi_array(cursor, op),
        _ => longer(cursor, pc, op, form),
    }
}

#[tactic(auto, unfolding(crate::specs::Reading::behind))]
fn behind_opcode<'a>(cursor: &mut Cursor<'a>, pc: u32, op: u8) -> Result<Instr<'a>, OpFault>
    ensures { Gives result cursor.new (behind pc op (form_at op) cursor.old) }
{
    match form_of(op) {
        Some(form) => operands(cursor, pc, op, form),
        None => Err(OpFault::BadOpcode(op)),
    }
}

// The instruction in front of the cursor, which stands at a place of the code.
#[tactic(auto, unfolding(crate::specs::Reading::instruction_at))]
fn instruction<'a>(cursor: &mut Cursor<'a>, pc: u32) -> Result<Instr<'a>, OpFault>
    ensures { Gives result cursor.new (instruction_at pc cursor.old) }
{
    let Some(op) = cursor.u1() else {
        return Err(OpFault::Cut);
    };
    behind_opcode(cursor, pc, op)
}

/// The instruction at the place `pc` of a method's code (JVMS 4.9.1, 6.5), and the next place: both count bytes from
/// the start of the code.
///
/// `BadOpcode` comes exactly where the byte there, or the one behind wide, names no instruction there; `Cut` exactly
/// where the operands pass the end of the code; `BadOperand` exactly where a tableswitch has low above high, or a
/// lookupswitch a negative count or keys that don't ascend strictly. What a list claims is tested against the end
/// before its keys are, so that a claim past the end is answered without a walk. Padding may be any bytes. No memory is
/// taken.
pub fn decode<'a>(code: &'a [u8], pc: u32) -> Result<(Instr<'a>, u32), OpFault>
    requires inside { pc < length code.now }
    requires short { length code.now < 65536 }
    ensures answers { (answer : Result (Instruction × ℕ) Fault) → (shown_at result ≡ answer) ↔ Answers code.now pc answer }
    ensures cut { (shown_at result ≡ Err Cut) ↔ IsCut pc (drop pc code.now) }
    ensures decoded { shown_at result ≡ decoded code.now pc }
    ensures next { IfOk result (λ x. (pc < x.1) × (x.1 ≤ length code.now)) }
{
    let mut cursor = Cursor::new(&code[pc as usize..]);
    let instr = instruction(&mut cursor, pc)?;
    Ok((instr, code.len().saturating_sub(cursor.left()) as u32))
}
