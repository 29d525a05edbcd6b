//! Lines of instructions.
ghost use Rattle.std.specs.Prelude.{◌≡◌, ◌<◌, length, IfOk, Some};
ghost use Rattle.class_tree.specs.WellFormed as well_formed;
ghost use Rattle.jsa_ops.specs.Opcodes as opcodes;
ghost use Rattle.asm_text.specs.Outcome.{Yields};
ghost use Rattle.asm_text.specs.Numbers.{natural, integer};
ghost use Rattle.asm_text.specs.Operations.{plain_operands, byte_operands, short_operands, local_operands, iinc_operands, branch_operands, class_operands, new_array_operands, multi_array_operands, kind_of, member_operands, interface_operands, number_or_text, class_constant, constant_of, long_of, loaded, load_operands, last_fits, table_operands, case_of, first_case, cases_of, lookup_operands, operands, operation_of};

use crate::fault::LineFault;
use crate::mnemonics::instruction_of;
use crate::numbers::{integer, natural};
use crate::statement::{Constant, MemberKind, Operation, SwitchCase};
use crate::words::{
    are_words, copies, copy, int_constant, is_operand_word, is_word, long_constant, member_name,
    text_constant,
};
use jsa_names::method_type;
use jsa_ops::{Form, form_of};
use sqlite_items::Items;
use std::alloc::Global;

// ---- one operand, or a fixed number of them

pub(crate) fn number_of_two(token: &[u8]) -> Result<u16, LineFault>
    ensures { Yields (λ n. n) result (natural 65535 token.now) }
{
    let Some(n) = natural(65535, token) else {
        return Err(LineFault::Outside);
    };
    Ok(n as u16)
}

fn number_of_one(token: &[u8]) -> Result<u8, LineFault>
    ensures { Yields (λ n. n) result (natural 255 token.now) }
{
    let Some(n) = natural(255, token) else {
        return Err(LineFault::Outside);
    };
    Ok(n as u8)
}

fn signed_of_one(token: &[u8]) -> Result<i8, LineFault>
    ensures { Yields (λ z. z) result (integer 0x80 0x7F token.now) }
{
    let Some(z) = integer(0x80, 0x7F, token) else {
        return Err(LineFault::Outside);
    };
    Ok(z as i8)
}

fn signed_of_two(token: &[u8]) -> Result<i16, LineFault>
    ensures { Yields (λ z. z) result (integer 0x8000 0x7FFF token.now) }
{
    let Some(z) = integer(0x8000, 0x7FFF, token) else {
        return Err(LineFault::Outside);
    };
    Ok(z as i16)
}

fn signed_of_four(token: &[u8]) -> Result<i32, LineFault>
    ensures { Yields (λ z. z) result (integer 0x8000_0000 0x7FFF_FFFF token.now) }
{
    let Some(z) = integer(0x8000_0000, 0x7FFF_FFFF, token) else {
        return Err(LineFault::Outside);
    };
    Ok(z as i32)
}

fn plain_operands(op: u8, rest: &[Items<u8>]) -> Result<Operation, LineFault>
    ensures { Yields (λ o. o) result (plain_operands op rest.now) }
{
    let [] = rest else {
        return Err(LineFault::Outside);
    };
    Ok(Operation::Plain(op))
}

fn byte_operands(op: u8, rest: &[Items<u8>]) -> Result<Operation, LineFault>
    ensures { Yields (λ o. o) result (byte_operands op rest.now) }
{
    let [n] = rest else {
        return Err(LineFault::Outside);
    };
    let value = signed_of_one(n.as_slice())?;
    Ok(Operation::Byte(op, value))
}

fn short_operands(op: u8, rest: &[Items<u8>]) -> Result<Operation, LineFault>
    ensures { Yields (λ o. o) result (short_operands op rest.now) }
{
    let [n] = rest else {
        return Err(LineFault::Outside);
    };
    let value = signed_of_two(n.as_slice())?;
    Ok(Operation::Short(op, value))
}

fn local_operands(op: u8, rest: &[Items<u8>]) -> Result<Operation, LineFault>
    ensures { Yields (λ o. o) result (local_operands op rest.now) }
{
    let [n] = rest else {
        return Err(LineFault::Outside);
    };
    let local = number_of_two(n.as_slice())?;
    Ok(Operation::Local(op, local))
}

fn iinc_operands(op: u8, rest: &[Items<u8>]) -> Result<Operation, LineFault>
    ensures { Yields (λ o. o) result (iinc_operands op rest.now) }
{
    let [n, amount] = rest else {
        return Err(LineFault::Outside);
    };
    let local = number_of_two(n.as_slice())?;
    let by = signed_of_two(amount.as_slice())?;
    Ok(Operation::Iinc(op, local, by))
}

fn branch_operands(alloc: Global, op: u8, rest: &[Items<u8>]) -> Result<Operation, LineFault>
    ensures { Yields (λ o. o) result (branch_operands op rest.now) }
{
    let [label] = rest else {
        return Err(LineFault::Outside);
    };
    if !is_word(label.as_slice()) {
        return Err(LineFault::Outside);
    }
    let label = copy(alloc, label)?;
    Ok(Operation::Branch(op, label))
}

fn class_operands(alloc: Global, op: u8, rest: &[Items<u8>]) -> Result<Operation, LineFault>
    ensures { Yields (λ o. o) result (class_operands op rest.now) }
{
    let [class] = rest else {
        return Err(LineFault::Outside);
    };
    if !is_operand_word(class.as_slice()) {
        return Err(LineFault::Outside);
    }
    let class = copy(alloc, class)?;
    Ok(Operation::ClassOf(op, class))
}

fn new_array_operands(op: u8, rest: &[Items<u8>]) -> Result<Operation, LineFault>
    ensures { Yields (λ o. o) result (new_array_operands op rest.now) }
{
    let [n] = rest else {
        return Err(LineFault::Outside);
    };
    let code = number_of_one(n.as_slice())?;
    Ok(Operation::NewArray(op, code))
}

fn multi_array_operands(alloc: Global, op: u8, rest: &[Items<u8>]) -> Result<Operation, LineFault>
    ensures { Yields (λ o. o) result (multi_array_operands op rest.now) }
{
    let [class, n] = rest else {
        return Err(LineFault::Outside);
    };
    if !is_operand_word(class.as_slice()) {
        return Err(LineFault::Outside);
    }
    let dimensions = number_of_one(n.as_slice())?;
    let class = copy(alloc, class)?;
    Ok(Operation::MultiArray(op, class, dimensions))
}

// ---- members

fn kind_of(op: u8, of_interface: bool) -> MemberKind
    ensures { result ≡ kind_of op of_interface }
{
    if of_interface {
        MemberKind::InterfaceMethod
    } else if op <= 0xb5 {
        MemberKind::Field
    } else {
        MemberKind::Method
    }
}

fn member_operands(
    alloc: Global,
    op: u8,
    of_interface: bool,
    rest: &[Items<u8>],
) -> Result<Operation, LineFault>
    ensures { Yields (λ o. o) result (member_operands op of_interface rest.now) }
{
    let [class, name, desc] = rest else {
        return Err(LineFault::Outside);
    };
    let kind = kind_of(op, of_interface);
    let member = member_name(alloc, kind, class, name, desc)?;
    Ok(Operation::Member(op, kind, member))
}

fn parameter_slots(desc: &[u8]) -> Option<u8>
    ensures { result ≡ well_formed.parameter_slots (Some desc.now) }
{
    match method_type(desc) {
        Some(method) => Some(method.slots() as u8),
        None => None,
    }
}

fn interface_operands(alloc: Global, op: u8, rest: &[Items<u8>]) -> Result<Operation, LineFault>
    ensures { Yields (λ o. o) result (interface_operands op rest.now) }
{
    let [class, name, desc] = rest else {
        return Err(LineFault::Outside);
    };
    let member = member_name(alloc, MemberKind::InterfaceMethod, class, name, desc)?;
    let Some(slots) = parameter_slots(desc.as_slice()) else {
        return Err(LineFault::Outside);
    };
    if slots == 255 {
        return Err(LineFault::Outside);
    }
    Ok(Operation::Interface(op, member, slots + 1))
}

// ---- constants

fn number_or_text(alloc: Global, token: &[u8]) -> Result<Constant, LineFault>
    ensures { Yields (λ k. k) result (number_or_text token.now) }
{
    if is_word(token) {
        int_constant(token)
    } else {
        text_constant(alloc, token)
    }
}

fn class_constant(alloc: Global, word: &[u8], name: &Items<u8>) -> Result<Constant, LineFault>
    ensures { Yields (λ k. k) result (class_constant word.now name.now) }
{
    if !(word == b"class".as_slice() && is_operand_word(name.as_slice())) {
        return Err(LineFault::Outside);
    }
    let name = copy(alloc, name)?;
    Ok(Constant::Class(name))
}

// The operands of ldc and ldc_w.
fn constant_of(alloc: Global, rest: &[Items<u8>]) -> Result<Constant, LineFault>
    ensures { Yields (λ k. k) result (constant_of rest.now) }
{
    let [first, more @ ..] = rest else {
        return Err(LineFault::Outside);
    };
    let [second, more @ ..] = more else {
        return number_or_text(alloc, first.as_slice());
    };
    let [] = more else {
        return Err(LineFault::Outside);
    };
    class_constant(alloc, first.as_slice(), second)
}

// The operand of ldc2_w.
fn long_of(rest: &[Items<u8>]) -> Result<Constant, LineFault>
    ensures { Yields (λ k. k) result (long_of rest.now) }
{
    let [n] = rest else {
        return Err(LineFault::Outside);
    };
    long_constant(n.as_slice())
}

fn loaded(alloc: Global, op: u8, rest: &[Items<u8>]) -> Result<Constant, LineFault>
    ensures { Yields (λ k. k) result (loaded op rest.now) }
{
    if op == 0x14 {
        long_of(rest)
    } else {
        constant_of(alloc, rest)
    }
}

fn load_operands(alloc: Global, op: u8, rest: &[Items<u8>]) -> Result<Operation, LineFault>
    ensures { Yields (λ o. o) result (load_operands op rest.now) }
{
    let constant = loaded(alloc, op, rest)?;
    Ok(Operation::Load(op, constant))
}

// ---- switches

// Whether the last key is a number of four bytes, where so many labels stand behind the first.
fn last_fits(low: i32, more: usize) -> bool
    ensures { result ≡ last_fits low more }
{
    more < (0x8000_0000 - i64::from(low)) as usize
}

fn table_operands(alloc: Global, op: u8, rest: &[Items<u8>]) -> Result<Operation, LineFault>
    ensures { Yields (λ o. o) result (table_operands op rest.now) }
{
    let [low, other, targets @ ..] = rest else {
        return Err(LineFault::Outside);
    };
    let [_, more @ ..] = targets else {
        return Err(LineFault::Outside);
    };
    let low = signed_of_four(low.as_slice())?;
    if !(is_word(other.as_slice()) && are_words(targets) && last_fits(low, more.len())) {
        return Err(LineFault::Outside);
    }
    let other = copy(alloc, other)?;
    let targets = copies(alloc, targets)?;
    Ok(Operation::TableSwitch(op, low, other, targets))
}

fn case_of(alloc: Global, key: &[u8], label: &Items<u8>) -> Result<SwitchCase, LineFault>
    ensures { Yields (λ c. c) result (case_of key.now label.now) }
{
    let key = signed_of_four(key)?;
    if !is_word(label.as_slice()) {
        return Err(LineFault::Outside);
    }
    let label = copy(alloc, label)?;
    Ok(SwitchCase { key, label })
}

// The first case, and what is behind it.
fn first_case<'a>(
    alloc: Global,
    rest: &'a [Items<u8>],
) -> Result<(SwitchCase, &'a [Items<u8>]), LineFault>
    ensures value { Yields (λ x. (x.0, x.1.now)) result (first_case rest.now) }
    ensures shorter { IfOk result (λ x. length x.1.now < length rest.now) }
{
    let [key, label, behind @ ..] = rest else {
        return Err(LineFault::Outside);
    };
    let case = case_of(alloc, key.as_slice(), label)?;
    Ok((case, behind))
}

fn cases_of(alloc: Global, rest: &[Items<u8>]) -> Result<Items<SwitchCase>, LineFault>
    ensures { Yields (λ cs. cs) result (cases_of rest.now) }
{
    let mut cases = Items::new(alloc);
    let mut rest = rest;
    while rest.len() != 0 {
        let (case, behind) = first_case(alloc, rest)?;
        cases.push(case)?;
        rest = behind;
    }
    Ok(cases)
}

fn lookup_operands(alloc: Global, op: u8, rest: &[Items<u8>]) -> Result<Operation, LineFault>
    ensures { Yields (λ o. o) result (lookup_operands op rest.now) }
{
    let [other, rest @ ..] = rest else {
        return Err(LineFault::Outside);
    };
    if !is_word(other.as_slice()) {
        return Err(LineFault::Outside);
    }
    let cases = cases_of(alloc, rest)?;
    let other = copy(alloc, other)?;
    Ok(Operation::LookupSwitch(op, other, cases))
}

// ---- all forms

#[tactic(auto, unfolding(crate::specs::Operations::operands))]
fn operands_by(
    alloc: Global,
    op: u8,
    of_interface: bool,
    form: Form,
    rest: &[Items<u8>],
) -> Result<Operation, LineFault>
    ensures { Yields (λ o. o) result (operands op of_interface (Some form) rest.now) }
{
    match form {
        Form::Plain => plain_operands(op, rest),
        Form::Byte => byte_operands(op, rest),
        Form::Short => short_operands(op, rest),
        Form::NearConstant => load_operands(alloc, op, rest),
        Form::Constant => load_operands(alloc, op, rest),
        Form::Local => local_operands(op, rest),
        Form::Iinc => iinc_operands(op, rest),
        Form::Branch => branch_operands(alloc, op, rest),
        Form::FarBranch => branch_operands(alloc, op, rest),
        Form::Member => member_operands(alloc, op, of_interface, rest),
        Form::Interface => interface_operands(alloc, op, rest),
        Form::Dynamic => Err(LineFault::Outside),
        Form::ClassOf => class_operands(alloc, op, rest),
        Form::NewArray => new_array_operands(op, rest),
        Form::MultiArray => multi_array_operands(alloc, op, rest),
        Form::TableSwitch => table_operands(alloc, op, rest),
        Form::LookupSwitch => lookup_operands(alloc, op, rest),
        Form::Wide => Err(LineFault::Outside),
    }
}

#[tactic(auto, unfolding(crate::specs::Operations::operands))]
fn operands(
    alloc: Global,
    op: u8,
    of_interface: bool,
    rest: &[Items<u8>],
) -> Result<Operation, LineFault>
    ensures { Yields (λ o. o) result (operands op of_interface (opcodes.form_of op) rest.now) }
{
    match form_of(op) {
        Some(form) => operands_by(alloc, op, of_interface, form, rest),
        None => Err(LineFault::Outside),
    }
}

// MNEMONIC OPERAND ..
#[tactic(auto, unfolding(crate::specs::Operations::operation_of))]
pub(crate) fn operation_of(
    alloc: Global,
    word: &[u8],
    rest: &[Items<u8>],
) -> Result<Operation, LineFault>
    ensures { Yields (λ o. o) result (operation_of word.now rest.now) }
{
    let Some((op, of_interface)) = instruction_of(word) else {
        return Err(LineFault::Outside);
    };
    operands(alloc, op, of_interface, rest)
}
