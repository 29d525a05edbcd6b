//! The typing row of each instruction (JVMS 4.10.1.9).
ghost use Rattle.jsa_ops.specs.Instruction.{shown};
ghost use Rattle.verify_rules.specs.Asking.{Did};
ghost use Rattle.verify_rules.specs.Rows as rows;

use crate::arrays::{arrays_made, primitive_array_made};
use crate::calls::{dynamic_row, interface_row, static_row, virtual_row};
use crate::constructors::special_row;
use crate::env::Env;
use crate::fields::field_row;
use crate::letters::letter_of;
use crate::locals::counted;
use crate::objects::constant_put;
use crate::returns::{plain_return_row, return_row, thrown};
use crate::silent_rows::{branch_row, class_row, int_put, int_taken, local_row, silent_row};
use jsa_ops::Instr;
use sqlite_items::Items;
use std::alloc::Global;
use verify_rules::{Ask, Frame, Stop};

// An opcode without operands.
#[tactic(auto, unfolding(verify_rules::specs::Rows::plain_row))]
fn plain_row(
    alloc: Global,
    asks: &mut Items<Ask>,
    e: &Env<'_>,
    op: u8,
    frame: &mut Frame,
) -> Result<(), Stop>
    ensures { Did (rows.plain_row e.now op frame.old) asks.old asks.new result frame.new }
{
    if op <= 0x98 {
        return silent_row(alloc, e.code.stack, op, frame);
    }
    if op <= 0xb0 {
        return return_row(
            alloc,
            asks,
            e,
            letter_of(op.saturating_sub(0xac)),
            &mut frame.stack,
        );
    }
    if op == 0xb1 {
        return plain_return_row(e, frame);
    }
    if op == 0xbf {
        return thrown(alloc, asks, &mut frame.stack);
    }
    silent_row(alloc, e.code.stack, op, frame)
}

// A field instruction, or a call with an index alone.
#[tactic(auto, unfolding(verify_rules::specs::Rows::member_row))]
fn member_row(
    alloc: Global,
    asks: &mut Items<Ask>,
    e: &Env<'_>,
    op: u8,
    k: u16,
    frame: &mut Frame,
) -> Result<(), Stop>
    ensures { Did (rows.member_row e.now op k frame.old) asks.old asks.new result frame.new }
{
    if op <= 0xb5 {
        return field_row(alloc, asks, e, op, k, &mut frame.stack);
    }
    if op == 0xb6 {
        return virtual_row(alloc, asks, e, k, &mut frame.stack);
    }
    if op == 0xb7 {
        return special_row(alloc, asks, e, k, frame);
    }
    static_row(alloc, asks, e, k, &mut frame.stack)
}

/// The row of an instruction at a place of the code: what it asks, and what it makes of the frame.
#[tactic(auto, unfolding(verify_rules::specs::Rows::row))]
pub(crate) fn row(
    alloc: Global,
    asks: &mut Items<Ask>,
    e: &Env<'_>,
    place: u32,
    instr: Instr<'_>,
    frame: &mut Frame,
) -> Result<(), Stop>
    ensures { Did (rows.row e.now place (shown instr.entry) frame.old) asks.old asks.new result frame.new }
{
    match instr {
        Instr::Plain(op) => plain_row(alloc, asks, e, op, frame),
        Instr::Byte(_, _) => int_put(e.code.stack, frame),
        Instr::Short(_, _) => int_put(e.code.stack, frame),
        Instr::Constant(op, k) => constant_put(
            alloc,
            e.code.stack,
            &e.tree.pool,
            op,
            k,
            &mut frame.stack,
        ),
        Instr::Local(op, k) => local_row(alloc, e.code.stack, op, k, frame),
        Instr::Iinc(_, k, _) => counted(k, frame),
        Instr::Wide(_, code, k) => local_row(alloc, e.code.stack, code, k, frame),
        Instr::WideIinc(_, k, _) => counted(k, frame),
        Instr::Branch(op, _) => branch_row(op, &mut frame.stack),
        Instr::Member(op, k) => member_row(alloc, asks, e, op, k, frame),
        Instr::Interface(_, k, count, last) => interface_row(
            alloc,
            asks,
            e,
            k,
            count,
            last,
            &mut frame.stack,
        ),
        Instr::Dynamic(_, k, first, second) => dynamic_row(
            alloc,
            asks,
            e,
            k,
            first,
            second,
            &mut frame.stack,
        ),
        Instr::ClassOf(op, k) => class_row(alloc, e, place, op, k, frame),
        Instr::NewArray(_, code) => primitive_array_made(
            alloc,
            e.code.stack,
            code,
            &mut frame.stack,
        ),
        Instr::MultiArray(_, k, count) => arrays_made(
            alloc,
            e.code.stack,
            e.tree.pool.class_name(k),
            count,
            &mut frame.stack,
        ),
        Instr::TableSwitch(_, _, _, _, _) => int_taken(frame),
        Instr::LookupSwitch(_, _, _) => int_taken(frame),
    }
}
