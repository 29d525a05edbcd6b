//! The instructions that operations stand for.
ghost use Rattle.std.specs.Prelude.{◌≡◌, ◌≤◌, ◌<◌, ◌-◌, ◌^◌, Some};
ghost use Rattle.std.specs.Option.{option_map};
ghost use Rattle.jsa_ops.specs.Instruction.{shown, Constant, Branch, Member, Interface, ClassOf, MultiArray};
ghost use Rattle.jsa_ops.specs.Spelling.{text_of as text_at};
ghost use Rattle.asm_text.specs.Outcome.{Gives, Yields, Does};
ghost use Rattle.asm_text.specs.declared.statement.MemberKind.TheVariants.{InterfaceMethod};
ghost use Rattle.pool_builder.specs.Needs.{class_needed};
ghost use Rattle.class_asm.specs.Needs.{constant_needed, member_needed};
ghost use Rattle.class_asm.specs.Code as spec;

use crate::labels::{Labels, fits_byte, is_far, is_near};
use crate::needs::{class_index, constant_index, member_index};
use asm_text::{Constant, LineFault, MemberKind, MemberName, Operation, SwitchCase};
use jsa_base::put_s4;
use jsa_ops::Instr;
use pool_builder::PoolBuilder;
use sqlite_items::Items;
use std::alloc::Global;

// The bytes of an instruction at a place.
fn text_of(alloc: Global, place: u32, instr: &Instr<'_>) -> Result<Items<u8>, LineFault>
    ensures { Yields (λ t. t) result (Some (text_at place (shown instr.now))) }
{
    let mut text = Vec::new(alloc);
    match jsa_ops::write(instr, place, &mut text) {
        Ok(()) => Ok(Items::from_vec(text)),
        Err(_) => Err(LineFault::Memory),
    }
}

// The distance from a place to a label; half is half of how many numbers its field holds.
#[tactic(auto, unfolding(crate::specs::Code::distance_to))]
fn distance(half: u32, labels: &Labels, from: u32, name: &[u8]) -> Result<i32, LineFault>
    requires { half ≤ 2 ^ 31 }
    ensures { Yields (λ d. d) result (spec.distance_to half labels.now from name.now) }
{
    let Some(to) = labels.place(name) else {
        return Err(LineFault::Outside);
    };
    let distance = i64::from(to) - i64::from(from);
    if -i64::from(half) <= distance && distance < i64::from(half) {
        Ok(distance as i32)
    } else {
        Err(LineFault::Outside)
    }
}

fn far_distance(labels: &Labels, from: u32, name: &[u8]) -> Result<i32, LineFault>
    ensures { Yields (λ d. d) result (spec.far_to labels.now from name.now) }
{
    distance(0x8000_0000, labels, from, name)
}

// The bytes of the distances from a place to labels.
#[tactic(auto, unfolding(crate::specs::Code::distances_to))]
fn distances(
    alloc: Global,
    labels: &Labels,
    from: u32,
    names: &[Items<u8>],
) -> Result<Vec<u8>, LineFault>
    ensures { Yields (λ t. t.items) result (spec.distances_to labels.now from names.now) }
{
    let mut text = Vec::new(alloc);
    let mut rest = names;
    loop {
        let [name, more @ ..] = rest else {
            return Ok(text);
        };
        let distance = far_distance(labels, from, name.as_slice())?;
        put_s4(&mut text, distance)?;
        rest = more;
    }
}

// Puts a key and the distance from a place to its label.
fn put_case(
    text: &mut Vec<u8>,
    labels: &Labels,
    from: u32,
    case: &SwitchCase,
) -> Result<(), LineFault>
    ensures { Does result text.new.items (spec.with_case labels.now from case.now text.old.items) }
{
    let distance = far_distance(labels, from, case.label.as_slice())?;
    put_s4(text, case.key)?;
    put_s4(text, distance)?;
    Ok(())
}

// The bytes of keys with the distances from a place to their labels.
#[tactic(auto, unfolding(crate::specs::Code::pairs_to))]
fn pairs(
    alloc: Global,
    labels: &Labels,
    from: u32,
    cases: &[SwitchCase],
) -> Result<Vec<u8>, LineFault>
    ensures { Yields (λ t. t.items) result (spec.pairs_to labels.now from cases.now) }
{
    let mut text = Vec::new(alloc);
    let mut rest = cases;
    loop {
        let [case, more @ ..] = rest else {
            return Ok(text);
        };
        put_case(&mut text, labels, from, case)?;
        rest = more;
    }
}

// The highest key of a tableswitch with so many labels.
fn high_of(low: i32, n: usize) -> Result<i32, LineFault>
    ensures { Yields (λ h. h) result (spec.high_of low n) }
{
    let more = n.saturating_sub(1);
    if more >= 0x1_0000_0000 {
        return Err(LineFault::Outside);
    }
    let high = i64::from(low) + more as i64;
    if high >= 0x8000_0000 {
        return Err(LineFault::Outside);
    }
    Ok(high as i32)
}

fn emit_table(
    alloc: Global,
    labels: &Labels,
    place: u32,
    op: u8,
    low: i32,
    other: &Items<u8>,
    targets: &[Items<u8>],
) -> Result<Items<u8>, LineFault>
    ensures { Yields (λ t. t) result (option_map (text_at place) (spec.table_of labels.now place op low other.now targets.now)) }
{
    let high = high_of(low, targets.len())?;
    let other = far_distance(labels, place, other.as_slice())?;
    let distances = distances(alloc, labels, place, targets)?;
    let instr = Instr::TableSwitch(op, other, low, high, distances.as_slice());
    text_of(alloc, place, &instr)
}

fn emit_lookup(
    alloc: Global,
    labels: &Labels,
    place: u32,
    op: u8,
    other: &Items<u8>,
    cases: &[SwitchCase],
) -> Result<Items<u8>, LineFault>
    ensures { Yields (λ t. t) result (option_map (text_at place) (spec.lookup_of labels.now place op other.now cases.now)) }
{
    let other = far_distance(labels, place, other.as_slice())?;
    let pairs = pairs(alloc, labels, place, cases)?;
    let instr = Instr::LookupSwitch(op, other, pairs.as_slice());
    text_of(alloc, place, &instr)
}

fn reach(op: u8) -> u32
    ensures { result ≡ spec.reach op }
{
    if is_far(op) { 0x8000_0000 } else { 0x8000 }
}

fn emit_branch(
    alloc: Global,
    labels: &Labels,
    place: u32,
    op: u8,
    label: &Items<u8>,
) -> Result<Items<u8>, LineFault>
    ensures { Yields (λ t. t) result (option_map (text_at place) (option_map (Branch op) (spec.distance_to (spec.reach op) labels.now place label.now))) }
{
    let distance = distance(reach(op), labels, place, label.as_slice())?;
    text_of(alloc, place, &Instr::Branch(op, distance))
}

fn emit_local(alloc: Global, place: u32, op: u8, local: u16) -> Result<Items<u8>, LineFault>
    ensures { Yields (λ t. t) result (Some (text_at place (spec.local_of op local))) }
{
    if local < 256 {
        text_of(alloc, place, &Instr::Local(op, local))
    } else {
        text_of(alloc, place, &Instr::Wide(0xc4, op, local))
    }
}

fn emit_iinc(
    alloc: Global,
    place: u32,
    op: u8,
    local: u16,
    amount: i16,
) -> Result<Items<u8>, LineFault>
    ensures { Yields (λ t. t) result (Some (text_at place (spec.iinc_of op local amount))) }
{
    if local < 256 && fits_byte(amount) {
        text_of(alloc, place, &Instr::Iinc(op, local, amount))
    } else {
        text_of(alloc, place, &Instr::WideIinc(0xc4, local, amount))
    }
}

fn emit_constant(
    alloc: Global,
    place: u32,
    op: u8,
    constant: &Constant,
    pool: &mut PoolBuilder,
) -> Result<Items<u8>, LineFault>
    ensures { Gives (λ t. t) result pool.new (spec.written place (spec.of_constant op (constant_needed constant.now pool.old))) }
{
    let index = constant_index(alloc, constant, pool)?;
    if is_near(op) && index > 255 {
        return Err(LineFault::Outside);
    }
    text_of(alloc, place, &Instr::Constant(op, index))
}

fn emit_member(
    alloc: Global,
    place: u32,
    op: u8,
    kind: MemberKind,
    member: &MemberName,
    pool: &mut PoolBuilder,
) -> Result<Items<u8>, LineFault>
    ensures { Gives (λ t. t) result pool.new (spec.written place (spec.of_index (Member op) (member_needed kind member.now pool.old))) }
{
    let index = member_index(alloc, kind, member, pool)?;
    text_of(alloc, place, &Instr::Member(op, index))
}

fn emit_interface(
    alloc: Global,
    place: u32,
    op: u8,
    member: &MemberName,
    slots: u8,
    pool: &mut PoolBuilder,
) -> Result<Items<u8>, LineFault>
    ensures { Gives (λ t. t) result pool.new (spec.written place (spec.of_index (λ i. Interface op i slots 0) (member_needed InterfaceMethod member.now pool.old))) }
{
    let index = member_index(alloc, MemberKind::InterfaceMethod, member, pool)?;
    text_of(alloc, place, &Instr::Interface(op, index, slots, 0))
}

fn emit_class(
    alloc: Global,
    place: u32,
    op: u8,
    name: &Items<u8>,
    pool: &mut PoolBuilder,
) -> Result<Items<u8>, LineFault>
    ensures { Gives (λ t. t) result pool.new (spec.written place (spec.of_index (ClassOf op) (class_needed name.now pool.old))) }
{
    let index = class_index(alloc, name.as_slice(), pool)?;
    text_of(alloc, place, &Instr::ClassOf(op, index))
}

fn emit_multi_array(
    alloc: Global,
    place: u32,
    op: u8,
    name: &Items<u8>,
    dimensions: u8,
    pool: &mut PoolBuilder,
) -> Result<Items<u8>, LineFault>
    ensures { Gives (λ t. t) result pool.new (spec.written place (spec.of_index (λ i. MultiArray op i dimensions) (class_needed name.now pool.old))) }
{
    let index = class_index(alloc, name.as_slice(), pool)?;
    text_of(alloc, place, &Instr::MultiArray(op, index, dimensions))
}

/// The bytes of an operation at a place of a code, with what it needs added to the pool. `Outside` comes where a label has no
/// place or is too far away, an index behind ldc is above 255, or the pool has no room.
#[tactic(auto, unfolding(crate::specs::Code::resolved), using(crate::proofs::Alone::alone_written))]
pub fn emit(
    alloc: Global,
    labels: &Labels,
    place: u32,
    operation: &Operation,
    pool: &mut PoolBuilder,
) -> Result<Items<u8>, LineFault>
    ensures { Gives (λ t. t) result pool.new (spec.emitted labels.now place operation.now pool.old) }
{
    match operation {
        Operation::Plain(op) => text_of(alloc, place, &Instr::Plain(*op)),
        Operation::Byte(op, n) => text_of(alloc, place, &Instr::Byte(*op, *n)),
        Operation::Short(op, n) => text_of(alloc, place, &Instr::Short(*op, *n)),
        Operation::Load(op, constant) => emit_constant(alloc, place, *op, constant, pool),
        Operation::Local(op, local) => emit_local(alloc, place, *op, *local),
        Operation::Iinc(op, local, amount) => emit_iinc(alloc, place, *op, *local, *amount),
        Operation::Branch(op, label) => emit_branch(alloc, labels, place, *op, label),
        Operation::Member(op, kind, member) => {
            emit_member(alloc, place, *op, *kind, member, pool)
        }
        Operation::Interface(op, member, slots) => {
            emit_interface(alloc, place, *op, member, *slots, pool)
        }
        Operation::ClassOf(op, name) => emit_class(alloc, place, *op, name, pool),
        Operation::NewArray(op, code) => text_of(alloc, place, &Instr::NewArray(*op, *code)),
        Operation::MultiArray(op, name, dimensions) => {
            emit_multi_array(alloc, place, *op, name, *dimensions, pool)
        }
        Operation::TableSwitch(op, low, other, targets) => {
            emit_table(alloc, labels, place, *op, *low, other, targets.as_slice())
        }
        Operation::LookupSwitch(op, other, cases) => {
            emit_lookup(alloc, labels, place, *op, other, cases.as_slice())
        }
    }
}
