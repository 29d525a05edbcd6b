//! Types by the letters of instructions, and what instructions take and put that move such types alone (JVMS 2.11.1, 6.5).
ghost use Rattle.std.specs.Prelude.{◌≡◌, Some, None};
ghost use Rattle.verify_rules.specs.declared.letter.Letter.TheVariants.{Int};
ghost use Rattle.verify_rules.specs.Causes.{Does};
ghost use Rattle.verify_rules.specs.Letters.{is_reference, is_object_type, is_of, letter_of, is_wide_letter, type_of_letter, pop_letter, pop_if, push, push_if, moved, effect, binary, unary, conversion, effect_of};

use verify_rules::{Cause, Effect, Letter, Stop, TypeStack, VType};

/// Whether a type is null, an object or an array, with or without its constructor.
pub(crate) fn is_reference(t: &VType) -> bool
    ensures { result ≡ is_reference t.now }
{
    match t {
        VType::Top => false,
        VType::Integer => false,
        VType::Float => false,
        VType::Double => false,
        VType::Long => false,
        VType::Null => true,
        VType::UninitializedThis => true,
        VType::Object(_) => true,
        VType::Uninitialized(_) => true,
    }
}

/// Whether a type is null, an object or an array, which has its constructor behind it.
pub(crate) fn is_object_type(t: &VType) -> bool
    ensures { result ≡ is_object_type t.now }
{
    match t {
        VType::Top => false,
        VType::Integer => false,
        VType::Float => false,
        VType::Double => false,
        VType::Long => false,
        VType::Null => true,
        VType::UninitializedThis => false,
        VType::Object(_) => true,
        VType::Uninitialized(_) => false,
    }
}

/// Whether a type is of a letter. Each reference is of the letter a.
pub(crate) fn is_of(letter: Letter, t: &VType) -> bool
    ensures { result ≡ is_of letter t.now }
{
    match letter {
        Letter::Int => matches!(t, VType::Integer),
        Letter::Long => matches!(t, VType::Long),
        Letter::Float => matches!(t, VType::Float),
        Letter::Double => matches!(t, VType::Double),
        Letter::Reference => is_reference(t),
    }
}

/// The letter at a place of a run of opcodes, in which they stand as i, l, f, d, a.
pub(crate) fn letter_of(k: u8) -> Letter
    ensures { result ≡ letter_of k }
{
    match k {
        0 => Letter::Int,
        1 => Letter::Long,
        2 => Letter::Float,
        3 => Letter::Double,
        _ => Letter::Reference,
    }
}

/// Whether the types of a letter take two units.
pub(crate) fn is_wide_letter(letter: Letter) -> bool
    ensures { result ≡ is_wide_letter letter }
{
    match letter {
        Letter::Int => false,
        Letter::Long => true,
        Letter::Float => false,
        Letter::Double => true,
        Letter::Reference => false,
    }
}

/// The type of a constant or a result of the letter. For a reference it is null.
pub(crate) fn type_of_letter(letter: Letter) -> VType
    ensures { result ≡ type_of_letter letter }
{
    match letter {
        Letter::Int => VType::Integer,
        Letter::Long => VType::Long,
        Letter::Float => VType::Float,
        Letter::Double => VType::Double,
        Letter::Reference => VType::Null,
    }
}

/// Takes a type of the letter off the stack.
pub(crate) fn pop_letter(letter: Letter, stack: &mut TypeStack) -> Result<(), Stop>
    ensures { Does (pop_letter letter stack.old) result stack.new }
{
    let Some(t) = stack.pop() else {
        return Err(Stop::Fault(Cause::Operands));
    };
    if is_of(letter, &t) {
        return Ok(());
    }
    Err(Stop::Fault(Cause::Mismatch))
}

fn pop_if(letter: Option<Letter>, stack: &mut TypeStack) -> Result<(), Stop>
    ensures { Does (pop_if letter stack.old) result stack.new }
{
    match letter {
        Some(letter) => pop_letter(letter, stack),
        None => Ok(()),
    }
}

/// Puts a type on top, where no more than `room` units are then taken.
pub(crate) fn push(room: u16, t: VType, stack: &mut TypeStack) -> Result<(), Stop>
    ensures { Does (push room t stack.old) result stack.new }
{
    if stack.push(room, t)? {
        return Ok(());
    }
    Err(Stop::Fault(Cause::Room))
}

fn push_if(room: u16, letter: Option<Letter>, stack: &mut TypeStack) -> Result<(), Stop>
    ensures { Does (push_if room letter stack.old) result stack.new }
{
    match letter {
        Some(letter) => push(room, type_of_letter(letter), stack),
        None => Ok(()),
    }
}

/// Takes and puts what an instruction takes and puts.
#[tactic(auto, unfolding(verify_rules::specs::Letters::moved))]
pub(crate) fn moved(room: u16, e: Effect, stack: &mut TypeStack) -> Result<(), Stop>
    ensures { Does (moved room e stack.old) result stack.new }
{
    pop_if(e.top, stack)?;
    pop_if(e.below, stack)?;
    push_if(room, e.puts, stack)
}

fn effect(top: Option<Letter>, below: Option<Letter>, puts: Option<Letter>) -> Effect
    ensures { result ≡ effect top below puts }
{
    Effect { top, below, puts }
}

// Puts one of a letter.
fn constant(letter: Letter) -> Effect
    ensures { result ≡ effect None None (Some letter) }
{
    effect(None, None, Some(letter))
}

// Takes two of a letter, and puts one of it.
fn binary(letter: Letter) -> Effect
    ensures { result ≡ binary letter }
{
    effect(Some(letter), Some(letter), Some(letter))
}

// Takes one of a letter, and puts one of another.
fn unary(from: Letter, to: Letter) -> Effect
    ensures { result ≡ unary from to }
{
    effect(Some(from), None, Some(to))
}

// Takes one of a letter, and puts one of it.
fn negation(letter: Letter) -> Effect
    ensures { result ≡ unary letter letter }
{
    unary(letter, letter)
}

// Takes an int as the distance and one of a letter below it, and puts one of the letter.
fn shift(letter: Letter) -> Effect
    ensures { result ≡ effect (Some Int) (Some letter) (Some letter) }
{
    effect(Some(Letter::Int), Some(letter), Some(letter))
}

// Takes two of a letter, and puts an int.
fn comparison(letter: Letter) -> Effect
    ensures { result ≡ effect (Some letter) (Some letter) (Some Int) }
{
    effect(Some(letter), Some(letter), Some(Letter::Int))
}

// The conversions, from i2l on.
#[tactic(auto, unfolding(verify_rules::specs::Letters::conversion))]
fn conversion(op: u8) -> Effect
    ensures { result ≡ conversion op }
{
    match op {
        0x85 => unary(Letter::Int, Letter::Long),
        0x86 => unary(Letter::Int, Letter::Float),
        0x87 => unary(Letter::Int, Letter::Double),
        0x88 => unary(Letter::Long, Letter::Int),
        0x89 => unary(Letter::Long, Letter::Float),
        0x8a => unary(Letter::Long, Letter::Double),
        0x8b => unary(Letter::Float, Letter::Int),
        0x8c => unary(Letter::Float, Letter::Long),
        0x8d => unary(Letter::Float, Letter::Double),
        0x8e => unary(Letter::Double, Letter::Int),
        0x8f => unary(Letter::Double, Letter::Long),
        0x90 => unary(Letter::Double, Letter::Float),
        _ => unary(Letter::Int, Letter::Int),
    }
}

/// What nop, a constant, an operator, a conversion or a comparison takes and puts. `None` for other opcodes.
#[tactic(auto, unfolding(verify_rules::specs::Letters::effect_of))]
pub(crate) fn effect_of(op: u8) -> Option<Effect>
    ensures { result ≡ effect_of op }
{
    match op {
        // nop
        0x00 => Some(effect(None, None, None)),
        // aconst_null, iconst, lconst, fconst, dconst
        0x01 => Some(constant(Letter::Reference)),
        0x02..=0x08 => Some(constant(Letter::Int)),
        0x09..=0x0a => Some(constant(Letter::Long)),
        0x0b..=0x0d => Some(constant(Letter::Float)),
        0x0e..=0x0f => Some(constant(Letter::Double)),
        // loads, stores and stack forms
        0x10..=0x5f => None,
        // add, sub, mul, div, rem; neg
        0x60..=0x73 => Some(binary(letter_of(op % 4))),
        0x74..=0x77 => Some(negation(letter_of(op % 4))),
        // shl, shr, ushr; and, or, xor
        0x78..=0x7d => Some(shift(letter_of(op % 2))),
        0x7e..=0x83 => Some(binary(letter_of(op % 2))),
        // iinc
        0x84 => None,
        0x85..=0x93 => Some(conversion(op)),
        // lcmp, fcmpl and fcmpg, dcmpl and dcmpg
        0x94 => Some(comparison(Letter::Long)),
        0x95..=0x96 => Some(comparison(Letter::Float)),
        0x97..=0x98 => Some(comparison(Letter::Double)),
        _ => None,
    }
}
