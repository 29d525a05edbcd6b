ghost use Rattle.std.specs.Prelude.{◌≡◌};
ghost use Rattle.jsa_ops.specs.Instruction.{shown};
ghost use Rattle.jsa_ops.specs.Unsupported.{is_unsupported as is_unsupported_at, unsupported_opcode, float_move, float_math, float_result, between as between_at};

use crate::instr::Instr;
use crate::writing::opcode_of;

fn between(low: u8, op: u8, high: u8) -> bool
    ensures { result ≡ between_at low op high }
{
    low <= op && op <= high
}

#[tactic(auto, unfolding(crate::specs::Unsupported::float_move))]
fn is_float_move(op: u8) -> bool
    ensures { result ≡ float_move op }
{
    between(0x0b, op, 0x0f)
        || between(0x17, op, 0x18)
        || between(0x22, op, 0x29)
        || between(0x30, op, 0x31)
        || between(0x38, op, 0x39)
        || between(0x43, op, 0x4a)
        || between(0x51, op, 0x52)
}

#[tactic(auto, unfolding(crate::specs::Unsupported::float_math))]
fn is_float_math(op: u8) -> bool
    ensures { result ≡ float_math op }
{
    between(0x62, op, 0x63)
        || between(0x66, op, 0x67)
        || between(0x6a, op, 0x6b)
        || between(0x6e, op, 0x6f)
        || between(0x72, op, 0x73)
        || between(0x76, op, 0x77)
}

#[tactic(auto, unfolding(crate::specs::Unsupported::float_result))]
fn is_float_result(op: u8) -> bool
    ensures { result ≡ float_result op }
{
    between(0x86, op, 0x87)
        || between(0x89, op, 0x90)
        || between(0x95, op, 0x98)
        || between(0xae, op, 0xaf)
}

// The opcodes that name a float or double operand or result, and invokedynamic.
#[tactic(auto, unfolding(crate::specs::Unsupported::unsupported_opcode))]
fn is_unsupported_opcode(op: u8) -> bool
    ensures { result ≡ unsupported_opcode op }
{
    is_float_move(op) || is_float_math(op) || is_float_result(op) || op == 0xba
}

/// Whether the opcode alone, or the one behind wide, shuts the instruction out: it names a float or double operand or
/// result, or is invokedynamic. What operands decide, as the element type of newarray, isn't looked at.
#[tactic(auto, unfolding(crate::specs::Unsupported::is_unsupported))]
pub fn is_unsupported(instr: &Instr<'_>) -> bool
    ensures { result ≡ is_unsupported_at (shown instr.now) }
{
    match instr {
        Instr::Wide(_, code, _) => is_unsupported_opcode(*code),
        _ => is_unsupported_opcode(opcode_of(instr)),
    }
}
