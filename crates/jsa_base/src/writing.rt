//! Appends numbers, the high byte first, as class files have them (JVMS 4).
//!
//! Each call appends the bytes of one number. `AllocError` comes only where memory runs out.
ghost use Rattle.std.specs.Prelude.{◌≡◌, ◌++◌, OnOk};
ghost use Rattle.jsa_base.specs.Spelling as spec;

use std::alloc::AllocError;

/// An unsigned number in one byte: an item `u1` of a class file (JVMS 4).
pub fn put_u1(out: &mut Vec<u8>, n: u8) -> Result<(), AllocError>
    ensures { OnOk result (out.new.items ≡ out.old.items ++ spec.u1 n) }
{
    out.extend_from_slice(&[n])
}

/// An unsigned number in two bytes: an item `u2` of a class file (JVMS 4).
pub fn put_u2(out: &mut Vec<u8>, n: u16) -> Result<(), AllocError>
    ensures { OnOk result (out.new.items ≡ out.old.items ++ spec.u2 n) }
{
    out.extend_from_slice(&n.to_be_bytes())
}

/// An unsigned number in four bytes: an item `u4` of a class file (JVMS 4).
pub fn put_u4(out: &mut Vec<u8>, n: u32) -> Result<(), AllocError>
    ensures { OnOk result (out.new.items ≡ out.old.items ++ spec.u4 n) }
{
    out.extend_from_slice(&n.to_be_bytes())
}

/// An unsigned number in eight bytes: the two items `u4` of a long or a double, the high one first (JVMS 4.4.5).
pub fn put_u8(out: &mut Vec<u8>, n: u64) -> Result<(), AllocError>
    ensures { OnOk result (out.new.items ≡ out.old.items ++ spec.u8 n) }
{
    out.extend_from_slice(&n.to_be_bytes())
}

/// A signed number in one byte, in two's complement, as an operand of an instruction (JVMS 6.5).
pub fn put_s1(out: &mut Vec<u8>, z: i8) -> Result<(), AllocError>
    ensures { OnOk result (out.new.items ≡ out.old.items ++ spec.s1 z) }
{
    put_u1(out, z.cast_unsigned())
}

/// A signed number in two bytes, in two's complement, as an operand of an instruction (JVMS 6.5).
pub fn put_s2(out: &mut Vec<u8>, z: i16) -> Result<(), AllocError>
    ensures { OnOk result (out.new.items ≡ out.old.items ++ spec.s2 z) }
{
    put_u2(out, z.cast_unsigned())
}

/// A signed number in four bytes, in two's complement, as an operand of an instruction (JVMS 6.5).
pub fn put_s4(out: &mut Vec<u8>, z: i32) -> Result<(), AllocError>
    ensures { OnOk result (out.new.items ≡ out.old.items ++ spec.s4 z) }
{
    put_u4(out, z.cast_unsigned())
}
