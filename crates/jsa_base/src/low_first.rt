//! Numbers with the low byte first, as archives have them.
ghost use Rattle.std.specs.Prelude.{◌≡◌, ◌<◌, ◌^◌, ◌++◌, length, OnOk};
ghost use Rattle.jsa_base.specs.LowFirst as spec;

use byteorder::{ByteOrder, LittleEndian};
use std::alloc::AllocError;

/// The four bytes of a number, the low byte first.
pub fn low_u4(number: u32) -> [u8; 4]
    ensures { result ≡ spec.low_u4 number }
{
    let mut bytes = [0; 4];
    LittleEndian::write_u32(&mut bytes, number);
    bytes
}

/// The eight bytes of a number, the low byte first.
pub fn low_u8(number: u64) -> [u8; 8]
    ensures { result ≡ spec.low_u8 number }
{
    let mut bytes = [0; 8];
    LittleEndian::write_u64(&mut bytes, number);
    bytes
}

/// Appends the four bytes of a number, the low byte first. `AllocError` comes only where memory runs out.
pub fn put_low_u4(out: &mut Vec<u8>, number: u32) -> Result<(), AllocError>
    ensures { OnOk result (out.new.items ≡ out.old.items ++ spec.low_u4 number) }
{
    out.extend_from_slice(&low_u4(number))
}

/// Appends the eight bytes of a number, the low byte first. `AllocError` comes only where memory runs out.
pub fn put_low_u8(out: &mut Vec<u8>, number: u64) -> Result<(), AllocError>
    ensures { OnOk result (out.new.items ≡ out.old.items ++ spec.low_u8 number) }
{
    out.extend_from_slice(&low_u8(number))
}

/// Appends bytes behind their number, which is in four bytes, the low one first. `AllocError` comes only where memory runs
/// out; the number may then be appended.
pub fn put_low_text(out: &mut Vec<u8>, text: &[u8]) -> Result<(), AllocError>
    requires { length text.now < 2 ^ 32 }
    ensures { OnOk result (out.new.items ≡ out.old.items ++ spec.low_text text.now) }
{
    put_low_u4(out, text.len() as u32)?;
    out.extend_from_slice(text)
}
