//! Appends counts, which may not fit their field, and what stands behind them.
ghost use Rattle.std.specs.Prelude.{◌≡◌, ◌++◌, OnOk};
ghost use Rattle.std.specs.List.{flat_map};
ghost use Rattle.jsa_base.specs.Spelling as spec;

use crate::fault::Memory;
use jsa_base::{put_u2, put_u4};
use std::alloc::AllocError;

/// A count in two bytes, and `Memory` for one above 65,535.
pub(crate) fn put_count(out: &mut Vec<u8>, n: usize) -> Result<(), Memory>
    ensures { OnOk result (out.new.items ≡ out.old.items ++ spec.u2 n) }
{
    if n > 65_535 {
        return Err(Memory);
    }
    put_u2(out, n as u16)?;
    Ok(())
}

/// Bytes behind their number in two bytes, and `Memory` for more than 65,535 of them.
pub(crate) fn put_text(out: &mut Vec<u8>, bytes: &[u8]) -> Result<(), Memory>
    ensures { OnOk result (out.new.items ≡ out.old.items ++ spec.text bytes.now) }
{
    put_count(out, bytes.len())?;
    out.extend_from_slice(bytes)?;
    Ok(())
}

/// Bytes behind their number in four bytes, and `Memory` for 2^32 of them or more.
pub(crate) fn put_long_text(out: &mut Vec<u8>, bytes: &[u8]) -> Result<(), Memory>
    ensures { OnOk result (out.new.items ≡ out.old.items ++ spec.long_text bytes.now) }
{
    if bytes.len() > 0xFFFF_FFFF {
        return Err(Memory);
    }
    put_u4(out, bytes.len() as u32)?;
    out.extend_from_slice(bytes)?;
    Ok(())
}

/// Numbers in two bytes each, behind their count. `Memory` for more than 65,535 of them.
pub(crate) fn put_indices(out: &mut Vec<u8>, indices: &[u16]) -> Result<(), Memory>
    ensures { OnOk result (out.new.items ≡ out.old.items ++ spec.counted spec.u2 indices.now) }
{
    put_count(out, indices.len())?;
    put_each_index(out, indices)?;
    Ok(())
}

fn put_each_index(out: &mut Vec<u8>, indices: &[u16]) -> Result<(), AllocError>
    ensures { OnOk result (out.new.items ≡ out.old.items ++ flat_map spec.u2 indices.now) }
{
    let mut rest = indices;
    loop {
        let [index, more @ ..] = rest else {
            return Ok(());
        };
        put_u2(out, *index)?;
        rest = more;
    }
}
