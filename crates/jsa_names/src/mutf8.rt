//! The modified UTF-8 of a text (JVMS 4.4.7).
ghost use Rattle.std.specs.Prelude.{◌≡◌, ◌++◌, Some, OnOk, IfOk};
ghost use Rattle.jsa_names.specs.Texts.{unit_spelling, units_of};
ghost use Rattle.jsa_names.specs.Mutf8.{char_bytes, modified, text_units};

use sqlite_items::Items;
use std::alloc::{AllocError, Global};

/// Puts the one, two or three bytes of a unit of UTF-16 behind the others: U+0000 and U+0080 to U+07FF take two, and a
/// surrogate takes three, as each unit from U+0800 on (JVMS 4.4.7). After an `Err` some of them may stand there.
pub fn put_unit(out: &mut Items<u8>, unit: u16) -> Result<(), AllocError>
    ensures { OnOk result (out.new ≡ out.old ++ unit_spelling unit) }
{
    if 0x01 <= unit && unit <= 0x7F {
        out.push(unit as u8)
    } else if unit < 0x800 {
        out.push((0xC0 + unit / 64) as u8)?;
        out.push((0x80 + unit % 64) as u8)
    } else {
        out.push((0xE0 + unit / 4096) as u8)?;
        out.push((0x80 + unit / 64 % 64) as u8)?;
        out.push((0x80 + unit % 64) as u8)
    }
}

// Puts a character, one above U+FFFF by its two surrogates.
fn put_char(out: &mut Items<u8>, c: char) -> Result<(), AllocError>
    ensures { OnOk result (out.new ≡ out.old ++ char_bytes c) }
{
    let code = c as u32;
    if code < 0x1_0000 {
        put_unit(out, code as u16)
    } else {
        put_unit(out, (0xD800 + (code - 0x1_0000) / 0x400) as u16)?;
        put_unit(out, (0xDC00 + (code - 0x1_0000) % 0x400) as u16)
    }
}

/// A text in modified UTF-8: U+0000 in two bytes, and a character above U+FFFF as its two surrogates, in three bytes each
/// (JVMS 4.4.7). `utf16` reads the text's units of UTF-16 back.
pub fn modified(alloc: Global, text: &str) -> Result<Items<u8>, AllocError>
    ensures bytes { IfOk result (λ out. out ≡ modified text.now) }
    ensures units { IfOk result (λ out. units_of out ≡ Some (text_units text.now)) }
{
    let mut out = Items::new(alloc);
    for c in text.chars() {
        put_char(&mut out, c)?;
    }
    Ok(out)
}
