// Texts and units of UTF-16, as they are written in modified UTF-8. Bytes are told by their hexadecimal digits.
use crate::test_bytes::{are_words, bytes_of};
use jsa_names::{modified, put_unit};
use sqlite_items::Items;
use std::alloc::{AllocError, Global};

fn say_byte(alloc: Global, byte: u8, said: &mut String) -> Result<(), AllocError> {
    let text = format!(in alloc; "{byte:02x};")?;
    said.push_str(text.as_str())
}

fn say_bytes(alloc: Global, bytes: &[u8], said: &mut String) -> Result<(), AllocError> {
    if bytes.is_empty() {
        return said.push_str("no bytes");
    }
    for byte in bytes {
        say_byte(alloc, *byte, said)?;
    }
    Ok(())
}

fn say_modified(alloc: Global, bytes: &[u8], said: &mut String) -> Result<(), AllocError> {
    match str::from_utf8(bytes) {
        Ok(text) => say_bytes(alloc, modified(alloc, text)?.as_slice(), said),
        Err(_) => said.push_str("no text"),
    }
}

/// The modified UTF-8 of a text, by its bytes in UTF-8.
pub fn say_text(alloc: Global, words: &str, said: &mut String) -> Result<(), AllocError> {
    if !are_words(words) {
        return said.push_str("no bytes");
    }
    let bytes = bytes_of(alloc, words)?;
    say_modified(alloc, bytes.as_slice(), said)
}

/// The bytes of a unit, by its hexadecimal digits.
pub fn say_unit(alloc: Global, digits: &str, said: &mut String) -> Result<(), AllocError> {
    match u16::from_str_radix(digits, 16) {
        Ok(unit) => {
            let mut out = Items::new(alloc);
            put_unit(&mut out, unit)?;
            say_bytes(alloc, out.as_slice(), said)
        }
        Err(_) => said.push_str("no unit"),
    }
}
