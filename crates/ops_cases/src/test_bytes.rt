// Bytes for the tests, written as their hexadecimal digits between blanks.
use std::alloc::{AllocError, Global};

// Whether these are the hexadecimal digits of a byte.
fn is_byte(digits: &str) -> bool {
    u8::from_str_radix(digits, 16).is_ok()
}

fn byte_of(digits: &str) -> u8 {
    u8::from_str_radix(digits, 16).unwrap_or(0)
}

// Whether these are digits of bytes between blanks.
pub fn are_bytes(words: &str) -> bool {
    words.split_whitespace().all(is_byte)
}

// The bytes of such digits.
pub fn hexadecimal(alloc: Global, words: &str) -> Result<Vec<u8>, AllocError> {
    let mut bytes = Vec::new(alloc);
    for digits in words.split_whitespace() {
        bytes.push(byte_of(digits))?;
    }
    Ok(bytes)
}
