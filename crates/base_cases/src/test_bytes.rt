// Bytes for the tests, written as words between blanks: after a backslash the hexadecimal digits of bytes between dots, after
// `N*` a text N times, else a text.
use std::alloc::{AllocError, Global};

// Whether these are the hexadecimal digits of a byte.
fn is_byte(digits: &str) -> bool {
    u8::from_str_radix(digits, 16).is_ok()
}

fn byte_of(digits: &str) -> u8 {
    u8::from_str_radix(digits, 16).unwrap_or(0)
}

fn is_repeated(word: &str) -> bool {
    match word.split_once('*') {
        Some((count, _)) => count.parse::<u16>().is_ok(),
        None => true,
    }
}

fn is_word(word: &str) -> bool {
    match word.strip_prefix("\\") {
        Some(digits) => digits.split('.').all(is_byte),
        None => is_repeated(word),
    }
}

// Whether each word can be read.
pub fn are_words(words: &str) -> bool {
    words.split(' ').all(is_word)
}

fn push_bytes(digits: &str, bytes: &mut Vec<u8>) -> Result<(), AllocError> {
    for byte in digits.split('.') {
        bytes.push(byte_of(byte))?;
    }
    Ok(())
}

fn push_repeated(word: &str, bytes: &mut Vec<u8>) -> Result<(), AllocError> {
    let (count, text) = word.split_once('*').unwrap_or(("1", word));
    for _ in 0..count.parse::<u16>().unwrap_or(0) {
        bytes.extend_from_slice(text.as_bytes())?;
    }
    Ok(())
}

fn push_word(word: &str, bytes: &mut Vec<u8>) -> Result<(), AllocError> {
    match word.strip_prefix("\\") {
        Some(digits) => push_bytes(digits, bytes),
        None => push_repeated(word, bytes),
    }
}

// The bytes of words that can be read.
pub fn bytes_of(alloc: Global, words: &str) -> Result<Vec<u8>, AllocError> {
    let mut bytes = Vec::new(alloc);
    for word in words.split(' ') {
        push_word(word, &mut bytes)?;
    }
    Ok(bytes)
}
