// Bytes for the tests, written as words: a byte as its number, `4:` and `8:` a number in so many bytes, `text:` a text behind
// its length, `digest:` a byte 32 times, and `fill` zeros to a multiple of 8.
use std::alloc::{AllocError, Global};

fn is_part(kind: &str, part: &str) -> bool {
    match kind {
        "text" => true,
        "digest" => part.parse::<u8>().is_ok(),
        "4" => part.parse::<u32>().is_ok(),
        "8" => part.parse::<u64>().is_ok(),
        _ => false,
    }
}

fn is_word(word: &str) -> bool {
    match word.split_once(':') {
        Some((kind, part)) => is_part(kind, part),
        None => word == "fill" || word.parse::<u8>().is_ok(),
    }
}

// Whether each word can be read.
pub fn are_words(words: &str) -> bool {
    words.split_whitespace().all(is_word)
}

fn small(text: &str) -> u8 {
    text.parse::<u8>().unwrap_or(0)
}

fn push_u4(bytes: &mut Vec<u8>, number: u32) -> Result<(), AllocError> {
    bytes.extend_from_slice(&number.to_le_bytes())
}

fn push_text(bytes: &mut Vec<u8>, text: &str) -> Result<(), AllocError> {
    push_u4(bytes, u32::try_from(text.len()).unwrap_or(0))?;
    bytes.extend_from_slice(text.as_bytes())
}

fn push_part(bytes: &mut Vec<u8>, kind: &str, part: &str) -> Result<(), AllocError> {
    match kind {
        "text" => push_text(bytes, part),
        "digest" => bytes.extend_from_slice(&[small(part); 32]),
        "4" => push_u4(bytes, part.parse::<u32>().unwrap_or(0)),
        _ => bytes.extend_from_slice(&part.parse::<u64>().unwrap_or(0).to_le_bytes()),
    }
}

fn push_fill(bytes: &mut Vec<u8>) -> Result<(), AllocError> {
    let fill = (8 - bytes.len() % 8) % 8;
    bytes.extend_from_slice(&[0; 8][..fill])
}

fn push_word(bytes: &mut Vec<u8>, word: &str) -> Result<(), AllocError> {
    match word.split_once(':') {
        Some((kind, part)) => push_part(bytes, kind, part),
        None => push_single(bytes, word),
    }
}

fn push_single(bytes: &mut Vec<u8>, word: &str) -> Result<(), AllocError> {
    if word == "fill" {
        return push_fill(bytes);
    }
    bytes.extend_from_slice(&[small(word)])
}

// The bytes of words that can be read.
pub fn bytes_of(alloc: Global, words: &str) -> Result<Vec<u8>, AllocError> {
    let mut bytes = Vec::new(alloc);
    for word in words.split_whitespace() {
        push_word(&mut bytes, word)?;
    }
    Ok(bytes)
}
