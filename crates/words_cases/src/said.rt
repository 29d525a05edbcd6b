// Small pieces of answers.
use std::alloc::{AllocError, Global};

pub(crate) fn say_all(parts: &[&str], said: &mut String) -> Result<(), AllocError> {
    for part in parts {
        said.push_str(part)?;
    }
    Ok(())
}

fn decimal(alloc: Global, number: u64) -> Result<String, AllocError> {
    format!(in alloc; "{number}")
}

pub(crate) fn say_number(alloc: Global, number: u64, said: &mut String) -> Result<(), AllocError> {
    let text = decimal(alloc, number)?;
    said.push_str(text.as_str())
}

// Bytes as characters, `~` for a line feed and `^` for a carriage return.
pub(crate) fn say_bytes(bytes: &[u8], said: &mut String) -> Result<(), AllocError> {
    for byte in bytes {
        said.push(match *byte {
            b'\n' => '~',
            b'\r' => '^',
            other => char::from(other),
        })?;
    }
    Ok(())
}
