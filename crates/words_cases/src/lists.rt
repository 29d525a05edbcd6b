// The names of class lists.
use crate::said::say_bytes;
use command_words::read_list;
use std::alloc::{AllocError, Global};

fn byte_of(character: char) -> u8 {
    match character {
        '~' => b'\n',
        '^' => b'\r',
        other => (other as u32 % 256) as u8,
    }
}

fn bytes_of(alloc: Global, text: &str) -> Result<Vec<u8>, AllocError> {
    let mut bytes = Vec::new(alloc);
    for character in text.chars() {
        bytes.push(byte_of(character))?;
    }
    Ok(bytes)
}

fn say_names(names: &[Vec<u8>], said: &mut String) -> Result<(), AllocError> {
    for name in names {
        say_bytes(name, said)?;
        said.push_str(",")?;
    }
    said.push_str(" all")
}

fn names_of(alloc: Global, list: &str) -> Result<Vec<Vec<u8>>, AllocError> {
    let bytes = bytes_of(alloc, list)?;
    read_list(alloc, &bytes)
}

pub(crate) fn say_list(alloc: Global, list: &str, said: &mut String) -> Result<(), AllocError> {
    let names = names_of(alloc, list)?;
    say_names(&names, said)
}
