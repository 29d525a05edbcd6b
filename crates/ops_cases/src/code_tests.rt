// A code that holds each instruction, the table of opcodes as other crates expand it, and what stands at a place of small codes.
use crate::listing::{answer, say_code, say_table};
use crate::rows::wrong_rows;
use crate::test_bytes::{are_bytes, hexadecimal};
use jsa_ops::{Instr, OpFault, answers_are_exact, behind_is_unread, cut_goes_on, write};
use std::alloc::{AllocError, Global};
use std::test::Fail;
use test_rows::{first_word, say_number};

// The bytes of a bipush of -128 that is written.
fn say_bipush(alloc: Global, said: &mut String) -> Result<(), AllocError> {
    let mut out = Vec::new(alloc);
    if write(&Instr::Byte(0x10, -128), 0, &mut out).is_err() {
        return said.push_str("memory");
    }
    say_bytes(alloc, out.as_slice(), said)
}

fn say_bytes(alloc: Global, bytes: &[u8], said: &mut String) -> Result<(), AllocError> {
    let text = format!(in alloc; "{bytes:?}")?;
    said.push_str(text.as_str())
}

fn is_bad(code: &[u8], place: usize, byte: u8) -> bool {
    match answer(code, place) {
        Some(Err(OpFault::BadOpcode(found))) => found == byte,
        _ => false,
    }
}

// The bytes above the opcodes that name no instruction, neither at the start nor behind one.
fn nameless() -> u64 {
    let mut count = 0u64;
    for byte in 0xca..=0xffu8 {
        if is_bad(&[byte, 0, 0, 0, 0], 0, byte) && is_bad(&[0, byte], 1, byte) {
            count = count.saturating_add(1);
        }
    }
    count
}

// The byte where it makes an instruction behind wide. Each other must be refused by its number.
fn say_widened(alloc: Global, byte: u8, said: &mut String) -> Result<(), AllocError> {
    if is_bad(&[0xc4, byte, 0, 0, 0, 0], 0, byte) {
        return Ok(());
    }
    said.push_str(match answer(&[0xc4, byte, 0, 0, 0, 0], 0) {
        Some(Ok(_)) => "+",
        _ => "!",
    })?;
    say_number(alloc, u64::from(byte), said)
}

fn say_all_widened(alloc: Global, said: &mut String) -> Result<(), AllocError> {
    for byte in 0..=255u8 {
        say_widened(alloc, byte, said)?;
    }
    Ok(())
}

fn say_answer(
    alloc: Global,
    code: &[u8],
    place: usize,
    said: &mut String,
) -> Result<(), AllocError> {
    let text = format!(in alloc; "{:?}", answer(code, place))?;
    said.push_str(text.as_str())
}

// What stands at the place of a code, whose bytes are written as hexadecimal digits.
fn say_at(alloc: Global, words: &str, said: &mut String) -> Result<(), AllocError> {
    let (place, words) = first_word(words);
    if !are_bytes(words) {
        return said.push_str("no bytes");
    }
    let code = hexadecimal(alloc, words)?;
    match place.parse::<usize>() {
        Ok(place) => say_answer(alloc, code.as_slice(), place, said),
        Err(_) => said.push_str("no place"),
    }
}

pub fn say(alloc: Global, call: &str, said: &mut String) -> Result<(), AllocError> {
    let (verb, words) = first_word(call);
    match verb {
        "code" => say_code(alloc, words, said),
        "at" => say_at(alloc, words, said),
        "table" => say_table(alloc, said),
        "write" => say_bipush(alloc, said),
        "nameless" => say_number(alloc, nameless(), said),
        "widened" => say_all_widened(alloc, said),
        _ => said.push_str("no call"),
    }
}

// A code is read as javap reads it, is cut within each instruction, and is written again; each opcode has a row; bipush both
// ways; other bytes name no instruction, and those behind wide that do are the loads and stores with a written local, ret and
// iinc; and switches at place 3, which have no padding.
static ROWS: &str = "code read = as javap reads it
code again = as javap reads it
table all = 202 rows of all forms
at 0 10 80 = Some(Ok((Byte(16, -128), 2)))
at 0 ff = Some(Err(BadOpcode(255)))
at 0 11 01 = Some(Err(Cut))
write bipush = [16, 128]
nameless bytes = 54
widened bytes = +21+22+23+24+25+54+55+56+57+58+132+169
at 0 c4 = Some(Err(Cut))
at 0 c4 00 = Some(Err(BadOpcode(0)))
at 3 00 00 00 aa 00 00 00 00 00 00 00 01 00 00 00 00 = Some(Err(BadOperand))
at 3 00 00 00 aa 00 00 00 00 00 00 00 00 ff ff ff ff = Some(Err(BadOperand))
at 3 00 00 00 aa 00 00 00 00 7f ff ff ff 80 00 00 00 = Some(Err(BadOperand))
at 3 00 00 00 aa 00 00 00 00 00 00 00 01 00 00 00 00 00 00 00 00 = Some(Err(BadOperand))
at 3 00 00 00 aa 00 00 00 00 00 00 00 01 00 00 00 = Some(Err(Cut))
at 3 00 00 00 aa 00 00 00 00 00 00 00 00 7f ff ff ff 00 00 00 00 = Some(Err(Cut))
at 3 00 00 00 aa 00 00 00 00 80 00 00 00 7f ff ff ff 00 00 00 00 = Some(Err(Cut))
at 3 00 00 00 aa 00 00 00 00 00 00 00 05 00 00 00 05 00 00 00 00 = Some(Ok((TableSwitch(170, 0, 5, 5, [0, 0, 0, 0]), 20)))
at 3 00 00 00 ab 00 00 00 00 00 00 00 00 = Some(Ok((LookupSwitch(171, 0, []), 12)))
at 3 00 00 00 ab 00 00 00 00 80 00 00 00 = Some(Err(BadOperand))
at 3 00 00 00 ab 00 00 00 00 ff ff ff ff = Some(Err(BadOperand))
at 3 00 00 00 ab 00 00 00 00 ff ff ff = Some(Err(Cut))
at 3 00 00 00 ab 00 00 00 00 7f ff ff ff 00 00 00 00 00 00 00 00 = Some(Err(Cut))
at 3 00 00 00 ab 00 00 00 00 00 00 00 02 00 00 00 07 00 00 00 00 00 00 00 07 00 00 00 00 = Some(Err(BadOperand))
at 3 00 00 00 ab 00 00 00 00 00 00 00 02 00 00 00 00 00 00 00 00 ff ff ff ff 00 00 00 00 = Some(Err(BadOperand))
at 3 00 00 00 ab 00 00 00 00 00 00 00 03 00 00 00 00 00 00 00 00 00 00 00 09 00 00 00 00 00 00 00 08 00 00 00 00 = Some(Err(BadOperand))
at 3 00 00 00 ab 00 00 00 00 00 00 00 02 00 00 00 07 00 00 00 00 00 00 00 07 00 00 00 = Some(Err(Cut))
at 3 00 00 00 ab 00 00 00 00 00 00 00 02 ff ff ff ff 00 00 00 00 00 00 00 00 00 00 00 00 = Some(Ok((LookupSwitch(171, 0, [255, 255, 255, 255, 0, 0, 0, 0, 0, 0, 0, 0, 0, 0, 0, 0]), 28)))";

#[test]
fn codes_are_read_and_written_as_the_standard_has_them(rt: HostRuntime) -> Result<(), Fail> {
    answers_are_exact();
    behind_is_unread();
    cut_goes_on();
    assert_eq!(rt; wrong_rows(rt.alloc(), ROWS)?.as_str(), "");
    Ok(())
}
