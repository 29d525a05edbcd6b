// Where the switches go on, by place and by key.
use crate::test_bytes::hexadecimal;
use jsa_ops::{
    Instr, decode, distance_at, distance_for, each_key_goes_on, first_distance, first_pair,
};
use std::alloc::{AllocError, Global};
use std::test::Fail;
use test_rows::{compare, first_word, parts};

// A tableswitch from -1 to 1 with the default 99; one of all keys from the highest int on; a lookupswitch of three keys with
// the default 100; one of no key; and another instruction.
fn code_of(name: &str) -> &'static str {
    match name {
        "table" => {
            "aa 00 00 00 00 00 00 63 ff ff ff ff 00 00 00 01 00 00 00 0a 00 00 00 14 ff ff ff e2"
        }
        "highest" => "aa 00 00 00 00 00 00 63 7f ff ff ff 7f ff ff ff 00 00 00 0b",
        "lookup" => {
            "ab 00 00 00 00 00 00 64 00 00 00 03 ff ff ff fb 00 00 00 07 00 00 00 00 00 00 00 08 7f ff ff ff ff ff ff f7"
        }
        "empty" => "ab 00 00 00 00 00 00 64 00 00 00 00",
        _ => "00",
    }
}

fn say_distance(alloc: Global, distance: Option<i32>, said: &mut String) -> Result<(), AllocError> {
    match distance {
        Some(distance) => {
            let text = format!(in alloc; "{distance}")?;
            said.push_str(text.as_str())
        }
        None => said.push_str("none"),
    }
}

// The first distance or the first pair of a switch, and how many bytes the others have.
fn say_first(alloc: Global, instr: &Instr<'_>, said: &mut String) -> Result<(), AllocError> {
    let text = match *instr {
        Instr::TableSwitch(_, _, _, _, distances) => match first_distance(distances) {
            Some((distance, rest)) => format!(in alloc; "{distance} {}", rest.len())?,
            None => String::from_str(alloc, "none")?,
        },
        Instr::LookupSwitch(_, _, pairs) => match first_pair(pairs) {
            Some((key, distance, rest)) => format!(in alloc; "{key} {distance} {}", rest.len())?,
            None => String::from_str(alloc, "none")?,
        },
        _ => String::from_str(alloc, "no switch")?,
    };
    said.push_str(text.as_str())
}

fn say_of(
    alloc: Global,
    instr: &Instr<'_>,
    verb: &str,
    word: &str,
    said: &mut String,
) -> Result<(), AllocError> {
    match verb {
        "first" => say_first(alloc, instr, said),
        "for" => say_distance(
            alloc,
            distance_for(instr, word.parse::<i32>().unwrap_or(0)),
            said,
        ),
        _ => say_distance(
            alloc,
            distance_at(instr, word.parse::<usize>().unwrap_or(0)),
            said,
        ),
    }
}

fn say(alloc: Global, call: &str, said: &mut String) -> Result<(), AllocError> {
    let (verb, words) = first_word(call);
    let (name, word) = first_word(words);
    let code = hexadecimal(alloc, code_of(name))?;
    if code.len() == 0 || code.len() > 65_535 {
        return said.push_str("no code");
    }
    match decode(code.as_slice(), 0) {
        Ok((instr, _)) => say_of(alloc, &instr, verb, word, said),
        Err(_) => said.push_str("no instruction"),
    }
}

fn wrong_rows(alloc: Global, rows: &str) -> Result<String, AllocError> {
    let mut wrong = String::new(alloc);
    for row in rows.lines() {
        let (call, _) = parts(row);
        let mut said = String::new(alloc);
        say(alloc, call, &mut said)?;
        compare(row, said.as_str(), &mut wrong)?;
    }
    Ok(wrong)
}

static ROWS: &str = "for table -1 = 10
for table 0 = 20
for table 1 = -30
for table 2 = 99
for table -2 = 99
for table -2147483648 = 99
for table 2147483647 = 99
for highest 2147483647 = 11
for highest 2147483646 = 99
for highest -2147483648 = 99
for lookup -5 = 7
for lookup 0 = 8
for lookup 2147483647 = -9
for lookup -4 = 100
for lookup 1 = 100
for lookup -2147483648 = 100
for empty 0 = 100
for nop 0 = none
at table 0 = 10
at table 2 = -30
at table 3 = none
at table 4611686018427387904 = none
at lookup 0 = 7
at lookup 2 = -9
at lookup 3 = none
at lookup 2305843009213693952 = none
at empty 0 = none
at nop 0 = none
first table = 10 8
first lookup = -5 7 16
first empty = none";

#[test]
fn switches_go_on_as_the_standard_has_them(rt: HostRuntime) -> Result<(), Fail> {
    each_key_goes_on();
    assert_eq!(rt; wrong_rows(rt.alloc(), ROWS)?.as_str(), "");
    Ok(())
}
