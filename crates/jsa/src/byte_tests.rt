// A class in which any byte is another one runs well or is refused.
use crate::command_rows::say_anew;
use std::alloc::{AllocError, Global};
use std::test::Fail;
use test_rows::tell;

fn are_lines(bytes: &[u8]) -> bool {
    bytes.iter().all(|b| matches!(b, b'-' | b'~' | b'0'..=b'9'))
}

// Whether a run exits with lines of numbers, or refuses its class.
fn is_sound(said: &str) -> bool {
    match said.strip_prefix("0|") {
        Some(lines) => are_lines(lines.strip_suffix("|").unwrap_or("?").as_bytes()),
        None => said == "9||unsupported Main~",
    }
}

// A run of the compiled class with this byte at this place.
fn calls_of(alloc: Global, place: usize, value: u8) -> Result<String, AllocError> {
    format!(in alloc;
        "put app/Main.class COMPILED & edit app/Main.class {place} 1 {value} & run @auto"
    )
}

fn add_unsound(alloc: Global, calls: &str, wrong: &mut String) -> Result<(), AllocError> {
    let mut said = String::new(alloc);
    say_anew(alloc, calls, &mut said)?;
    if is_sound(said.as_str()) {
        return Ok(());
    }
    tell(calls, said.as_str(), wrong)
}

fn add_place(alloc: Global, place: usize, value: u8, wrong: &mut String) -> Result<(), AllocError> {
    let calls = calls_of(alloc, place, value)?;
    add_unsound(alloc, calls.as_str(), wrong)
}

// A byte of the class is this one, at each of its places.
fn add_places(alloc: Global, value: u8, wrong: &mut String) -> Result<(), AllocError> {
    for place in 0..293 {
        add_place(alloc, place, value, wrong)?;
    }
    Ok(())
}

fn unsound(alloc: Global) -> Result<String, AllocError> {
    let mut wrong = String::new(alloc);
    for value in [0, 1, 2, 7, 10, 12, 96, 127, 128, 177, 184, 255] {
        add_places(alloc, value, &mut wrong)?;
    }
    Ok(wrong)
}

#[test]
fn each_byte_may_be_changed(rt: HostRuntime) -> Result<(), Fail> {
    assert_eq!(rt; unsound(rt.alloc())?.as_str(), "");
    Ok(())
}
