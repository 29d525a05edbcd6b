// Rows `CALL = ANSWER`, of which each test has its calls.
use crate::{loader_tests, name_tests};
use std::alloc::{AllocError, Global};
use test_rows::{compare, parts};

fn say(alloc: Global, test: &str, call: &str, said: &mut String) -> Result<(), AllocError> {
    match test {
        "names" => name_tests::say(alloc, call, said),
        _ => loader_tests::say(alloc, call, said),
    }
}

fn try_row(alloc: Global, test: &str, row: &str, wrong: &mut String) -> Result<(), AllocError> {
    let (call, _) = parts(row);
    let mut said = String::new(alloc);
    say(alloc, test, call, &mut said)?;
    compare(row, said.as_str(), wrong)
}

// The rows of a test that are wrong.
pub fn wrong_rows(alloc: Global, test: &str, rows: &str) -> Result<String, AllocError> {
    let mut wrong = String::new(alloc);
    for row in rows.lines() {
        try_row(alloc, test, row, &mut wrong)?;
    }
    Ok(wrong)
}
