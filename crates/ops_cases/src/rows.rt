// Rows `CALL = ANSWER`.
use crate::code_tests::say;
use std::alloc::{AllocError, Global};
use test_rows::{compare, parts};

fn try_row(alloc: Global, row: &str, wrong: &mut String) -> Result<(), AllocError> {
    let (call, _) = parts(row);
    let mut said = String::new(alloc);
    say(alloc, call, &mut said)?;
    compare(row, said.as_str(), wrong)
}

// The rows that are wrong.
pub fn wrong_rows(alloc: Global, rows: &str) -> Result<String, AllocError> {
    let mut wrong = String::new(alloc);
    for row in rows.lines() {
        try_row(alloc, row, &mut wrong)?;
    }
    Ok(wrong)
}
