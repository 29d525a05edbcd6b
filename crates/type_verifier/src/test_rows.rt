// The rows `CALL = ANSWER` of the tests. What a call is, its verb says, which is that of a whole table.
use crate::assigning_tests::{say_assigned, say_brackets};
use crate::classes_tests::say_breaks;
use crate::fits_tests::say_fits;
use crate::silent_rows_tests::say_steps;
use crate::stack_forms_tests::say_form;
use std::alloc::{AllocError, Global};

// What a call of this verb answers.
fn say(alloc: Global, said: &mut String, verb: &str, words: &str) -> Result<(), AllocError> {
    match verb {
        "breaks" => return say_breaks(alloc, said, words),
        "steps" => return say_steps(alloc, said, words),
        "assigned" => say_assigned(alloc, said, false, words),
        "local" => say_assigned(alloc, said, true, words),
        "brackets" => say_brackets(alloc, said, words),
        "fits" => say_fits(alloc, said, false, words),
        "caught" => say_fits(alloc, said, true, words),
        _ => say_form(alloc, said, words),
    }
    Ok(())
}

fn put_wrong(wrong: &mut String, row: &str, said: &str) -> Result<(), AllocError> {
    wrong.push_str(row)?;
    wrong.push_str(" but ")?;
    wrong.push_str(said)
}

fn put_row(alloc: Global, wrong: &mut String, verb: &str, row: &str) -> Result<(), AllocError> {
    let (call, wanted) = row.split_once(" = ").unwrap_or((row, "no answer"));
    let mut said = String::new(alloc);
    say(alloc, &mut said, verb, call)?;
    if said.as_str() == wanted {
        return Ok(());
    }
    put_wrong(wrong, row, said.as_str())
}

/// The rows of a verb that are wrong.
pub(crate) fn wrong_rows(alloc: Global, verb: &str, rows: &str) -> Result<String, AllocError> {
    let mut wrong = String::new(alloc);
    for row in rows.lines() {
        put_row(alloc, &mut wrong, verb, row)?;
    }
    Ok(wrong)
}
