//! Words of the interpreters of rows `CALL = ANSWER` in tests: what a row is made of, and pieces of answers.
#![tactic(auto)]

use std::alloc::{AllocError, Global};

/// The first word, and what stands behind its blank.
pub fn first_word(text: &str) -> (&str, &str) {
    text.split_once(' ').unwrap_or((text, ""))
}

/// The call of a row, and the answer that is wanted.
pub fn parts(row: &str) -> (&str, &str) {
    row.split_once(" = ").unwrap_or((row, "no answer"))
}

/// `yes` or `no`.
pub fn word_of(answer: bool) -> &'static str {
    if answer { "yes" } else { "no" }
}

/// Says a number in decimal.
pub fn say_number(alloc: Global, number: u64, said: &mut String) -> Result<(), AllocError> {
    let text = format!(in alloc; "{number}")?;
    said.push_str(text.as_str())
}

/// Says bytes in UTF-8, and `no text` of others.
pub fn say_text(bytes: &[u8], said: &mut String) -> Result<(), AllocError> {
    said.push_str(str::from_utf8(bytes).unwrap_or("no text"))
}

/// Tells a row that is wrong, with what was said.
pub fn tell(row: &str, said: &str, wrong: &mut String) -> Result<(), AllocError> {
    wrong.push_str(row)?;
    wrong.push_str(" but ")?;
    wrong.push_str(said)?;
    wrong.push_str("\n")
}

/// Tells a row where what was said isn't its answer.
pub fn compare(row: &str, said: &str, wrong: &mut String) -> Result<(), AllocError> {
    let (_, wanted) = parts(row);
    if said == wanted {
        return Ok(());
    }
    tell(row, said, wrong)
}

/// Tells a row where something else was said than is wanted.
pub fn tell_wrong(
    wrong: &mut String,
    row: &str,
    said: &str,
    wanted: &str,
) -> Result<(), AllocError> {
    if said == wanted {
        return Ok(());
    }
    tell(row, said, wrong)
}
