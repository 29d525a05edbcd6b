// Rows `CALL = ANSWER`.
use std::alloc::{AllocError, Global};

// A word, and what stands behind its blank.
pub fn first_word(text: &str) -> (&str, &str) {
    text.split_once(' ').unwrap_or((text, ""))
}

// The call of a row, and the answer that is wanted.
pub fn parts(row: &str) -> (&str, &str) {
    let (call, wanted) = row.split_once(" =").unwrap_or((row, " no answer"));
    (call, wanted.strip_prefix(' ').unwrap_or(""))
}

// A number, and the largest where it can't be read: no row is about that one.
pub fn number(text: &str) -> usize {
    text.parse::<usize>().unwrap_or(usize::MAX)
}

pub fn say_number(alloc: Global, number: u64, said: &mut String) -> Result<(), AllocError> {
    let text = format!(in alloc; "{number}")?;
    said.push_str(text.as_str())
}

fn tell(row: &str, said: &str, wrong: &mut String) -> Result<(), AllocError> {
    wrong.push_str(row)?;
    wrong.push_str(" but ")?;
    wrong.push_str(said)?;
    wrong.push_str("\n")
}

// Tells a row that is wrong, with what was said.
pub fn compare(row: &str, said: &str, wrong: &mut String) -> Result<(), AllocError> {
    let (_, wanted) = parts(row);
    if said == wanted {
        return Ok(());
    }
    tell(row, said, wrong)
}
