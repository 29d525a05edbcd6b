// Rows `CALL = ANSWER`. The calls:
//
//     words WORDS               what words ask for, each behind a bar
//     list TEXT                 the names of a class list, with a comma behind each. Each character of the text is a byte
//     compiled, assembled       what a class says
//
// In lists `~` is a line feed and `^` a carriage return.
use crate::asked::say_asked;
use crate::lists::say_list;
use crate::trees::{say_assembled, say_compiled};
use std::alloc::{AllocError, Global};

// The first word, and what stands behind its space.
fn first_word(text: &str) -> (&str, &str) {
    text.split_once(' ').unwrap_or((text, ""))
}

// The call of a row, and the answer that is wanted.
fn parts(row: &str) -> (&str, &str) {
    row.split_once(" = ").unwrap_or((row, "no answer"))
}

fn say(alloc: Global, call: &str, said: &mut String) -> Result<(), AllocError> {
    let (verb, words) = first_word(call);
    match verb {
        "words" => say_asked(alloc, words, said),
        "list" => say_list(alloc, words, said),
        "compiled" => say_compiled(alloc, said),
        "assembled" => say_assembled(alloc, said),
        _ => said.push_str("no such call"),
    }
}

fn tell(row: &str, said: &str, wrong: &mut String) -> Result<(), AllocError> {
    wrong.push_str(row)?;
    wrong.push_str(" but ")?;
    wrong.push_str(said)?;
    wrong.push_str("\n")
}

fn compare(row: &str, said: &str, wrong: &mut String) -> Result<(), AllocError> {
    let (_, wanted) = parts(row);
    if said == wanted {
        return Ok(());
    }
    tell(row, said, wrong)
}

fn try_row(alloc: Global, row: &str, wrong: &mut String) -> Result<(), AllocError> {
    let (call, _) = parts(row);
    let mut said = String::new(alloc);
    say(alloc, call, &mut said)?;
    compare(row, said.as_str(), wrong)
}

fn try_rows(alloc: Global, rows: &str, wrong: &mut String) -> Result<(), AllocError> {
    for row in rows.lines() {
        try_row(alloc, row, wrong)?;
    }
    Ok(())
}

// The rows of texts that are wrong.
pub(crate) fn wrong_rows(alloc: Global, texts: &[&str]) -> Result<String, AllocError> {
    let mut wrong = String::new(alloc);
    for rows in texts {
        try_rows(alloc, rows, &mut wrong)?;
    }
    Ok(wrong)
}
