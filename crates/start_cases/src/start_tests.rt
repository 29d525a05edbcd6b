// The names of the required classes.
use std::alloc::{AllocError, Global};
use std::test::Fail;
use test_rows::tell;
use vm_start::required_name;

fn name_of(number: &str) -> &'static str {
    let number = number.parse::<u32>().unwrap_or(1);
    str::from_utf8(required_name(number)).unwrap_or("no text")
}

fn try_row(wrong: &mut String, row: &str) -> Result<(), AllocError> {
    let (number, wanted) = row.split_once(" = ").unwrap_or((row, "?"));
    if name_of(number) != wanted {
        return tell(row, name_of(number), wrong);
    }
    Ok(())
}

// The rows `NUMBER = NAME` that are wrong.
fn wrong_rows(alloc: Global, rows: &str) -> Result<String, AllocError> {
    let mut wrong = String::new(alloc);
    for row in rows.lines() {
        try_row(&mut wrong, row)?;
    }
    Ok(wrong)
}

#[test]
fn required_classes_are_numbered_from_1_on(rt: HostRuntime) -> Result<(), Fail> {
    let rows = "0 = 
1 = java/lang/Object
6 = java/lang/String
15 = java/lang/UnsupportedClassVersionError
38 = java/lang/CloneNotSupportedException
39 = 
4294967295 = ";
    assert_eq!(rt; wrong_rows(rt.alloc(), rows)?.as_str(), "");
    Ok(())
}

// Whether no class with a lower number has the name of this one.
fn is_first(number: u32) -> bool {
    for lower in 0..number {
        if required_name(lower) == required_name(number) {
            return false;
        }
    }
    true
}

// The numbers from 1 to 39 whose name a lower one has.
fn later_numbers(alloc: Global) -> Result<String, AllocError> {
    let mut later = String::new(alloc);
    for number in 1..40 {
        if !is_first(number) {
            later.push_str(format!(in alloc; "{number} ")?.as_str())?;
        }
    }
    Ok(later)
}

#[test]
fn no_two_required_classes_have_one_name(rt: HostRuntime) -> Result<(), Fail> {
    assert_eq!(rt; later_numbers(rt.alloc())?.as_str(), "39 ");
    Ok(())
}
