// Names of throwables, which classes a loader sees, and each law once.
use class_record::{
    JavaFault, ancestors_agree, links_by_levels, loads_again, loads_alike, loads_by_levels,
    orders_grow, readings_are_spelled, sees,
};
use loader_rules::Loader;
use std::alloc::{AllocError, Global};
use std::test::Fail;
use test_rows::{tell, word_of};

fn loader(word: &str) -> Loader {
    match word {
        "boot" => Loader::Boot,
        "platform" => Loader::Platform,
        _ => Loader::App,
    }
}

// The name of a throwable, or whether the first loader sees the classes of the second.
fn said(call: &str) -> &'static str {
    let (verb, of) = call.split_once(' ').unwrap_or((call, ""));
    match call {
        "throwable" => JavaFault::Throwable.name(),
        "circularity" => JavaFault::ClassCircularityError.name(),
        "null pointer" => JavaFault::NullPointerException.name(),
        _ => word_of(sees(loader(verb), loader(of))),
    }
}

fn try_row(wrong: &mut String, row: &str) -> Result<(), AllocError> {
    let (call, wanted) = row.split_once(" = ").unwrap_or((row, ""));
    if said(call) != wanted {
        return tell(row, said(call), wrong);
    }
    Ok(())
}

// The rows `CALL = ANSWER` that are wrong.
fn wrong_rows(alloc: Global, rows: &str) -> Result<String, AllocError> {
    let mut wrong = String::new(alloc);
    for row in rows.lines() {
        try_row(&mut wrong, row)?;
    }
    Ok(wrong)
}

#[test]
fn throwables_have_internal_names_and_loaders_see_those_above(rt: HostRuntime) -> Result<(), Fail> {
    let rows = "throwable = java/lang/Throwable
circularity = java/lang/ClassCircularityError
null pointer = java/lang/NullPointerException
boot boot = yes
boot platform = no
boot app = no
platform boot = yes
platform platform = yes
platform app = no
app boot = yes
app platform = yes
app app = yes";
    assert_eq!(rt; wrong_rows(rt.alloc(), rows)?.as_str(), "");
    Ok(())
}

#[test]
fn the_laws_stand(_rt: HostRuntime) {
    readings_are_spelled();
    loads_by_levels();
    links_by_levels();
    loads_alike();
    loads_again();
    orders_grow();
    ancestors_agree();
}
