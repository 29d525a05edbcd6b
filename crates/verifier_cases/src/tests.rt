// What no contract says: that the definitions are the rules of the specification, by cases that were written from them.
use crate::cutting::trees;
use crate::{Case, bases, cases, supers_of, tree_of};
use boot_library::boot_text;
use class_tree::ClassTree;
use loader_rules::Loader;
use std::alloc::{AllocError, Global};
use std::test::Fail;
use type_verifier::check_class;
use verify_rules::{Ask, Checked, Place, Superclass};

// ---- what is found, as the cases write it

fn text_of(name: &[u8]) -> &str {
    str::from_utf8(name).unwrap_or("no text")
}

fn say_ask(ask: &Ask, said: &mut String) -> Result<(), AllocError> {
    said.push_str(" ")?;
    said.push_str(text_of(ask.from.as_slice()))?;
    said.push_str(":")?;
    said.push_str(text_of(ask.to.as_slice()))
}

fn say_asks(asks: &[Ask], said: &mut String) -> Result<(), AllocError> {
    for ask in asks {
        say_ask(ask, said)?;
    }
    Ok(())
}

fn say_fault(alloc: Global, place: Place, said: &mut String) -> Result<(), AllocError> {
    let text = format!(in alloc; " ! {} {}", place.method, place.pc)?;
    said.push_str(text.as_str())
}

fn say_found(alloc: Global, found: &Checked, said: &mut String) -> Result<(), AllocError> {
    let asks = found.asks.as_slice();
    say_asks(asks, said)?;
    match found.fault {
        Some(place) => say_fault(alloc, place, said),
        None => said.push_str(if asks.len() == 0 { " ok" } else { "" }),
    }
}

fn say_check(
    alloc: Global,
    tree: &ClassTree,
    loader: Loader,
    supers: &[Superclass<'_>],
    said: &mut String,
) -> Result<(), AllocError> {
    let found = check_class(alloc, tree, loader, supers)?;
    say_found(alloc, &found, said)
}

// What is found of a class whose superclasses are among some.
fn say_class(
    alloc: Global,
    all: &[ClassTree],
    tree: &ClassTree,
    loader: Loader,
    said: &mut String,
) -> Result<(), AllocError> {
    match supers_of(alloc, all, tree) {
        Ok(supers) => say_check(alloc, tree, loader, supers.as_slice(), said),
        Err(_) => said.push_str("no superclasses"),
    }
}

// ---- the cases

// The line of a case without what it says of other machines.
fn expected(case: &Case) -> &str {
    let line = case.expected.as_str();
    let line = line.strip_suffix(" ~").unwrap_or(line);
    line.strip_prefix("=").unwrap_or(line)
}

fn say_case(
    alloc: Global,
    bases: &[ClassTree],
    case: &Case,
    said: &mut String,
) -> Result<(), AllocError> {
    match tree_of(alloc, case) {
        Ok(tree) => say_class(alloc, bases, &tree, Loader::App, said),
        Err(_) => said.push_str("a wrong case"),
    }
}

fn tell(case: &Case, said: &str, wrong: &mut String) -> Result<(), AllocError> {
    wrong.push_str(case.name.as_str())?;
    wrong.push_str(" but")?;
    wrong.push_str(said)?;
    wrong.push_str("\n")
}

fn compare(case: &Case, said: &str, wrong: &mut String) -> Result<(), AllocError> {
    if said == expected(case) {
        return Ok(());
    }
    tell(case, said, wrong)
}

fn try_case(
    alloc: Global,
    bases: &[ClassTree],
    case: &Case,
    wrong: &mut String,
) -> Result<(), AllocError> {
    let mut said = String::new(alloc);
    say_case(alloc, bases, case, &mut said)?;
    compare(case, said.as_str(), wrong)
}

fn try_all(
    alloc: Global,
    bases: &[ClassTree],
    cases: &[Case],
    wrong: &mut String,
) -> Result<(), AllocError> {
    if cases.len() <= 300 {
        return wrong.push_str("300 cases or fewer");
    }
    for case in cases {
        try_case(alloc, bases, case, wrong)?;
    }
    Ok(())
}

fn try_over(alloc: Global, bases: &[ClassTree], wrong: &mut String) -> Result<(), AllocError> {
    let cases = cases(alloc)?;
    try_all(alloc, bases, cases.as_slice(), wrong)
}

fn try_cases(alloc: Global, wrong: &mut String) -> Result<(), AllocError> {
    match bases(alloc) {
        Ok(bases) => try_over(alloc, bases.as_slice(), wrong),
        Err(_) => wrong.push_str("no bases"),
    }
}

fn wrong_cases(alloc: Global) -> Result<String, AllocError> {
    let mut wrong = String::new(alloc);
    try_cases(alloc, &mut wrong)?;
    Ok(wrong)
}

#[test]
fn each_case_is_found_as_written(rt: HostRuntime) -> Result<(), Fail> {
    assert_eq!(rt; wrong_cases(rt.alloc())?.as_str(), "");
    Ok(())
}

// ---- the boot library

// Whether no fault was found.
fn is_accepted(said: &str) -> bool {
    said.starts_with(' ') && !said.contains('!')
}

fn try_boot_class(
    alloc: Global,
    all: &[ClassTree],
    tree: &ClassTree,
    wrong: &mut String,
) -> Result<(), AllocError> {
    let mut said = String::new(alloc);
    say_class(alloc, all, tree, Loader::Boot, &mut said)?;
    if is_accepted(said.as_str()) {
        return Ok(());
    }
    wrong.push_str(said.as_str())
}

fn try_boot_classes(
    alloc: Global,
    all: &[ClassTree],
    wrong: &mut String,
) -> Result<(), AllocError> {
    if all.len() != 54 {
        return wrong.push_str("not 54 classes");
    }
    for tree in all {
        try_boot_class(alloc, all, tree, wrong)?;
    }
    Ok(())
}

fn try_boot(alloc: Global, wrong: &mut String) -> Result<(), AllocError> {
    match trees(alloc, boot_text()) {
        Ok(all) => try_boot_classes(alloc, all.as_slice(), wrong),
        Err(_) => wrong.push_str("no trees"),
    }
}

fn wrong_boot(alloc: Global) -> Result<String, AllocError> {
    let mut wrong = String::new(alloc);
    try_boot(alloc, &mut wrong)?;
    Ok(wrong)
}

#[test]
fn the_boot_library_is_accepted(rt: HostRuntime) -> Result<(), Fail> {
    assert_eq!(rt; wrong_boot(rt.alloc())?.as_str(), "");
    Ok(())
}

// ---- a method of 65,535 bytes

fn push_long(text: &mut String) -> Result<(), AllocError> {
    text.push_str("class 0x0021 p/T -\nmethod 0x0009 f ()V\ncode 1 0\n")?;
    for _ in 0..32_767 {
        text.push_str("iconst_0\npop\n")?;
    }
    text.push_str("return\nend\n")
}

fn say_first(alloc: Global, all: &[ClassTree], said: &mut String) -> Result<(), AllocError> {
    match all.first() {
        Some(tree) => say_class(alloc, all, tree, Loader::Boot, said),
        None => said.push_str("no class"),
    }
}

fn say_trees(alloc: Global, text: &str, said: &mut String) -> Result<(), AllocError> {
    match trees(alloc, text) {
        Ok(all) => say_first(alloc, all.as_slice(), said),
        Err(_) => said.push_str("no trees"),
    }
}

fn say_long(alloc: Global, said: &mut String) -> Result<(), AllocError> {
    let mut text = String::new(alloc);
    push_long(&mut text)?;
    say_trees(alloc, text.as_str(), said)
}

fn long_found(alloc: Global) -> Result<String, AllocError> {
    let mut said = String::new(alloc);
    say_long(alloc, &mut said)?;
    Ok(said)
}

#[test]
fn the_longest_code_is_accepted(rt: HostRuntime) -> Result<(), Fail> {
    assert_eq!(rt; long_found(rt.alloc())?.as_str(), " ok");
    Ok(())
}
