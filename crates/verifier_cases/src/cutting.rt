//! The cases, cut out of the table.
use crate::changes::change;
use crate::table::TABLES;
use class_asm::{AsmFault, assemble};
use class_tree::ClassTree;
use std::alloc::{AllocError, Global};

/// A case.
#[derive(Drop)]
pub struct Case {
    pub name: String,
    /// Its class, in the language of the assembler.
    pub text: String,
    /// What is changed of it then, line by line.
    pub changes: String,
    /// What is found.
    pub expected: String,
    /// Whether it begins with a `class` line of its own.
    has_class: bool,
}

/// Why a case has no class.
#[derive(Clone, Copy)]
pub enum CaseFault {
    /// Its text or its changes are wrong.
    Wrong,
    Memory,
}

impl From<AllocError> for CaseFault {
    ghost use Rattle.std.specs.Prelude.{◌≡◌};
    ghost use Rattle.verifier_cases.specs.declared.cutting.CaseFault.TheVariants.{Memory};

    ghost from_gives = { λ _ e. e ≡ Memory };

    fn from(_error: AllocError) -> Self {
        CaseFault::Memory
    }
}

fn empty(alloc: Global) -> Case {
    Case {
        name: String::new(alloc),
        text: String::new(alloc),
        changes: String::new(alloc),
        expected: String::new(alloc),
        has_class: false,
    }
}

fn put_line(text: &mut String, line: &str) -> Result<(), AllocError> {
    text.push_str(line)?;
    text.push('\n')?;
    Ok(())
}

// A line of the case's class.
fn put_text(case: &mut Case, line: &str) -> Result<(), AllocError> {
    if line.starts_with("class ") {
        case.has_class = true;
    }
    if !case.has_class {
        case.has_class = true;
        put_line(&mut case.text, "class 0x0021 p/T java/lang/Object")?;
    }
    put_line(&mut case.text, line)
}

// A line that isn't the last one of the case.
fn put(case: &mut Case, line: &str) -> Result<(), AllocError> {
    if line.starts_with("# ") {
        return case.name.push_str(line);
    }
    if line.starts_with("@") {
        return put_line(&mut case.changes, line);
    }
    if line.is_empty() {
        return Ok(());
    }
    put_text(case, line)
}

// Adds the cases of a table.
fn put_cases(alloc: Global, all: &mut Vec<Case>, table: &str) -> Result<(), AllocError> {
    let mut case = empty(alloc);
    for line in table.lines() {
        if line.starts_with("= ") {
            case.expected.push_str(line)?;
            all.push(case)?;
            case = empty(alloc);
        } else {
            put(&mut case, line)?;
        }
    }
    Ok(())
}

/// All cases, in the order of the tables.
pub fn cases(alloc: Global) -> Result<Vec<Case>, AllocError> {
    let mut all = Vec::new(alloc);
    for table in TABLES {
        put_cases(alloc, &mut all, table)?;
    }
    Ok(all)
}

/// The trees of a text.
pub(crate) fn trees(alloc: Global, text: &str) -> Result<Vec<ClassTree>, CaseFault> {
    if text.len() > 100_000_000 {
        return Err(CaseFault::Wrong);
    }
    match assemble(alloc, text.as_bytes()) {
        Ok(trees) => Ok(trees),
        Err(AsmFault::Line(_)) => Err(CaseFault::Wrong),
        Err(AsmFault::Memory) => Err(CaseFault::Memory),
    }
}

/// The class of a case, with its changes.
pub fn tree_of(alloc: Global, case: &Case) -> Result<ClassTree, CaseFault> {
    let mut trees = trees(alloc, case.text.as_str())?;
    let Some(mut tree) = trees.pop() else {
        return Err(CaseFault::Wrong);
    };
    for line in case.changes.lines() {
        change(alloc, &mut tree, line)?;
    }
    Ok(tree)
}
