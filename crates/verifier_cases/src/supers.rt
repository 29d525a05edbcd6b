//! The superclasses of a case, as the verifier is given them.
use crate::base_text::BASES;
use crate::cutting::{CaseFault, trees};
use class_tree::{ClassTree, FieldTree, MethodTree, Pool};
use loader_rules::Loader;
use sqlite_items::Items;
use std::alloc::Global;
use verify_rules::{Member, Superclass};

/// The classes that cases are based on.
pub fn bases(alloc: Global) -> Result<Vec<ClassTree>, CaseFault> {
    trees(alloc, BASES)
}

// A text of the pool.
fn text(pool: &Pool, index: u16) -> Result<&[u8], CaseFault> {
    match pool.text(index) {
        Some(text) => Ok(text),
        None => Err(CaseFault::Wrong),
    }
}

fn class_name(pool: &Pool, index: u16) -> Result<&[u8], CaseFault> {
    match pool.class_name(index) {
        Some(name) => Ok(name),
        None => Err(CaseFault::Wrong),
    }
}

fn field<'a>(pool: &'a Pool, field: &FieldTree) -> Result<Member<'a>, CaseFault> {
    Ok(Member {
        name: text(pool, field.name)?,
        desc: text(pool, field.desc)?,
        flags: field.flags,
    })
}

fn method<'a>(pool: &'a Pool, method: &MethodTree) -> Result<Member<'a>, CaseFault> {
    Ok(Member {
        name: text(pool, method.name)?,
        desc: text(pool, method.desc)?,
        flags: method.flags,
    })
}

fn fields(alloc: Global, tree: &ClassTree) -> Result<Items<Member<'_>>, CaseFault> {
    let mut all = Items::new(alloc);
    for each in tree.fields.as_slice() {
        all.push(field(&tree.pool, each)?)?;
    }
    Ok(all)
}

fn methods(alloc: Global, tree: &ClassTree) -> Result<Items<Member<'_>>, CaseFault> {
    let mut all = Items::new(alloc);
    for each in tree.methods.as_slice() {
        all.push(method(&tree.pool, each)?)?;
    }
    Ok(all)
}

// Classes of `java/` are those of the boot loader.
fn loader_of(name: &[u8]) -> Loader {
    if name.starts_with(b"java/") {
        Loader::Boot
    } else {
        Loader::App
    }
}

fn superclass(alloc: Global, tree: &ClassTree) -> Result<Superclass<'_>, CaseFault> {
    let name = class_name(&tree.pool, tree.this)?;
    Ok(Superclass {
        name,
        loader: loader_of(name),
        flags: tree.flags,
        fields: fields(alloc, tree)?,
        methods: methods(alloc, tree)?,
    })
}

// The class of a name among some.
fn named<'a>(bases: &'a [ClassTree], name: &[u8]) -> Option<&'a ClassTree> {
    for tree in bases {
        if tree.pool.class_name(tree.this) == Some(name) {
            return Some(tree);
        }
    }
    None
}

// The superclass of a class among some.
fn above<'a>(bases: &'a [ClassTree], tree: &ClassTree) -> Option<&'a ClassTree> {
    match tree.pool.class_name(tree.sup) {
        Some(name) => named(bases, name),
        None => None,
    }
}

/// The superclasses of a class among some, from the direct one up.
pub fn supers_of<'a>(
    alloc: Global,
    bases: &'a [ClassTree],
    tree: &ClassTree,
) -> Result<Items<Superclass<'a>>, CaseFault> {
    let mut all = Items::new(alloc);
    let mut next = above(bases, tree);
    for _ in 0..bases.len() {
        let Some(found) = next else {
            return Ok(all);
        };
        all.push(superclass(alloc, found)?)?;
        next = above(bases, found);
    }
    Ok(all)
}
