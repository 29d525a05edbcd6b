// What a compiled class and the class of its text say, whatever the order of their constant pools and whatever attributes are
// skipped: names, flags, descriptors, stacks and locals, and the instructions by their opcodes, each index by what stands
// at it.
use crate::said::{say_all, say_number};
use class_asm::assemble;
use class_encoder::encode;
use class_tree::{ClassTree, CodeTree, MethodTree, Pool, PoolEntry};
use classfile_reader::read_class;
use jsa_ops::{Instr, decode};
use std::alloc::{AllocError, Global};

// What javac makes of a class that prints Hello, with its LineNumberTables and its SourceFile.
static COMPILED: [u8; 401] = [
    202, 254, 186, 190, 0, 0, 0, 52, 0, 28, 10, 0, 6, 0, 15, 9, 0, 16, 0, 17, 8, 0, 18, 10, 0, 19,
    0, 20, 7, 0, 18, 7, 0, 21, 1, 0, 6, 60, 105, 110, 105, 116, 62, 1, 0, 3, 40, 41, 86, 1, 0, 4,
    67, 111, 100, 101, 1, 0, 15, 76, 105, 110, 101, 78, 117, 109, 98, 101, 114, 84, 97, 98, 108,
    101, 1, 0, 4, 109, 97, 105, 110, 1, 0, 22, 40, 91, 76, 106, 97, 118, 97, 47, 108, 97, 110, 103,
    47, 83, 116, 114, 105, 110, 103, 59, 41, 86, 1, 0, 10, 83, 111, 117, 114, 99, 101, 70, 105,
    108, 101, 1, 0, 10, 72, 101, 108, 108, 111, 46, 106, 97, 118, 97, 12, 0, 7, 0, 8, 7, 0, 22, 12,
    0, 23, 0, 24, 1, 0, 5, 72, 101, 108, 108, 111, 7, 0, 25, 12, 0, 26, 0, 27, 1, 0, 16, 106, 97,
    118, 97, 47, 108, 97, 110, 103, 47, 79, 98, 106, 101, 99, 116, 1, 0, 16, 106, 97, 118, 97, 47,
    108, 97, 110, 103, 47, 83, 121, 115, 116, 101, 109, 1, 0, 3, 111, 117, 116, 1, 0, 21, 76, 106,
    97, 118, 97, 47, 105, 111, 47, 80, 114, 105, 110, 116, 83, 116, 114, 101, 97, 109, 59, 1, 0,
    19, 106, 97, 118, 97, 47, 105, 111, 47, 80, 114, 105, 110, 116, 83, 116, 114, 101, 97, 109, 1,
    0, 7, 112, 114, 105, 110, 116, 108, 110, 1, 0, 21, 40, 76, 106, 97, 118, 97, 47, 108, 97, 110,
    103, 47, 83, 116, 114, 105, 110, 103, 59, 41, 86, 0, 33, 0, 5, 0, 6, 0, 0, 0, 0, 0, 2, 0, 1, 0,
    7, 0, 8, 0, 1, 0, 9, 0, 0, 0, 29, 0, 1, 0, 1, 0, 0, 0, 5, 42, 183, 0, 1, 177, 0, 0, 0, 1, 0,
    10, 0, 0, 0, 6, 0, 1, 0, 0, 0, 1, 0, 9, 0, 11, 0, 12, 0, 1, 0, 9, 0, 0, 0, 37, 0, 2, 0, 1, 0,
    0, 0, 9, 178, 0, 2, 18, 3, 182, 0, 4, 177, 0, 0, 0, 1, 0, 10, 0, 0, 0, 10, 0, 2, 0, 0, 0, 3, 0,
    8, 0, 4, 0, 1, 0, 13, 0, 0, 0, 2, 0, 14,
];

static TEXT: &str = "\
class 0x0021 Hello java/lang/Object
method 0x0001 <init> ()V
code 1 1
aload_0
invokespecial java/lang/Object <init> ()V
return
end
method 0x0009 main ([Ljava/lang/String;)V
code 2 1
getstatic java/lang/System out Ljava/io/PrintStream;
ldc \"Hello\"
invokevirtual java/io/PrintStream println (Ljava/lang/String;)V
return
end
";

fn text_at(pool: &Pool, index: u16) -> &str {
    match pool.text(index) {
        Some(text) => str::from_utf8(text).unwrap_or("no text"),
        None => "no text",
    }
}

fn class_at(pool: &Pool, index: u16) -> &str {
    match pool.class_name(index) {
        Some(text) => str::from_utf8(text).unwrap_or("no class"),
        None => "no class",
    }
}

fn entry_at(pool: &Pool, index: u16) -> Option<&PoolEntry> {
    pool.entries().get(usize::from(index))
}

// The class, the name and the descriptor of a member.
fn say_member(pool: &Pool, class: u16, member: u16, said: &mut String) -> Result<(), AllocError> {
    match entry_at(pool, member) {
        Some(PoolEntry::NameAndType(name, desc)) => {
            let (name, desc) = (text_at(pool, *name), text_at(pool, *desc));
            say_all(&[class_at(pool, class), " ", name, " ", desc], said)
        }
        _ => said.push_str("no member"),
    }
}

fn say_entry(pool: &Pool, index: u16, said: &mut String) -> Result<(), AllocError> {
    match entry_at(pool, index) {
        Some(PoolEntry::Str(text)) => said.push_str(text_at(pool, *text)),
        Some(PoolEntry::Fieldref(c, m)) => say_member(pool, *c, *m, said),
        Some(PoolEntry::Methodref(c, m)) => say_member(pool, *c, *m, said),
        _ => said.push_str("another constant"),
    }
}

fn say_with_entry(
    alloc: Global,
    pool: &Pool,
    op: u8,
    index: u16,
    said: &mut String,
) -> Result<(), AllocError> {
    say_number(alloc, u64::from(op), said)?;
    said.push_str(" ")?;
    say_entry(pool, index, said)
}

fn say_instr(
    alloc: Global,
    pool: &Pool,
    instr: &Instr<'_>,
    said: &mut String,
) -> Result<(), AllocError> {
    match instr {
        Instr::Plain(op) => say_number(alloc, u64::from(*op), said),
        Instr::Constant(op, index) => say_with_entry(alloc, pool, *op, *index, said),
        Instr::Member(op, index) => say_with_entry(alloc, pool, *op, *index, said),
        _ => said.push_str("another instruction"),
    }
}

fn say_bytes(
    alloc: Global,
    pool: &Pool,
    bytes: &[u8],
    said: &mut String,
) -> Result<(), AllocError> {
    if bytes.len() > 65_535 {
        return said.push_str("a long code");
    }
    let mut place = 0;
    for _ in 0..bytes.len() {
        if place as usize >= bytes.len() {
            break;
        }
        let Ok((instr, next)) = decode(bytes, place) else {
            return said.push_str("no instruction");
        };
        say_instr(alloc, pool, &instr, said)?;
        said.push_str(", ")?;
        place = next;
    }
    Ok(())
}

fn say_code(
    alloc: Global,
    pool: &Pool,
    code: &CodeTree,
    said: &mut String,
) -> Result<(), AllocError> {
    say_number(alloc, u64::from(code.stack), said)?;
    said.push_str(" ")?;
    say_number(alloc, u64::from(code.locals), said)?;
    said.push_str(": ")?;
    say_bytes(alloc, pool, code.bytes.as_slice(), said)
}

fn say_method(
    alloc: Global,
    pool: &Pool,
    method: &MethodTree,
    said: &mut String,
) -> Result<(), AllocError> {
    let (name, desc) = (text_at(pool, method.name), text_at(pool, method.desc));
    say_all(&["method ", name, " ", desc, " "], said)?;
    say_number(alloc, u64::from(method.flags), said)?;
    said.push_str(" ")?;
    match &method.code {
        Some(code) => say_code(alloc, pool, code, said),
        None => said.push_str("no code"),
    }
}

fn say_methods(alloc: Global, tree: &ClassTree, said: &mut String) -> Result<(), AllocError> {
    for method in tree.methods.as_slice() {
        say_method(alloc, &tree.pool, method, said)?;
    }
    Ok(())
}

// The name of a class, that of its superclass, its flags, how many interfaces it has, and its methods.
fn say_class(alloc: Global, tree: &ClassTree, said: &mut String) -> Result<(), AllocError> {
    let (name, sup) = (
        class_at(&tree.pool, tree.this),
        class_at(&tree.pool, tree.sup),
    );
    say_all(&["class ", name, " ", sup, " "], said)?;
    say_number(alloc, u64::from(tree.flags), said)?;
    said.push_str(" ")?;
    say_number(alloc, tree.interfaces.len() as u64, said)?;
    said.push_str(" ")?;
    say_methods(alloc, tree, said)
}

fn say_read(alloc: Global, class: &[u8], said: &mut String) -> Result<(), AllocError> {
    match read_class(alloc, class) {
        Ok(tree) => say_class(alloc, &tree, said),
        Err(_) => said.push_str("no class"),
    }
}

pub(crate) fn say_compiled(alloc: Global, said: &mut String) -> Result<(), AllocError> {
    say_read(alloc, &COMPILED, said)
}

// What the class file of a tree says.
fn say_encoded(alloc: Global, tree: &ClassTree, said: &mut String) -> Result<(), AllocError> {
    match encode(alloc, tree) {
        Ok(class) => say_read(alloc, &class, said),
        Err(_) => said.push_str("no bytes"),
    }
}

fn say_first(alloc: Global, trees: &[ClassTree], said: &mut String) -> Result<(), AllocError> {
    match trees.first() {
        Some(tree) => say_encoded(alloc, tree, said),
        None => said.push_str("no tree"),
    }
}

pub(crate) fn say_assembled(alloc: Global, said: &mut String) -> Result<(), AllocError> {
    match assemble(alloc, TEXT.as_bytes()) {
        Ok(trees) => say_first(alloc, &trees, said),
        Err(_) => said.push_str("no trees"),
    }
}
