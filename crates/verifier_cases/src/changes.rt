//! Changes of a class that no line of the assembler makes.
use crate::cutting::CaseFault;
use class_tree::{ClassTree, CodeTree, Handler, MethodTree};
use sqlite_items::Items;
use std::alloc::Global;

// A number of two hexadecimal digits.
fn byte(word: &str) -> Result<u8, CaseFault> {
    match u8::from_str_radix(word, 16) {
        Ok(byte) => Ok(byte),
        Err(_) => Err(CaseFault::Wrong),
    }
}

fn number(word: &str) -> Result<u16, CaseFault> {
    match word.parse::<u16>() {
        Ok(number) => Ok(number),
        Err(_) => Err(CaseFault::Wrong),
    }
}

fn bytes(alloc: Global, words: &str) -> Result<Items<u8>, CaseFault> {
    let mut bytes = Items::new(alloc);
    for word in words.split(' ') {
        bytes.push(byte(word)?)?;
    }
    Ok(bytes)
}

// Puts bytes into a code from a place on.
fn put_code(alloc: Global, code: &mut CodeTree, words: &str) -> Result<(), CaseFault> {
    let Some((place, words)) = words.split_once(" ") else {
        return Err(CaseFault::Wrong);
    };
    let mut place = usize::from(number(place)?);
    for byte in bytes(alloc, words)?.as_slice() {
        if place >= code.bytes.len() {
            return Err(CaseFault::Wrong);
        }
        code.bytes.set(place, *byte);
        place += 1;
    }
    Ok(())
}

fn next<'a>(words: &mut &'a str) -> Result<u16, CaseFault> {
    let text: &'a str = *words;
    let Some((first, rest)) = text.split_once(" ") else {
        return Err(CaseFault::Wrong);
    };
    *words = rest;
    number(first)
}

fn put_handler(code: &mut CodeTree, words: &str) -> Result<(), CaseFault> {
    let mut rest = words;
    let start = next(&mut rest)?;
    let end = next(&mut rest)?;
    let handler = next(&mut rest)?;
    let catch = number(rest)?;
    code.handlers.push(Handler {
        start,
        end,
        handler,
        catch,
    })?;
    Ok(())
}

fn change_code(alloc: Global, code: &mut CodeTree, line: &str) -> Result<(), CaseFault> {
    if let Some(words) = line.strip_prefix("@code ") {
        return put_code(alloc, code, words);
    }
    if let Some(words) = line.strip_prefix("@map ") {
        code.map = Some(bytes(alloc, words)?);
        return Ok(());
    }
    if let Some(words) = line.strip_prefix("@handler ") {
        return put_handler(code, words);
    }
    Err(CaseFault::Wrong)
}

fn change_method(alloc: Global, method: &mut MethodTree, line: &str) -> Result<(), CaseFault> {
    let Some(mut code) = method.code.take() else {
        return Err(CaseFault::Wrong);
    };
    change_code(alloc, &mut code, line)?;
    method.code = Some(code);
    Ok(())
}

/// Does what a line says with the last method.
pub(crate) fn change(alloc: Global, tree: &mut ClassTree, line: &str) -> Result<(), CaseFault> {
    let Some(mut method) = tree.methods.pop() else {
        return Err(CaseFault::Wrong);
    };
    change_method(alloc, &mut method, line)?;
    tree.methods.push(method)?;
    Ok(())
}
