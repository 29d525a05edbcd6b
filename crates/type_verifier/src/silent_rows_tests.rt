// What no contract says: that rows are typed where memory suffices.
use crate::arrays::{array_made, array_over, arrays_made, primitive_array_made};
use crate::assigning_tests::{put, word_of};
use crate::objects::{cast, constant_put, new_made, tested};
use crate::silent_rows::{branch_row, int_put, int_taken, local_row, silent_row};
use crate::test_rows::wrong_rows;
use class_tree::{Pool, PoolEntry};
use sqlite_items::Items;
use std::alloc::{AllocError, Global};
use verify_rules::{Frame, Stop, TypeStack, VType};

fn empty_frame(alloc: Global) -> Result<Frame, AllocError> {
    let mut locals = Items::new(alloc);
    locals.push(VType::Null)?;
    Ok(Frame {
        locals,
        stack: TypeStack::new(alloc),
        this_uninit: false,
    })
}

// Makes an array of arrays of longs, reads an array of it, and of that a long.
fn arrays_read(alloc: Global, frame: &mut Frame) -> Result<(), Stop> {
    int_put(4, frame)?;
    let name = array_over(alloc, b"[J")?;
    array_made(4, name, &mut frame.stack)?;
    int_put(4, frame)?;
    // aaload, then laload
    silent_row(alloc, 4, 0x32, frame)?;
    int_put(4, frame)?;
    silent_row(alloc, 4, 0x2f, frame)
}

// Makes an array of arrays of bytes at once, and one of its arrays by itself, which is stored there.
fn arrays_stored(alloc: Global, frame: &mut Frame) -> Result<(), Stop> {
    int_put(5, frame)?;
    int_put(5, frame)?;
    arrays_made(alloc, 5, Some(b"[[B".as_slice()), 2, &mut frame.stack)?;
    int_put(5, frame)?;
    int_put(5, frame)?;
    primitive_array_made(alloc, 5, 8, &mut frame.stack)?;
    // aastore
    silent_row(alloc, 5, 0x53, frame)
}

// The length of null decides.
fn length_decides(alloc: Global, frame: &mut Frame) -> Result<(), Stop> {
    local_row(alloc, 4, 0x19, 0, frame)?;
    silent_row(alloc, 4, 0xbe, frame)?;
    branch_row(0x99, &mut frame.stack)?;
    int_put(4, frame)?;
    int_taken(frame)
}

fn pool(alloc: Global) -> Result<Pool, AllocError> {
    let mut entries = Items::new(alloc);
    entries.push(PoolEntry::Unusable)?;
    entries.push(PoolEntry::Utf8(Items::from_slice(alloc, b"A")?))?;
    entries.push(PoolEntry::Class(1))?;
    entries.push(PoolEntry::Double(0))?;
    entries.push(PoolEntry::Unusable)?;
    entries.push(PoolEntry::Str(1))?;
    Ok(Pool::new(entries))
}

// Puts constants and a new object, and takes each of them in its way.
fn objects_used(alloc: Global, pool: &Pool, frame: &mut Frame) -> Result<(), Stop> {
    constant_put(alloc, 4, pool, 0x14, 3, &mut frame.stack)?;
    constant_put(alloc, 4, pool, 0x12, 5, &mut frame.stack)?;
    cast(alloc, 4, pool, 2, &mut frame.stack)?;
    tested(4, pool, 2, &mut frame.stack)?;
    int_taken(frame)?;
    new_made(alloc, 4, pool, 7, 2, frame)?;
    // monitorenter
    silent_row(alloc, 4, 0xc2, frame)
}

fn step(alloc: Global, word: &str, pool: &Pool, frame: &mut Frame) -> Result<(), Stop> {
    match word {
        "arrays_read" => arrays_read(alloc, frame),
        "arrays_stored" => arrays_stored(alloc, frame),
        "length_decides" => length_decides(alloc, frame),
        _ => objects_used(alloc, pool, frame),
    }
}

// The count of a stack by its word.
fn count_word(stack: &TypeStack) -> &'static str {
    match stack.len() {
        0 => " none ",
        1 => " one ",
        _ => " more ",
    }
}

fn say_each(alloc: Global, said: &mut String, pool: &Pool, frame: &mut Frame, words: &str) {
    for word in words.split(' ') {
        put(said, word_of(step(alloc, word, pool, frame)));
        put(said, count_word(&frame.stack));
    }
}

/// What each step answers, which are done one after the other in a frame, and how many types are on the stack then.
pub(crate) fn say_steps(alloc: Global, said: &mut String, words: &str) -> Result<(), AllocError> {
    let pool = pool(alloc)?;
    let mut frame = empty_frame(alloc)?;
    say_each(alloc, said, &pool, &mut frame, words);
    Ok(())
}

#[test]
fn arrays_and_objects_are_typed(rt: HostRuntime) -> Result<(), AllocError> {
    let rows = "arrays_read arrays_stored length_decides = fine one fine one fine one 
objects_used = fine one ";
    assert_eq!(rt; wrong_rows(rt.alloc(), "steps", rows)?.as_str(), "");
    Ok(())
}
