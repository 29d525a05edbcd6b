// What no contract says: that the definitions are the standard's, by tables that were made by hand; and each public function
// once. A row is a call, and behind ` = ` what it answers.
use crate::test_tables::{TABLES, WHOLE};
use class_tree::{CodeTree, Pool, PoolEntry};
use sqlite_items::Items;
use std::alloc::{AllocError, Global};
use verify_rules::{
    Frame, TypeStack, Unfinished, VType, VerifyFault, all_copied, copied, frame_copied, is_copy_of,
    item, size, stack_copied, turn_locals,
};
use verify_types::{Places, frames_of, tables_are_spelled};

// new A, dup, goto 7, return
static CODE: &str = "bb 00 02 59 a7 00 03 b1";

// goto 3, return
static GOTO: &str = "a7 00 03 b1";

// ---- what goes in

// An item of a pool: A, its Class, [I, its Class, a Class that names nothing, and a number.
fn entry(alloc: Global, index: u16) -> PoolEntry {
    match index {
        0 => PoolEntry::Unusable,
        1 => text_entry(alloc, b"A"),
        2 => PoolEntry::Class(1),
        3 => text_entry(alloc, b"[I"),
        4 => PoolEntry::Class(3),
        5 => PoolEntry::Class(9),
        _ => PoolEntry::Integer(7),
    }
}

fn text_entry(alloc: Global, text: &[u8]) -> PoolEntry {
    match Items::from_slice(alloc, text) {
        Ok(text) => PoolEntry::Utf8(text),
        Err(_) => PoolEntry::Unusable,
    }
}

fn pool(alloc: Global) -> Pool {
    let mut entries = Items::new(alloc);
    for index in 0..7 {
        let _kept = entries.push(entry(alloc, index));
    }
    Pool::new(entries)
}

// A type by its letter. One that stands for none is a place that no row names.
fn type_of(letter: char) -> VType {
    match letter {
        '.' => VType::Top,
        'I' => VType::Integer,
        'F' => VType::Float,
        'D' => VType::Double,
        'J' => VType::Long,
        'N' => VType::Null,
        'U' => VType::UninitializedThis,
        _ => VType::Uninitialized(99),
    }
}

fn types(alloc: Global, letters: &str) -> Items<VType> {
    let mut types = Items::new(alloc);
    for letter in letters.chars() {
        let _kept = types.push(type_of(letter));
    }
    types
}

// Pushes types as far as there is room.
fn pushed(alloc: Global, room: u16, letters: &str) -> TypeStack {
    let mut stack = TypeStack::new(alloc);
    for letter in letters.chars() {
        let _fits = stack.push(room, type_of(letter));
    }
    stack
}

fn frame(alloc: Global, locals: &str, stack: &str) -> Frame {
    Frame {
        locals: types(alloc, locals),
        stack: pushed(alloc, 3, stack),
        this_uninit: false,
    }
}

// Bytes in hexadecimal.
fn bytes(alloc: Global, text: &str) -> Items<u8> {
    let mut bytes = Items::new(alloc);
    for word in text.split_whitespace() {
        let _kept = bytes.push(u8::from_str_radix(word, 16).unwrap_or(0));
    }
    bytes
}

// The part of a call at an index.
fn part(call: &str, at: usize) -> &str {
    call.split(',').nth(at).unwrap_or("")
}

fn number(text: &str) -> u16 {
    text.parse::<u16>().unwrap_or(u16::MAX)
}

// A StackMapTable; `-` is none.
fn map_of(alloc: Global, text: &str) -> Option<Items<u8>> {
    match text {
        "-" => None,
        _ => Some(bytes(alloc, text)),
    }
}

fn code(alloc: Global, call: &str, code: &str, map: Option<Items<u8>>) -> CodeTree {
    CodeTree {
        stack: number(part(call, 2)),
        locals: number(part(call, 1)),
        bytes: bytes(alloc, code),
        handlers: Items::new(alloc),
        map,
    }
}

// ---- what comes out

// Adds to what is said. Where memory runs out the text is short, and its row wrong.
fn put(said: &mut String, text: &str) {
    let _kept = said.push_str(text);
}

fn say_number(alloc: Global, said: &mut String, number: usize) {
    if let Ok(text) = format!(in alloc; "{number}") {
        put(said, text.as_str());
    }
}

fn say_place(alloc: Global, said: &mut String, front: &str, place: u32) {
    put(said, front);
    say_number(alloc, said, place as usize);
}

fn say_name(said: &mut String, name: &[u8]) {
    put(said, "L");
    put(said, str::from_utf8(name).unwrap_or("no text"));
    put(said, ";");
}

fn say_type(alloc: Global, said: &mut String, t: &VType) {
    match t {
        VType::Top => put(said, "."),
        VType::Integer => put(said, "I"),
        VType::Float => put(said, "F"),
        VType::Double => put(said, "D"),
        VType::Long => put(said, "J"),
        VType::Null => put(said, "N"),
        VType::UninitializedThis => put(said, "U"),
        VType::Object(name) => say_name(said, name.as_slice()),
        VType::Uninitialized(place) => say_place(alloc, said, "@", *place),
    }
}

fn say_types(alloc: Global, said: &mut String, types: &[VType]) {
    for t in types {
        say_type(alloc, said, t);
    }
}

fn say_stack(alloc: Global, said: &mut String, stack: &TypeStack) {
    for at in 0..stack.len() {
        if let Some(t) = stack.get(at) {
            say_type(alloc, said, t);
        }
    }
}

fn say_frame(alloc: Global, said: &mut String, frame: &Frame) {
    say_types(alloc, said, frame.locals.as_slice());
    put(said, "|");
    say_stack(alloc, said, &frame.stack);
    put(said, if frame.this_uninit { "!" } else { "" });
}

fn say_placed(alloc: Global, said: &mut String, frames: &[(u32, Frame)]) {
    let mut gap = "";
    for (place, frame) in frames {
        say_place(alloc, said, gap, *place);
        put(said, " ");
        say_frame(alloc, said, frame);
        gap = " ";
    }
}

// The frames that a code declares.
fn say_frames(alloc: Global, said: &mut String, code: &CodeTree, first: &Frame) {
    match frames_of(alloc, code, first, &pool(alloc)) {
        Ok(frames) => say_placed(alloc, said, frames.as_slice()),
        Err(VerifyFault::Bad) => put(said, "bad"),
        Err(VerifyFault::Memory) => put(said, "memory"),
    }
}

// Those of a code with these bytes and this table.
fn say_table(alloc: Global, said: &mut String, call: &str, bytes: &str, map: Option<Items<u8>>) {
    let first = frame(alloc, part(call, 0), "");
    let code = code(alloc, call, bytes, map);
    say_frames(alloc, said, &code, &first);
}

fn say_call(alloc: Global, said: &mut String, call: &str, bytes: &str) {
    let map = map_of(alloc, part(call, 3));
    say_table(alloc, said, call, bytes, map);
}

// ---- places

fn say_instruction(alloc: Global, said: &mut String, places: &Places<'_>, k: usize) {
    if let Some((place, _, next)) = places.get(k) {
        say_place(alloc, said, "", place);
        put(said, if places.is_new(place) { " new" } else { " old" });
        say_place(alloc, said, " ", next);
    }
}

// Each instruction: its place, whether a `new` begins there, and the next place.
fn say_instructions(alloc: Global, said: &mut String, places: &Places<'_>) {
    for k in 0..places.len() {
        say_instruction(alloc, said, places, k);
        put(said, ";");
    }
}

// The places at which instructions begin.
fn say_starts(alloc: Global, said: &mut String, places: &Places<'_>) {
    for place in 0..20u32 {
        if places.is_start(place) {
            say_place(alloc, said, " ", place);
        }
    }
}

// How many instructions there are, and the place at which decoding stops.
fn say_bad(alloc: Global, said: &mut String, places: &Places<'_>) {
    say_number(alloc, said, places.len());
    match places.bad() {
        Some(place) => say_place(alloc, said, " ", place),
        None => put(said, " none"),
    }
}

fn same_word(is_same: bool) -> &'static str {
    if is_same { "same" } else { "other" }
}

fn say_asked(alloc: Global, said: &mut String, verb: &str, places: &Places<'_>, code: &[u8]) {
    match verb {
        "instructions" => say_instructions(alloc, said, places),
        "starts" => say_starts(alloc, said, places),
        "code" => put(said, same_word(places.code() == code)),
        _ => say_bad(alloc, said, places),
    }
}

fn say_places(alloc: Global, said: &mut String, verb: &str, code: &[u8]) {
    match Places::new(alloc, code) {
        Ok(places) => say_asked(alloc, said, verb, &places, code),
        Err(_) => put(said, "memory"),
    }
}

fn say_bytes(alloc: Global, said: &mut String, verb: &str, words: &str) {
    let code = bytes(alloc, words);
    say_places(alloc, said, verb, code.as_slice());
}

// A code of so many nops.
fn say_nops(alloc: Global, said: &mut String, words: &str) {
    let mut code = Items::new(alloc);
    for _ in 0..words.parse::<u32>().unwrap_or(0) {
        let _kept = code.push(0u8);
    }
    say_places(alloc, said, "bad", code.as_slice());
}

// ---- stacks and copies

// The units of the type below the top.
fn second_size(stack: &TypeStack) -> u16 {
    if 1 < stack.len() {
        size(item(stack, 1))
    } else {
        u16::MAX
    }
}

fn full_word(stack: &mut TypeStack, room: u16) -> &'static str {
    match stack.push(room, VType::Top) {
        Ok(false) => " full",
        _ => " fits",
    }
}

// The top, and whether there is room for one more in three units then.
fn say_top(alloc: Global, said: &mut String, stack: &mut TypeStack) {
    if let Some(top) = stack.pop() {
        say_type(alloc, said, &top);
    }
    put(said, full_word(stack, 3));
}

fn say_stack_copy(alloc: Global, said: &mut String, stack: &TypeStack) {
    if let Ok(copy) = stack_copied(alloc, stack) {
        say_stack(alloc, said, &copy);
    }
}

// What is asked of a stack, by its room and its letters.
fn say_pushed(alloc: Global, said: &mut String, verb: &str, words: &str) {
    let (room, letters) = words.split_once(' ').unwrap_or((words, ""));
    let mut stack = pushed(alloc, number(room), letters);
    match verb {
        "pushed" => say_stack(alloc, said, &stack),
        "count" => say_number(alloc, said, stack.len()),
        "second" => say_number(alloc, said, usize::from(second_size(&stack))),
        "top" => say_top(alloc, said, &mut stack),
        _ => say_stack_copy(alloc, said, &stack),
    }
}

// Turns `this` in the locals and on the stack.
fn turn(alloc: Global, frame: &mut Frame, new: &VType) {
    if size(new) == 1 {
        let this = Unfinished::ThisObject;
        let _locals = turn_locals(alloc, &mut frame.locals, this, new);
        let _stack = frame.stack.turn_all(alloc, this, new);
    }
}

fn say_frame_copy(alloc: Global, said: &mut String, frame: &Frame) {
    if let Ok(copy) = frame_copied(alloc, frame) {
        say_frame(alloc, said, &copy);
    }
}

// A copy of a frame in which `this` is turned into an A.
fn say_turned(alloc: Global, said: &mut String, words: &str) {
    let (locals, stack) = words.split_once(' ').unwrap_or((words, ""));
    let mut frame = frame(alloc, locals, stack);
    if let Ok(name) = Items::from_slice(alloc, b"A") {
        turn(alloc, &mut frame, &VType::Object(name));
    }
    say_frame_copy(alloc, said, &frame);
}

// Whether the object that was made at 7 is the one of a word, `this` or the place of a `new`.
fn is_made(words: &str) -> bool {
    let old = match words {
        "this" => Unfinished::ThisObject,
        _ => Unfinished::MadeAt(u32::from(number(words))),
    };
    is_copy_of(old, &VType::Uninitialized(7))
}

fn say_made_copy(alloc: Global, said: &mut String, words: &str) {
    let made = VType::Uninitialized(u32::from(number(words)));
    if let Ok(copy) = copied(alloc, &made) {
        say_type(alloc, said, &copy);
    }
}

fn say_all_copied(alloc: Global, said: &mut String, letters: &str) {
    let types = types(alloc, letters);
    if let Ok(copies) = all_copied(alloc, types.as_slice()) {
        say_types(alloc, said, copies.as_slice());
    }
}

// ---- rows

// What one call answers.
fn say(alloc: Global, said: &mut String, call: &str) {
    let (verb, words) = call.split_once(' ').unwrap_or((call, ""));
    match verb {
        "table" => say_call(alloc, said, words, CODE),
        "goto" => say_call(alloc, said, words, GOTO),
        "nops" => say_nops(alloc, said, words),
        "turned" => say_turned(alloc, said, words),
        "made" => put(said, same_word(is_made(words))),
        "made_copy" => say_made_copy(alloc, said, words),
        "all_copied" => say_all_copied(alloc, said, words),
        "pushed" | "count" | "second" | "top" | "stack_copied" => {
            say_pushed(alloc, said, verb, words)
        }
        _ => say_bytes(alloc, said, verb, words),
    }
}

fn put_wrong(wrong: &mut String, row: &str, said: &str) -> Result<(), AllocError> {
    wrong.push_str(row)?;
    wrong.push_str(" but ")?;
    wrong.push_str(said)
}

fn put_row(alloc: Global, wrong: &mut String, row: &str) -> Result<(), AllocError> {
    let (call, wanted) = row.split_once(" = ").unwrap_or((row, "no answer"));
    let mut said = String::new(alloc);
    say(alloc, &mut said, call);
    if said.as_str() == wanted {
        return Ok(());
    }
    put_wrong(wrong, row, said.as_str())
}

// The rows that are wrong.
fn wrong_rows(alloc: Global, rows: &str) -> Result<String, AllocError> {
    let mut wrong = String::new(alloc);
    for row in rows.lines() {
        put_row(alloc, &mut wrong, row)?;
    }
    Ok(wrong)
}

#[test]
fn tables_declare_the_frames_that_the_rules_say(rt: HostRuntime) -> Result<(), AllocError> {
    assert_eq!(rt; wrong_rows(rt.alloc(), TABLES)?.as_str(), "");
    Ok(())
}

// The whole table with the frames that it declares.
fn whole_row() -> (&'static str, &'static str) {
    let row = WHOLE.strip_prefix("table ").unwrap_or("");
    row.split_once(" = ").unwrap_or(("", ""))
}

// Notes a front of the whole table that isn't read as wanted.
fn put_front(
    alloc: Global,
    wrong: &mut String,
    front: &[u8],
    wanted: &str,
) -> Result<(), AllocError> {
    let mut said = String::new(alloc);
    let map = Items::from_slice(alloc, front)?;
    say_table(alloc, &mut said, whole_row().0, CODE, Some(map));
    if said.as_str() == wanted {
        return Ok(());
    }
    put_wrong(wrong, wanted, said.as_str())
}

// What is wrong of the fronts of the whole table, of it, and of it with one byte more.
fn put_fronts(alloc: Global, wrong: &mut String, longer: &[u8]) -> Result<(), AllocError> {
    for size in 0..longer.len() {
        let is_whole = longer.len() - size == 1;
        let wanted = if is_whole { whole_row().1 } else { "bad" };
        put_front(alloc, wrong, &longer[..size], wanted)?;
    }
    put_front(alloc, wrong, longer, "bad")
}

fn wrong_fronts(alloc: Global) -> Result<String, AllocError> {
    let mut longer = bytes(alloc, part(whole_row().0, 3));
    longer.push(0)?;
    let mut wrong = String::new(alloc);
    put_fronts(alloc, &mut wrong, longer.as_slice())?;
    Ok(wrong)
}

#[test]
fn a_table_is_read_to_its_end(rt: HostRuntime) -> Result<(), AllocError> {
    assert_eq!(rt; wrong_fronts(rt.alloc())?.as_str(), "");
    Ok(())
}

#[test]
fn a_table_is_spelled(_rt: HostRuntime) {
    tables_are_spelled(&[0, 1, 3]);
}

// Codes without a table or with the first frame at a goto, where instructions begin, the room of stacks, and copies.
static CALLS: &str = "table I,1,0,- = 
goto IJ.N,4,0,00 01 03 = 3 IJ.N|
instructions bb 00 02 59 a7 00 03 b1 = 0 new 3;3 old 4;4 old 7;7 old 8;
starts bb 00 02 59 a7 00 03 b1 =  0 3 4 7
bad bb 00 02 59 a7 00 03 b1 = 4 none
code bb 00 02 59 a7 00 03 b1 = same
bad  = 0 none
bad bb 00 = 0 0
bad 59 ff 59 = 1 1
nops 65535 = 65535 none
nops 65536 = 0 0
pushed 4 IJDFN = FJI
count 4 IJDFN = 3
second 4 IJDFN = 2
top 4 IJDFN = F full
turned UIU UJ = LA;ILA;|JLA;
made 7 = same
made 8 = other
made this = other
made_copy 7 = @7
all_copied .IFDJNU = .IFDJNU
stack_copied 9 IJ = JI
";

#[test]
fn places_stacks_and_copies_are_as_the_rules_say(rt: HostRuntime) -> Result<(), AllocError> {
    assert_eq!(rt; wrong_rows(rt.alloc(), CALLS)?.as_str(), "");
    Ok(())
}
