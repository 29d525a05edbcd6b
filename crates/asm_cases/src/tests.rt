// What no contract says: that the definitions are the language's, by rows that were written from its description; and
// that a text is read where memory suffices. A row is a text whose lines end at `~`, and behind ` = ` what it stands for.
use crate::test_table::{BAD, CLASSES, INSTRUCTIONS};
use class_asm::{
    AsmFault, assemble, classes_have_paths, labels_stand, lines_decode, needs_are_built,
    pools_are_built, sizes_stand,
};
use class_tree::{ClassTree, CodeTree, FieldTree, Handler, MethodTree};
use std::alloc::{AllocError, Global};

// ---- what goes in

// A text whose lines end at `~`.
fn text_of(alloc: Global, line: &str) -> Vec<u8> {
    let mut text = Vec::new(alloc);
    for byte in line.as_bytes() {
        let _kept = text.push(if *byte == b'~' { b'\n' } else { *byte });
    }
    text
}

// The trees of a text.
fn read(alloc: Global, text: &[u8]) -> Result<Vec<ClassTree>, AsmFault> {
    if text.len() > 100_000_000 {
        return Err(AsmFault::Memory);
    }
    assemble(alloc, text)
}

fn number(text: &str) -> u32 {
    text.parse::<u32>().unwrap_or(0)
}

// Bytes in hexadecimal.
fn bytes_of(alloc: Global, words: &str) -> Vec<u8> {
    let mut bytes = Vec::new(alloc);
    for word in words.split(' ') {
        let _kept = bytes.push(u8::from_str_radix(word, 16).unwrap_or(0));
    }
    bytes
}

// A code that begins with the label L and then has this line.
fn code_text(alloc: Global, line: &str) -> String {
    let mut text = String::new(alloc);
    put(
        &mut text,
        "class 0x0021 A -~method 0x0009 m ()V~code 0 0~L:~",
    );
    put(&mut text, line);
    put(&mut text, "~end");
    text
}

// A class of so many fields with a constant.
fn fields_of(alloc: Global, count: u32) -> String {
    let mut text = String::new(alloc);
    put(&mut text, "class 0x0021 A java/lang/Object\n");
    for n in 0..count {
        if let Ok(line) = format!(in alloc; "field 0x0009 f{n} I {n}\n") {
            put(&mut text, line.as_str());
        }
    }
    text
}

// A method of so many instructions.
fn nops_of(alloc: Global, count: u32) -> String {
    let mut text = String::new(alloc);
    put(
        &mut text,
        "class 0x0021 A -\nmethod 0x0009 m ()V\ncode 0 0\n",
    );
    for _ in 0..count {
        put(&mut text, "nop\n");
    }
    put(&mut text, "end");
    text
}

// ---- what comes out

// Adds to what is said. Where memory runs out the text is short, and its row wrong.
fn put(said: &mut String, text: &str) {
    let _kept = said.push_str(text);
}

fn say_number(alloc: Global, said: &mut String, number: u64) {
    if let Ok(text) = format!(in alloc; "{number}") {
        put(said, text.as_str());
    }
}

fn say_flags(alloc: Global, said: &mut String, flags: u16) {
    if let Ok(text) = format!(in alloc; "{flags:04x}") {
        put(said, text.as_str());
    }
}

fn say_byte(alloc: Global, said: &mut String, byte: u8) {
    if let Ok(text) = format!(in alloc; "{byte:02x}") {
        put(said, text.as_str());
    }
}

fn say_hex(alloc: Global, said: &mut String, bytes: &[u8]) {
    for byte in bytes {
        say_byte(alloc, said, *byte);
    }
}

// Numbers with this between two.
fn say_numbers(alloc: Global, said: &mut String, numbers: &[u16], between: &str) {
    let mut gap = "";
    for number in numbers {
        put(said, gap);
        say_number(alloc, said, u64::from(*number));
        gap = between;
    }
}

fn say_row(alloc: Global, said: &mut String, numbers: &[u16]) {
    put(said, "(");
    say_numbers(alloc, said, numbers, ", ");
    put(said, ")");
}

fn say_fault(alloc: Global, said: &mut String, fault: AsmFault) {
    match fault {
        AsmFault::Line(line) => {
            put(said, "line ");
            say_number(alloc, said, u64::from(line))
        }
        AsmFault::Memory => put(said, "memory"),
    }
}

fn say_handlers(alloc: Global, said: &mut String, handlers: &[Handler]) {
    for h in handlers {
        put(said, " catch ");
        say_row(alloc, said, &[h.start, h.end, h.handler, h.catch]);
    }
}

fn say_map(alloc: Global, said: &mut String, map: &[u8]) {
    put(said, " map ");
    say_hex(alloc, said, map);
}

fn say_code(alloc: Global, said: &mut String, code: &CodeTree) {
    put(said, " code ");
    say_numbers(alloc, said, &[code.stack, code.locals], " ");
    put(said, " ");
    say_hex(alloc, said, code.bytes.as_slice());
    say_handlers(alloc, said, code.handlers.as_slice());
    match &code.map {
        Some(map) => say_map(alloc, said, map.as_slice()),
        None => (),
    }
}

fn say_method(alloc: Global, said: &mut String, method: &MethodTree) {
    put(said, " method ");
    say_flags(alloc, said, method.flags);
    put(said, " ");
    say_numbers(alloc, said, &[method.name, method.desc], " ");
    match &method.code {
        Some(code) => say_code(alloc, said, code),
        None => (),
    }
}

fn say_methods(alloc: Global, said: &mut String, methods: &[MethodTree]) {
    for method in methods {
        say_method(alloc, said, method);
    }
}

fn say_fields(alloc: Global, said: &mut String, fields: &[FieldTree]) {
    for f in fields {
        put(said, " field ");
        say_row(alloc, said, &[f.flags, f.name, f.desc, f.value]);
    }
}

// The version, the flags, the class, its superclass and its superinterfaces.
fn say_class(alloc: Global, said: &mut String, tree: &ClassTree) {
    put(said, "; ");
    say_row(alloc, said, &[tree.major, tree.flags, tree.this, tree.sup]);
    put(said, " [");
    say_numbers(alloc, said, tree.interfaces.as_slice(), ", ");
    put(said, "]");
}

// Each class and its members.
fn say_trees(alloc: Global, said: &mut String, trees: &[ClassTree]) {
    for tree in trees {
        say_class(alloc, said, tree);
        say_fields(alloc, said, tree.fields.as_slice());
        say_methods(alloc, said, tree.methods.as_slice());
    }
}

// The bytes of the code of the first method.
fn code_of<'a>(trees: &'a [ClassTree]) -> Option<&'a [u8]> {
    let tree = trees.first()?;
    let method = tree.methods.as_slice().first()?;
    let code = method.code.as_ref()?;
    Some(code.bytes.as_slice())
}

// The text at an index of the pool of the first class.
fn pool_text<'a>(trees: &'a [ClassTree], index: u16) -> Option<&'a [u8]> {
    let tree = trees.first()?;
    tree.pool.text(index)
}

fn say_bytes(alloc: Global, said: &mut String, bytes: Option<&[u8]>) {
    match bytes {
        Some(bytes) => say_hex(alloc, said, bytes),
        None => put(said, "none"),
    }
}

// ---- rows

// What is asked of the trees of a text.
fn say_read(alloc: Global, said: &mut String, verb: &str, text: &[u8]) {
    let trees = match read(alloc, text) {
        Ok(trees) => trees,
        Err(fault) => return say_fault(alloc, said, fault),
    };
    match verb {
        "trees" => say_trees(alloc, said, trees.as_slice()),
        "code" => say_bytes(alloc, said, code_of(trees.as_slice())),
        "text_6" => say_bytes(alloc, said, pool_text(trees.as_slice(), 6)),
        _ => say_number(alloc, said, trees.len() as u64),
    }
}

fn say_line(alloc: Global, said: &mut String, verb: &str, line: &str) {
    let text = text_of(alloc, line);
    say_read(alloc, said, verb, text.as_slice());
}

fn say_instruction(alloc: Global, said: &mut String, line: &str) {
    let text = code_text(alloc, line);
    say_line(alloc, said, "code", text.as_str());
}

fn say_odd(alloc: Global, said: &mut String, words: &str) {
    let bytes = bytes_of(alloc, words);
    say_read(alloc, said, "count", bytes.as_slice());
}

fn say_large_class(alloc: Global, said: &mut String, count: &str) {
    let text = fields_of(alloc, number(count));
    say_read(alloc, said, "count", text.as_bytes());
}

fn say_long_code(alloc: Global, said: &mut String, count: &str) {
    let text = nops_of(alloc, number(count));
    say_read(alloc, said, "count", text.as_bytes());
}

// What a call of this verb answers.
fn say(alloc: Global, said: &mut String, verb: &str, words: &str) {
    match verb {
        "instruction" => say_instruction(alloc, said, words),
        "bytes" => say_odd(alloc, said, words),
        "fields" => say_large_class(alloc, said, words),
        "nops" => say_long_code(alloc, said, words),
        _ => say_line(alloc, said, verb, words),
    }
}

fn put_wrong(wrong: &mut String, row: &str, said: &str) -> Result<(), AllocError> {
    wrong.push_str(row)?;
    wrong.push_str(" but ")?;
    wrong.push_str(said)
}

fn put_row(alloc: Global, wrong: &mut String, verb: &str, row: &str) -> Result<(), AllocError> {
    let (call, wanted) = row.split_once(" = ").unwrap_or((row, "no answer"));
    let mut said = String::new(alloc);
    say(alloc, &mut said, verb, call);
    if said.as_str() == wanted {
        return Ok(());
    }
    put_wrong(wrong, row, said.as_str())
}

// The rows of a verb that are wrong.
fn wrong_rows(alloc: Global, verb: &str, rows: &str) -> Result<String, AllocError> {
    let mut wrong = String::new(alloc);
    for row in rows.lines() {
        put_row(alloc, &mut wrong, verb, row)?;
    }
    Ok(wrong)
}

#[test]
fn each_mnemonic_has_its_bytes(rt: HostRuntime) -> Result<(), AllocError> {
    assert_eq!(rt;
        wrong_rows(rt.alloc(), "instruction", INSTRUCTIONS)?.as_str(),
        ""
    );
    Ok(())
}

#[test]
fn the_first_bad_line_is_named(rt: HostRuntime) -> Result<(), AllocError> {
    assert_eq!(rt; wrong_rows(rt.alloc(), "trees", BAD)?.as_str(), "");
    Ok(())
}

#[test]
fn each_directive_has_its_tree(rt: HostRuntime) -> Result<(), AllocError> {
    assert_eq!(rt; wrong_rows(rt.alloc(), "trees", CLASSES)?.as_str(), "");
    Ok(())
}

#[test]
fn a_text_without_a_class_has_no_trees(rt: HostRuntime) -> Result<(), AllocError> {
    let rows = " = 0
~ = 0
# only a comment = 0
  ~#~ = 0";
    assert_eq!(rt; wrong_rows(rt.alloc(), "count", rows)?.as_str(), "");
    Ok(())
}

#[test]
fn a_line_is_utf_8(rt: HostRuntime) -> Result<(), AllocError> {
    let rows = "23 20 ff = line 1
23 0a 23 20 c0 80 = line 2
0a 0a 23 20 ed a0 80 0a = line 3";
    assert_eq!(rt; wrong_rows(rt.alloc(), "bytes", rows)?.as_str(), "");
    Ok(())
}

#[test]
fn a_quoted_text_is_modified_utf_8(rt: HostRuntime) -> Result<(), AllocError> {
    let row =
        r#"class 0x0021 A -~method 0x0009 m ()V~code 1 1~ldc "\u0000\"\\\n\t \ud800é😀"~end = c080225c0a0920eda080c3a9eda0bdedb880"#;
    assert_eq!(rt; wrong_rows(rt.alloc(), "text_6", row)?.as_str(), "");
    Ok(())
}

#[test]
fn a_pool_has_at_most_65535_indices(rt: HostRuntime) -> Result<(), AllocError> {
    assert_eq!(rt;
        wrong_rows(rt.alloc(), "fields", "32766 = line 32766")?.as_str(),
        ""
    );
    Ok(())
}

#[test]
fn a_code_has_at_most_65535_bytes(rt: HostRuntime) -> Result<(), AllocError> {
    let rows = "65535 = 1
65536 = line 65539";
    assert_eq!(rt; wrong_rows(rt.alloc(), "nops", rows)?.as_str(), "");
    Ok(())
}

#[test]
fn the_laws_stand(_rt: HostRuntime) {
    sizes_stand();
    labels_stand();
    lines_decode();
    needs_are_built();
    pools_are_built();
    classes_have_paths();
}
