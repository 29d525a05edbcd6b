// What no contract says: that a tree is written where memory suffices. The expected class files were made by hand after
// JVMS 4.1 to 4.7. A word is a byte in hexadecimal, or a text behind a quote.
use class_encoder::{encode, encoded_trees_spell};
use class_tree::{ClassTree, CodeTree, FieldTree, Handler, MethodTree, Pool, read_pool};
use jsa_base::Cursor;
use sqlite_items::Items;
use std::alloc::{AllocError, Global};

// A class under java.lang.Object, without members.
static PLAIN: &str = "ca fe ba be 00 00 00 34
00 05 01 00 01 'A 07 00 01 01 00 10 'java/lang/Object 07 00 03
00 21 00 02 00 04 00 00
00 00
00 00
00 00
";

// An interface, a field with a constant and one without, methods with and without code. Of the two Utf8 with the name of
// the Code the first is used.
static MEMBERS: &str = "ca fe ba be 00 00 00 34
00 0d 01 00 01 'A 07 00 01 01 00 10 'java/lang/Object 07 00 03
01 00 0d 'ConstantValue 01 00 04 'Code 01 00 0d 'StackMapTable 01 00 01 'I
03 00 00 00 07 01 00 01 'm 01 00 03 '()V 01 00 04 'Code
00 21 00 02 00 04 00 01 00 04
00 02
00 18 00 01 00 08 00 01 00 05 00 00 00 02 00 09
00 02 00 0a 00 08 00 00
00 03
00 09 00 0a 00 0b 00 01
00 06 00 00 00 2b 00 02 00 01 00 00 00 03 03 57 b1
00 02 00 00 00 01 00 02 00 00 00 01 00 02 00 03 00 04
00 01 00 07 00 00 00 06 00 01 42 07 00 04
04 01 00 01 00 0b 00 00
00 09 00 01 00 0b 00 01 00 06 00 00 00 0d 00 00 01 00 00 00 00 01 b1 00 00 00 00
00 00
";

// The same members where the pool has none of the names.
static NAMELESS: &str = "ca fe ba be 00 00 00 34
00 05 01 00 01 'A 07 00 01 01 00 10 'java/lang/Object 07 00 03
00 21 00 02 00 04 00 01 00 04
00 02
00 18 00 01 00 08 00 01 00 00 00 00 00 02 00 09
00 02 00 0a 00 08 00 00
00 03
00 09 00 0a 00 0b 00 01
00 00 00 00 00 2b 00 02 00 01 00 00 00 03 03 57 b1
00 02 00 00 00 01 00 02 00 00 00 01 00 02 00 03 00 04
00 01 00 00 00 00 00 06 00 01 42 07 00 04
04 01 00 01 00 0b 00 00
00 09 00 01 00 0b 00 01 00 00 00 00 00 0d 00 00 01 00 00 00 00 01 b1 00 00 00 00
00 00
";

// What is pushed is short where memory runs out, and the bytes that are made of it are others then.
fn push_word(bytes: &mut Vec<u8>, word: &str) {
    match word.strip_prefix('\'') {
        Some(text) => {
            let _kept = bytes.extend_from_slice(text.as_bytes());
        }
        None => {
            let _kept = bytes.push(u8::from_str_radix(word, 16).unwrap_or(0));
        }
    }
}

fn bytes_of(alloc: Global, lines: &str) -> Vec<u8> {
    let mut bytes = Vec::new(alloc);
    for word in lines.split_whitespace() {
        push_word(&mut bytes, word);
    }
    bytes
}

// The pool of a class file.
fn pool_of(alloc: Global, lines: &str) -> Pool {
    let bytes = bytes_of(alloc, lines);
    let mut cursor = Cursor::new(bytes.get(8..).unwrap_or(&[]));
    match read_pool(alloc, &mut cursor) {
        Ok(pool) => pool,
        Err(_) => Pool::new(Items::new(alloc)),
    }
}

// A class with this pool, and no members.
fn class(alloc: Global, pool: Pool) -> ClassTree {
    ClassTree {
        major: 52,
        flags: 0x21,
        pool,
        this: 2,
        sup: 4,
        interfaces: Items::new(alloc),
        fields: Items::new(alloc),
        methods: Items::new(alloc),
    }
}

fn fields(alloc: Global) -> Result<Items<FieldTree>, AllocError> {
    let with_constant = FieldTree {
        flags: 0x18,
        name: 1,
        desc: 8,
        value: 9,
    };
    let without = FieldTree {
        flags: 2,
        name: 10,
        desc: 8,
        value: 0,
    };
    Items::from_slice(alloc, &[with_constant, without])
}

fn handler(start: u16, end: u16, handler: u16, catch: u16) -> Handler {
    Handler {
        start,
        end,
        handler,
        catch,
    }
}

fn bytes_from(alloc: Global, bytes: &[u8]) -> Items<u8> {
    match Items::from_slice(alloc, bytes) {
        Ok(items) => items,
        Err(_) => Items::new(alloc),
    }
}

fn handlers(alloc: Global) -> Items<Handler> {
    match Items::from_slice(alloc, &[handler(0, 1, 2, 0), handler(1, 2, 3, 4)]) {
        Ok(items) => items,
        Err(_) => Items::new(alloc),
    }
}

// Code with two handlers and a StackMapTable.
fn handling(alloc: Global) -> CodeTree {
    CodeTree {
        stack: 2,
        locals: 1,
        bytes: bytes_from(alloc, &[3, 0x57, 0xb1]),
        handlers: handlers(alloc),
        map: Some(bytes_from(alloc, &[0, 1, 0x42, 7, 0, 4])),
    }
}

// Code that returns.
fn returning(alloc: Global) -> CodeTree {
    CodeTree {
        stack: 0,
        locals: 0x100,
        bytes: bytes_from(alloc, &[0xb1]),
        handlers: Items::new(alloc),
        map: None,
    }
}

fn method(flags: u16, name: u16, code: Option<CodeTree>) -> MethodTree {
    MethodTree {
        flags,
        name,
        desc: 11,
        code,
    }
}

fn methods(alloc: Global) -> Items<MethodTree> {
    let mut methods = Items::new(alloc);
    let _first = methods.push(method(9, 10, Some(handling(alloc))));
    let _second = methods.push(method(0x401, 1, None));
    let _third = methods.push(method(9, 1, Some(returning(alloc))));
    methods
}

fn with_members(alloc: Global, pool: Pool) -> Result<ClassTree, AllocError> {
    let mut tree = class(alloc, pool);
    tree.interfaces = Items::from_slice(alloc, &[4])?;
    tree.fields = fields(alloc)?;
    tree.methods = methods(alloc);
    Ok(tree)
}

// A class with so many superinterfaces.
fn with_interfaces(alloc: Global, pool: Pool, count: u32) -> ClassTree {
    let mut tree = class(alloc, pool);
    for _ in 0..count {
        let _kept = tree.interfaces.push(4);
    }
    tree
}

// Whether a class is written as these bytes.
fn written_word(alloc: Global, tree: &ClassTree, lines: &str) -> &'static str {
    match encode(alloc, tree) {
        Ok(bytes) => {
            if bytes.as_slice() == bytes_of(alloc, lines).as_slice() {
                "same"
            } else {
                "other"
            }
        }
        Err(_) => "memory",
    }
}

fn members_word(alloc: Global, lines: &str) -> &'static str {
    match with_members(alloc, pool_of(alloc, lines)) {
        Ok(tree) => written_word(alloc, &tree, lines),
        Err(_) => "no class",
    }
}

// Whether the class without members has its 53 bytes.
fn size_word(alloc: Global) -> &'static str {
    match encode(alloc, &class(alloc, pool_of(alloc, PLAIN))) {
        Ok(bytes) => if bytes.len() == 53 { "53" } else { "another" },
        Err(_) => "memory",
    }
}

// What comes of a class.
fn said(alloc: Global, call: &str) -> &'static str {
    match call {
        "plain" => written_word(alloc, &class(alloc, pool_of(alloc, PLAIN)), PLAIN),
        "size of plain" => size_word(alloc),
        "members" => members_word(alloc, MEMBERS),
        "nameless members" => members_word(alloc, NAMELESS),
        _ => written_word(
            alloc,
            &with_interfaces(alloc, pool_of(alloc, PLAIN), 70_000),
            PLAIN,
        ),
    }
}

fn put_wrong(wrong: &mut String, row: &str, said: &str) -> Result<(), AllocError> {
    wrong.push_str(row)?;
    wrong.push_str(" but ")?;
    wrong.push_str(said)
}

// The rows that are wrong.
fn wrong_rows(alloc: Global, rows: &str) -> Result<String, AllocError> {
    let mut wrong = String::new(alloc);
    for row in rows.lines() {
        let (call, wanted) = row.split_once(" = ").unwrap_or((row, "no answer"));
        let word = said(alloc, call);
        if word != wanted {
            put_wrong(&mut wrong, row, word)?;
        }
    }
    Ok(wrong)
}

#[test]
fn classes_are_written_and_too_many_interfaces_refused(rt: HostRuntime) -> Result<(), AllocError> {
    let rows = "plain = same
size of plain = 53
members = same
nameless members = same
70000 interfaces = memory";
    assert_eq!(rt; wrong_rows(rt.alloc(), rows)?.as_str(), "");
    Ok(())
}

#[test]
fn the_law_stands(_rt: HostRuntime) {
    encoded_trees_spell();
}
