// What no contract says: that lines are read where memory suffices. And lines on both sides of each rule.
use crate::text_table::LINES;
use asm_text::{
    Constant, FieldLine, Operation, Statement, lines_are_cut, statements, tokens_are_cut,
};
use std::alloc::{AllocError, Global};
use std::test::Fail;

fn operation_word(operation: &Operation) -> &'static str {
    match operation {
        Operation::Plain(_) => "plain",
        Operation::Byte(_, _) => "byte",
        Operation::Short(_, _) => "short",
        Operation::Load(_, _) => "load",
        Operation::Local(_, _) => "local",
        Operation::Iinc(_, _, _) => "iinc",
        Operation::Branch(_, _) => "branch",
        Operation::Member(_, _, _) => "member",
        Operation::Interface(_, _, _) => "interface",
        Operation::ClassOf(_, _) => "classof",
        Operation::NewArray(_, _) => "newarray",
        Operation::MultiArray(_, _, _) => "multiarray",
        Operation::TableSwitch(_, _, _, _) => "table",
        Operation::LookupSwitch(_, _, _) => "lookup",
    }
}

fn statement_word(statement: &Statement) -> &'static str {
    match statement {
        Statement::Blank => "blank",
        Statement::Class(_) => "class",
        Statement::Version(_) => "version",
        Statement::Field(_) => "field",
        Statement::Method(_) => "method",
        Statement::Code(_) => "code",
        Statement::Label(_) => "label",
        Statement::Operation(operation) => operation_word(operation),
        Statement::Catch(_) => "catch",
        Statement::Frame(_) => "frame",
        Statement::End => "end",
    }
}

fn say_hex(alloc: Global, said: &mut String, bytes: &[u8]) -> Result<(), AllocError> {
    for byte in bytes {
        let text = format!(in alloc; "{byte:02x}")?;
        said.push_str(text.as_str())?;
    }
    Ok(())
}

// The text that is the constant of a field.
fn say_constant(alloc: Global, said: &mut String, field: &FieldLine) -> Result<(), AllocError> {
    match &field.value {
        Some(Constant::Text(text)) => say_hex(alloc, said, text.as_slice()),
        _ => said.push_str("other"),
    }
}

// The text of a statement.
fn say_text(alloc: Global, said: &mut String, statement: &Statement) -> Result<(), AllocError> {
    match statement {
        Statement::Label(label) => say_hex(alloc, said, label.as_slice()),
        Statement::Field(field) => say_constant(alloc, said, field),
        _ => said.push_str("other"),
    }
}

// What a line is, or the text that it has.
fn say(
    alloc: Global,
    said: &mut String,
    verb: &str,
    line: &Option<Statement>,
) -> Result<(), AllocError> {
    match line {
        Some(statement) => match verb {
            "kind" => said.push_str(statement_word(statement)),
            _ => say_text(alloc, said, statement),
        },
        None => said.push_str("none"),
    }
}

fn put_wrong(wrong: &mut String, row: &str, said: &str) -> Result<(), AllocError> {
    wrong.push_str(row)?;
    wrong.push_str(" but ")?;
    wrong.push_str(said)?;
    wrong.push('\n')
}

// Notes a row whose first word isn't what its line is.
fn put_row(
    alloc: Global,
    wrong: &mut String,
    verb: &str,
    row: &str,
    line: &Option<Statement>,
) -> Result<(), AllocError> {
    let (wanted, _) = row.split_once(' ').unwrap_or((row, ""));
    let mut said = String::new(alloc);
    say(alloc, &mut said, verb, line)?;
    if said.as_str() != wanted {
        put_wrong(wrong, row, said.as_str())?;
    }
    Ok(())
}

// The rows that are wrong, of lines in their order.
fn put_rows(
    alloc: Global,
    wrong: &mut String,
    verb: &str,
    rows: &str,
    lines: &[Option<Statement>],
) -> Result<(), AllocError> {
    for (row, line) in rows.lines().zip(lines) {
        put_row(alloc, wrong, verb, row, line)?;
    }
    Ok(())
}

fn wrong_rows(alloc: Global, verb: &str, text: &[u8], rows: &str) -> Result<String, AllocError> {
    let lines = statements(alloc, text)?;
    let mut wrong = String::new(alloc);
    if lines.len() != rows.lines().count() {
        wrong.push_str("another number of lines\n")?;
    }
    put_rows(alloc, &mut wrong, verb, rows, lines.as_slice())?;
    Ok(wrong)
}

// The text of the table's lines.
fn table_text(alloc: Global) -> Result<String, AllocError> {
    let mut text = String::new(alloc);
    for row in LINES.lines() {
        let (_, line) = row.split_once(' ').unwrap_or((row, ""));
        text.push_str(line)?;
        text.push('\n')?;
    }
    Ok(text)
}

fn wrong_lines(alloc: Global) -> Result<String, AllocError> {
    let text = table_text(alloc)?;
    wrong_rows(alloc, "kind", text.as_bytes(), LINES)
}

#[test]
fn each_line_is_of_its_kind(rt: HostRuntime) -> Result<(), Fail> {
    assert_eq!(rt; wrong_lines(rt.alloc())?.as_str(), "");
    Ok(())
}

// Each escape, a character above U+FFFF, a tab, no UTF-8, an empty line, and a last line without LF.
static TEXT: &[u8] =
    b"field 0x0008 a Ljava/lang/String; \"\\\"\\\\\\n\\t\\u0000\\uD83d \xf0\x9f\x98\x80\xc3\xa9\"
a\tb:
\xff:

\xf0\x9f\x98\x80:";

#[test]
fn texts_are_in_modified_utf8(rt: HostRuntime) -> Result<(), Fail> {
    let rows = "225c0a09c080eda0bd20eda0bdedb880c3a9
610962
none
other
eda0bdedb880";
    assert_eq!(rt; wrong_rows(rt.alloc(), "text", TEXT, rows)?.as_str(), "");
    Ok(())
}

#[test]
fn the_laws_stand(_rt: HostRuntime) {
    tokens_are_cut();
    lines_are_cut();
}
