//! The grammar of a line.
ghost use Rattle.std.specs.Prelude.{◌≡◌, ◌<◌, ◌-◌, length, position, slice_get, IfOk, IfSome};
ghost use Rattle.std.specs.Option.{option_map};
ghost use Rattle.class_tree.specs.Trees.{each};
ghost use Rattle.asm_text.specs.Outcome.{Yields};
ghost use Rattle.asm_text.specs.Numbers as numbers;
ghost use Rattle.asm_text.specs.Grammar.{is_dash, superclass, class_line, version_line, optional_value, field_line, method_line, code_line, caught, catch_line, letter_type, object_type, type_of, is_bar, frame_line, is_colon, label_of, operation_line, label_or_operation, end_line, is_comment, member_statement, statement_of};

use crate::fault::LineFault;
use crate::numbers::flags;
use crate::operations::{number_of_two, operation_of};
use crate::statement::{
    CatchLine, ClassLine, CodeLine, Constant, FieldLine, FrameLine, FrameType, MethodLine,
    Statement,
};
use crate::words::{
    are_class_words, are_field_words, are_method_words, copies, copy, is_class_word,
    is_operand_word, is_path_word, is_word, value_of,
};
use class_tree::{is_class_or_array, is_static};
use sqlite_items::Items;
use std::alloc::{AllocError, Global};

fn flags_of(token: &[u8]) -> Result<u16, LineFault>
    ensures { Yields (λ n. n) result (numbers.flags token.now) }
{
    let Some(bits) = flags(token) else {
        return Err(LineFault::Outside);
    };
    Ok(bits)
}

// ---- classes and their members

fn is_dash(token: &[u8]) -> bool
    ensures { result ≡ is_dash token.now }
{
    token == b"-".as_slice()
}

fn superclass(alloc: Global, token: &Items<u8>) -> Result<Option<Items<u8>>, AllocError>
    ensures { IfOk result (λ sup. sup ≡ superclass token.now) }
{
    if is_dash(token.as_slice()) {
        return Ok(None);
    }
    let name = copy(alloc, token)?;
    Ok(Some(name))
}

// The words of a class line, once they are tested.
fn class_words(
    alloc: Global,
    flags: u16,
    name: &Items<u8>,
    sup: &Items<u8>,
    interfaces: &[Items<u8>],
) -> Result<ClassLine, AllocError>
    ensures { IfOk result (λ line. line ≡ record { flags = flags; name = name.now; sup = superclass sup.now; interfaces = interfaces.now }) }
{
    let name = copy(alloc, name)?;
    let sup = superclass(alloc, sup)?;
    let interfaces = copies(alloc, interfaces)?;
    Ok(ClassLine {
        flags,
        name,
        sup,
        interfaces,
    })
}

// FLAGS NAME SUPER INTERFACE ..
#[tactic(auto, unfolding(crate::specs::Grammar::class_line))]
fn class_line(alloc: Global, rest: &[Items<u8>]) -> Result<Statement, LineFault>
    ensures { Yields (λ s. s) result (class_line rest.now) }
{
    let [bits, name, sup, interfaces @ ..] = rest else {
        return Err(LineFault::Outside);
    };
    let flags = flags_of(bits.as_slice())?;
    let has_path = is_path_word(alloc, name.as_slice())?;
    if !(has_path
        && (is_dash(sup.as_slice()) || is_class_word(sup.as_slice()))
        && are_class_words(interfaces))
    {
        return Err(LineFault::Outside);
    }
    Ok(Statement::Class(class_words(alloc, flags, name, sup, interfaces)?))
}

// N
#[tactic(auto, unfolding(crate::specs::Grammar::version_line))]
fn version_line(rest: &[Items<u8>]) -> Result<Statement, LineFault>
    ensures { Yields (λ s. s) result (version_line rest.now) }
{
    let [n] = rest else {
        return Err(LineFault::Outside);
    };
    let version = number_of_two(n.as_slice())?;
    Ok(Statement::Version(version))
}

fn optional_value(
    alloc: Global,
    flags: u16,
    desc: &[u8],
    rest: &[Items<u8>],
) -> Result<Option<Constant>, LineFault>
    ensures { Yields (λ v. v) result (optional_value flags desc.now rest.now) }
{
    let [token, more @ ..] = rest else {
        return Ok(None);
    };
    let [] = more else {
        return Err(LineFault::Outside);
    };
    if !is_static(flags) {
        return Err(LineFault::Outside);
    }
    let value = value_of(alloc, desc, token.as_slice())?;
    Ok(Some(value))
}

// The words of a field line, once they are tested, and its value.
fn field_words(
    alloc: Global,
    flags: u16,
    name: &Items<u8>,
    desc: &Items<u8>,
    value: Option<Constant>,
) -> Result<FieldLine, AllocError>
    ensures { IfOk result (λ line. line ≡ record { flags = flags; name = name.now; desc = desc.now; value = value }) }
{
    let name = copy(alloc, name)?;
    let desc = copy(alloc, desc)?;
    Ok(FieldLine {
        flags,
        name,
        desc,
        value,
    })
}

// FLAGS NAME DESC, and a value
#[tactic(auto, unfolding(crate::specs::Grammar::field_line))]
fn field_line(alloc: Global, rest: &[Items<u8>]) -> Result<Statement, LineFault>
    ensures { Yields (λ s. s) result (field_line rest.now) }
{
    let [bits, name, desc, rest @ ..] = rest else {
        return Err(LineFault::Outside);
    };
    let flags = flags_of(bits.as_slice())?;
    if !are_field_words(name.as_slice(), desc.as_slice()) {
        return Err(LineFault::Outside);
    }
    let value = optional_value(alloc, flags, desc.as_slice(), rest)?;
    Ok(Statement::Field(field_words(alloc, flags, name, desc, value)?))
}

// FLAGS NAME DESC
#[tactic(auto, unfolding(crate::specs::Grammar::method_line))]
fn method_line(alloc: Global, rest: &[Items<u8>]) -> Result<Statement, LineFault>
    ensures { Yields (λ s. s) result (method_line rest.now) }
{
    let [bits, name, desc] = rest else {
        return Err(LineFault::Outside);
    };
    let flags = flags_of(bits.as_slice())?;
    if !are_method_words(flags, name.as_slice(), desc.as_slice()) {
        return Err(LineFault::Outside);
    }
    let name = copy(alloc, name)?;
    let desc = copy(alloc, desc)?;
    Ok(Statement::Method(MethodLine { flags, name, desc }))
}

// ---- code

// STACK LOCALS
#[tactic(auto, unfolding(crate::specs::Grammar::code_line))]
fn code_line(rest: &[Items<u8>]) -> Result<Statement, LineFault>
    ensures { Yields (λ s. s) result (code_line rest.now) }
{
    let [stack, locals] = rest else {
        return Err(LineFault::Outside);
    };
    let stack = number_of_two(stack.as_slice())?;
    let locals = number_of_two(locals.as_slice())?;
    Ok(Statement::Code(CodeLine { stack, locals }))
}

fn caught(alloc: Global, token: &Items<u8>) -> Result<Option<Items<u8>>, AllocError>
    ensures { IfOk result (λ class. class ≡ caught token.now) }
{
    if token.as_slice() == b"any".as_slice() {
        return Ok(None);
    }
    let class = copy(alloc, token)?;
    Ok(Some(class))
}

// The words of a catch line, once they are tested.
fn catch_words(
    alloc: Global,
    from: &Items<u8>,
    to: &Items<u8>,
    handler: &Items<u8>,
    class: &Items<u8>,
) -> Result<CatchLine, AllocError>
    ensures { IfOk result (λ line. line ≡ record { from = from.now; to = to.now; handler = handler.now; class = caught class.now }) }
{
    let from = copy(alloc, from)?;
    let to = copy(alloc, to)?;
    let handler = copy(alloc, handler)?;
    let class = caught(alloc, class)?;
    Ok(CatchLine {
        from,
        to,
        handler,
        class,
    })
}

// FROM TO HANDLER CLASS
#[tactic(auto, unfolding(crate::specs::Grammar::catch_line))]
fn catch_line(alloc: Global, rest: &[Items<u8>]) -> Result<Statement, LineFault>
    ensures { Yields (λ s. s) result (catch_line rest.now) }
{
    let [from, to, handler, class] = rest else {
        return Err(LineFault::Outside);
    };
    if !(is_word(from.as_slice())
        && is_word(to.as_slice())
        && is_word(handler.as_slice())
        && is_operand_word(class.as_slice()))
    {
        return Err(LineFault::Outside);
    }
    Ok(Statement::Catch(catch_words(alloc, from, to, handler, class)?))
}

fn letter_type(b: u8) -> Option<FrameType>
    ensures { result ≡ letter_type b }
{
    if b == b'T' {
        Some(FrameType::Top)
    } else if b == b'I' {
        Some(FrameType::Integer)
    } else if b == b'F' {
        Some(FrameType::Float)
    } else if b == b'D' {
        Some(FrameType::Double)
    } else if b == b'J' {
        Some(FrameType::Long)
    } else if b == b'N' {
        Some(FrameType::Null)
    } else if b == b'U' {
        Some(FrameType::UninitializedThis)
    } else {
        None
    }
}

// :NAME
fn object_type(alloc: Global, rest: &[u8]) -> Result<FrameType, LineFault>
    ensures { Yields (λ t. t) result (object_type rest.now) }
{
    let [b, name @ ..] = rest else {
        return Err(LineFault::Outside);
    };
    if !(*b == b':' && is_class_or_array(name)) {
        return Err(LineFault::Outside);
    }
    let name = Items::from_slice(alloc, name)?;
    Ok(FrameType::Object(name))
}

// A letter, O:NAME, or @LABEL
#[tactic(auto, unfolding(crate::specs::Grammar::type_of))]
fn type_of(alloc: Global, token: &[u8]) -> Result<FrameType, LineFault>
    ensures { Yields (λ t. t) result (type_of token.now) }
{
    let [b, rest @ ..] = token else {
        return Err(LineFault::Outside);
    };
    if *b == b'@' {
        let label = Items::from_slice(alloc, rest)?;
        return Ok(FrameType::Uninitialized(label));
    }
    if *b == b'O' {
        return object_type(alloc, rest);
    }
    if rest.len() != 0 {
        return Err(LineFault::Outside);
    }
    let Some(letter) = letter_type(*b) else {
        return Err(LineFault::Outside);
    };
    Ok(letter)
}

fn types_of(alloc: Global, tokens: &[Items<u8>]) -> Result<Items<FrameType>, LineFault>
    ensures { Yields (λ ts. ts) result (each type_of tokens.now) }
{
    let mut types = Items::new(alloc);
    for token in tokens {
        let made = type_of(alloc, token.as_slice())?;
        types.push(made)?;
    }
    Ok(types)
}

fn is_bar(token: &[u8]) -> bool
    ensures { result ≡ is_bar token.now }
{
    token == b"|".as_slice()
}

fn bar_place(tokens: &[Items<u8>]) -> Option<usize>
    ensures value { result ≡ position is_bar tokens.now }
    ensures within { IfSome result (λ k. k < length tokens.now) }
{
    tokens.iter().position(|token| is_bar(token.as_slice()))
}

// LABEL LOCAL .. | ITEM ..
#[tactic(auto, unfolding(crate::specs::Grammar::frame_line))]
fn frame_line(alloc: Global, rest: &[Items<u8>]) -> Result<Statement, LineFault>
    ensures { Yields (λ s. s) result (frame_line rest.now) }
{
    let [label, types @ ..] = rest else {
        return Err(LineFault::Outside);
    };
    if !is_word(label.as_slice()) {
        return Err(LineFault::Outside);
    }
    let Some(bar) = bar_place(types) else {
        return Err(LineFault::Outside);
    };
    let (locals, _) = types.split_at(bar);
    let (_, stack) = types.split_at(bar + 1);
    let locals = types_of(alloc, locals)?;
    let stack = types_of(alloc, stack)?;
    let label = copy(alloc, label)?;
    Ok(Statement::Frame(FrameLine {
        label,
        locals,
        stack,
    }))
}

fn ends_in_colon(token: &[u8]) -> bool
    ensures { result ≡ is_colon (slice_get token.now (length token.now - 1)) }
{
    match token.get(token.len().saturating_sub(1)) {
        Some(b) => *b == b':',
        None => false,
    }
}

fn label_of(token: &[u8]) -> Option<&[u8]>
    ensures { option_map (λ label. label.now) result ≡ label_of token.now }
{
    if token.len() > 1 && is_word(token) && ends_in_colon(token) {
        let (label, _) = token.split_at(token.len() - 1);
        Some(label)
    } else {
        None
    }
}

fn operation_line(alloc: Global, word: &[u8], rest: &[Items<u8>]) -> Result<Statement, LineFault>
    ensures { Yields (λ s. s) result (operation_line word.now rest.now) }
{
    let operation = operation_of(alloc, word, rest)?;
    Ok(Statement::Operation(operation))
}

// LABEL:, or MNEMONIC OPERAND ..
fn label_or_operation(
    alloc: Global,
    word: &[u8],
    rest: &[Items<u8>],
) -> Result<Statement, LineFault>
    ensures { Yields (λ s. s) result (label_or_operation (label_of word.now) word.now rest.now) }
{
    let Some(label) = label_of(word) else {
        return operation_line(alloc, word, rest);
    };
    if !rest.is_empty() {
        return Err(LineFault::Outside);
    }
    let label = Items::from_slice(alloc, label)?;
    Ok(Statement::Label(label))
}

// ---- all lines

fn end_line(rest: &[Items<u8>]) -> Result<Statement, LineFault>
    ensures { Yields (λ s. s) result (end_line rest.now) }
{
    let [] = rest else {
        return Err(LineFault::Outside);
    };
    Ok(Statement::End)
}

fn is_comment(word: &[u8]) -> bool
    ensures { result ≡ is_comment word.now }
{
    let [b, ..] = word else {
        return false;
    };
    *b == b'#'
}

// What a line of a method says: of its code, or among the lines of that.
fn member_statement(alloc: Global, word: &[u8], rest: &[Items<u8>]) -> Result<Statement, LineFault>
    ensures { Yields (λ s. s) result (member_statement word.now rest.now) }
{
    if word == b"code".as_slice() {
        code_line(rest)
    } else if word == b"end".as_slice() {
        end_line(rest)
    } else if word == b"catch".as_slice() {
        catch_line(alloc, rest)
    } else if word == b"frame".as_slice() {
        frame_line(alloc, rest)
    } else {
        label_or_operation(alloc, word, rest)
    }
}

// What the tokens of a line say.
#[tactic(auto, unfolding(crate::specs::Grammar::statement_of))]
pub(crate) fn statement_of(alloc: Global, tokens: &[Items<u8>]) -> Result<Statement, LineFault>
    ensures { Yields (λ s. s) result (statement_of tokens.now) }
{
    let [word, rest @ ..] = tokens else {
        return Ok(Statement::Blank);
    };
    let word = word.as_slice();
    if is_comment(word) {
        Ok(Statement::Blank)
    } else if word == b"class".as_slice() {
        class_line(alloc, rest)
    } else if word == b"version".as_slice() {
        version_line(rest)
    } else if word == b"field".as_slice() {
        field_line(alloc, rest)
    } else if word == b"method".as_slice() {
        method_line(alloc, rest)
    } else {
        member_statement(alloc, word, rest)
    }
}
