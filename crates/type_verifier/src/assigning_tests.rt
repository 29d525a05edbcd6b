// Pairs of types with the questions that they take.
use crate::assigning::{assign, local_assign};
use crate::test_rows::wrong_rows;
use sqlite_items::Items;
use std::alloc::{AllocError, Global};
use verify_rules::{Ask, Cause, Stop, VType};

// A type, the one that it is assigned to, and the answer: `fine` without a question, `no`, or the question. `@3` is an
// object without `<init>` by the place of its `new`.
static PAIRS: &str = "Top Top = fine
Integer Integer = fine
Long Long = fine
Integer Top = no
Integer Float = no
Float Double = no
Long Integer = no
Double Long = no
Top Integer = no
Null Null = fine
Null a/A = fine
Null [I = fine
Null Integer = no
Null This = no
Null @3 = no
a/A Null = no
This This = fine
This a/A = no
This java/lang/Object = no
a/A This = no
@3 @3 = fine
@3 @4 = no
@3 a/A = no
@3 java/lang/Object = no
@3 This = no
a/A @3 = no
Integer a/A = no
Integer java/lang/Object = no
a/A Integer = no
a/A a/A = fine
a/A java/lang/Object = fine
a/A a/B = a/A>a/B
java/lang/Object a/A = java/lang/Object>a/A
a/A java/lang/Cloneable = a/A>java/lang/Cloneable
[I [I = fine
[I [J = no
[I java/lang/Object = fine
[I java/lang/Cloneable = fine
[I java/io/Serializable = fine
[I a/A = no
a/A [I = no
java/lang/Object [I = no
[La/A; [La/A; = fine
[La/A; [La/B; = a/A>a/B
[La/A; [Ljava/lang/Object; = fine
[La/A; [Ljava/lang/Cloneable; = a/A>java/lang/Cloneable
[Ljava/lang/Object; [La/A; = java/lang/Object>a/A
[La/A; a/A = no
[I [Ljava/lang/Object; = no
[Ljava/lang/Object; [I = no
[[I [[I = fine
[[I [I = no
[I [[I = no
[[I [Ljava/lang/Object; = fine
[[I [Ljava/lang/Cloneable; = fine
[[I [Ljava/io/Serializable; = fine
[[I [La/A; = no
[La/A; [[La/A; = no
[[I [[Ljava/lang/Object; = no
[[[I [[Ljava/lang/Object; = fine
[[La/A; [[La/B; = a/A>a/B
[[La/A; [Ljava/lang/Object; = fine
[[La/A; [[Ljava/lang/Object; = fine
";

/// A type by its word.
pub(crate) fn type_of(alloc: Global, word: &str) -> VType {
    match word.strip_prefix("@") {
        Some(place) => VType::Uninitialized(place.parse::<u32>().unwrap_or(0)),
        None => named_type(alloc, word),
    }
}

fn named_type(alloc: Global, word: &str) -> VType {
    match word {
        "Top" => VType::Top,
        "Integer" => VType::Integer,
        "Float" => VType::Float,
        "Double" => VType::Double,
        "Long" => VType::Long,
        "Null" => VType::Null,
        "This" => VType::UninitializedThis,
        _ => object(alloc, word.as_bytes()),
    }
}

fn object(alloc: Global, name: &[u8]) -> VType {
    match Items::from_slice(alloc, name) {
        Ok(name) => VType::Object(name),
        Err(_) => VType::Uninitialized(u32::MAX),
    }
}

/// Adds to what is said. Where memory runs out the text is short, and its row wrong.
pub(crate) fn put(said: &mut String, text: &str) {
    let _kept = said.push_str(text);
}

fn say_ask(said: &mut String, ask: &Ask) {
    put(
        said,
        str::from_utf8(ask.from.as_slice()).unwrap_or("no text"),
    );
    put(said, ">");
    put(said, str::from_utf8(ask.to.as_slice()).unwrap_or("no text"));
}

/// Questions, with a space between two.
pub(crate) fn say_asks(said: &mut String, asks: &[Ask]) {
    let mut gap = "";
    for ask in asks {
        put(said, gap);
        say_ask(said, ask);
        gap = " ";
    }
}

/// `fine`, or the name of the cause for which a test was refused.
pub(crate) fn word_of(answer: Result<(), Stop>) -> &'static str {
    match answer {
        Ok(()) => "fine",
        Err(Stop::Memory) => "Memory",
        Err(Stop::Fault(Cause::Mismatch)) => "no",
        Err(Stop::Fault(Cause::Length)) => "Length",
        Err(Stop::Fault(Cause::Unfinished)) => "Unfinished",
        Err(Stop::Fault(_)) => "another",
    }
}

// The questions of a test that holds, and else its answer.
fn say_answer(said: &mut String, word: &str, asks: &[Ask]) {
    if word != "fine" || asks.is_empty() {
        put(said, word);
    }
    say_asks(said, asks);
}

fn say_pair(alloc: Global, said: &mut String, is_local: bool, from: &VType, to: &VType) {
    let mut asks = Items::new(alloc);
    let answer = if is_local {
        local_assign(alloc, &mut asks, from, to)
    } else {
        assign(alloc, &mut asks, from, to)
    };
    say_answer(said, word_of(answer), asks.as_slice());
}

/// The answer to a type that is assigned to another, or to a local of another.
pub(crate) fn say_assigned(alloc: Global, said: &mut String, is_local: bool, words: &str) {
    let (from, to) = words.split_once(' ').unwrap_or((words, ""));
    let from = type_of(alloc, from);
    let to = type_of(alloc, to);
    say_pair(alloc, said, is_local, &from, &to);
}

#[test]
fn types_are_assigned_as_their_rules_say(rt: HostRuntime) -> Result<(), AllocError> {
    assert_eq!(rt; wrong_rows(rt.alloc(), "assigned", PAIRS)?.as_str(), "");
    Ok(())
}

#[test]
fn a_local_takes_anything_as_top(rt: HostRuntime) -> Result<(), AllocError> {
    let rows = "Integer Top = fine
This Top = fine
@3 Top = fine
a/A Top = fine
Top Integer = no";
    assert_eq!(rt; wrong_rows(rt.alloc(), "local", rows)?.as_str(), "");
    Ok(())
}

fn brackets(alloc: Global, count: &str) -> VType {
    let mut name = Items::new(alloc);
    for _ in 0..count.parse::<u32>().unwrap_or(0) {
        let _kept = name.push(b'[');
    }
    VType::Object(name)
}

/// The answer to a type of so many brackets that is assigned to one of so many.
pub(crate) fn say_brackets(alloc: Global, said: &mut String, words: &str) {
    let (from, to) = words.split_once(' ').unwrap_or((words, ""));
    let from = brackets(alloc, from);
    let to = brackets(alloc, to);
    say_pair(alloc, said, false, &from, &to);
}

#[test]
fn descriptors_of_any_length_are_compared_in_place(rt: HostRuntime) -> Result<(), AllocError> {
    assert_eq!(rt;
        wrong_rows(rt.alloc(), "brackets", "65534 65535 = no")?.as_str(),
        ""
    );
    Ok(())
}
