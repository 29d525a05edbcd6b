// Stack forms by example: a stack is written from its bottom, a letter a type, with room for seven units.
use crate::assigning_tests::put;
use crate::stack_forms::stack_form;
use crate::test_rows::wrong_rows;
use std::alloc::{AllocError, Global};
use verify_rules::{TypeStack, VType};

// The form, the stack before it, and the stack after it.
static CASES: &str = "pop AI = A
pop U = -
pop IJ = no
pop T = no
pop - = no
pop2 ANI = A
pop2 AJ = A
pop2 JI = no
pop2 I = no
pop2 IT = no
dup I = II
dup UA = UAA
dup J = no
dup JJIA = JJIAA
dup JJJI = no
dup_x1 AI = IAI
dup_x1 JI = no
dup_x1 IJ = no
dup_x2 ANI = IANI
dup_x2 JI = IJI
dup_x2 JNI = no
dup_x2 JAI = no
dup2 AI = AIAI
dup2 J = JJ
dup2 JI = no
dup2 IJJ = IJJJ
dup2 JJJ = no
dup2_x1 NAI = AINAI
dup2_x1 AJ = JAJ
dup2_x1 JAI = no
dup2_x2 NUAI = AINUAI
dup2_x2 JAI = AIJAI
dup2_x2 AIJ = JAIJ
dup2_x2 JJ = JJJ
dup2_x2 JIJ = no
swap AI = IA
swap AJ = no
swap I = no
swap IT = no";

fn opcode(form: &str) -> u8 {
    match form {
        "pop" => 0x57,
        "pop2" => 0x58,
        "dup" => 0x59,
        "dup_x1" => 0x5a,
        "dup_x2" => 0x5b,
        "dup2" => 0x5c,
        "dup2_x1" => 0x5d,
        "dup2_x2" => 0x5e,
        _ => 0x5f,
    }
}

fn type_of(letter: u8) -> VType {
    match letter {
        b'I' => VType::Integer,
        b'J' => VType::Long,
        b'N' => VType::Null,
        b'A' => VType::UninitializedThis,
        b'U' => VType::Uninitialized(7),
        _ => VType::Top,
    }
}

fn letter_of(t: &VType) -> &'static str {
    match t {
        VType::Integer => "I",
        VType::Long => "J",
        VType::Null => "N",
        VType::UninitializedThis => "A",
        VType::Uninitialized(7) => "U",
        _ => "?",
    }
}

fn stack_of(alloc: Global, letters: &str) -> TypeStack {
    let mut stack = TypeStack::new(alloc);
    for letter in letters.bytes() {
        if letter != b'-' {
            let _fits = stack.push(7, type_of(letter));
        }
    }
    stack
}

// The letters of a stack, from its bottom.
fn say_letters(said: &mut String, stack: &TypeStack) {
    let count = stack.len();
    for at in 0..count {
        if let Some(t) = stack.get(count - 1 - at) {
            put(said, letter_of(t));
        }
    }
}

fn say_stack(said: &mut String, stack: &TypeStack) {
    if stack.len() == 0 {
        put(said, "-")
    } else {
        say_letters(said, stack);
    }
}

/// The stack after a form, or `no`.
pub(crate) fn say_form(alloc: Global, said: &mut String, words: &str) {
    let (form, before) = words.split_once(' ').unwrap_or((words, ""));
    let mut stack = stack_of(alloc, before);
    match stack_form(alloc, 7, opcode(form), &mut stack) {
        Ok(()) => say_stack(said, &stack),
        Err(_) => put(said, "no"),
    }
}

#[test]
fn forms_move_whole_types(rt: HostRuntime) -> Result<(), AllocError> {
    assert_eq!(rt; wrong_rows(rt.alloc(), "form", CASES)?.as_str(), "");
    Ok(())
}
