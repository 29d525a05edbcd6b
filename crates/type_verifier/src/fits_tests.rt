// Frames with the questions that they take.
use crate::assigning_tests::{put, say_asks, type_of, word_of};
use crate::fits::{caught_fits, frame_fits};
use crate::test_rows::wrong_rows;
use sqlite_items::Items;
use std::alloc::{AllocError, Global};
use verify_rules::{Frame, TypeStack, VType};

// A frame, the one that it is to fit, the answer, and the questions. A frame has its locals, its stack with the top last,
// and `+` where no constructor was called on `this`.
static FRAMES: &str = "Integer Top|a/A|-;Integer Top|a/A|- = fine;
Integer Float|Null|-;Top Top|a/A|- = fine;
l/A m/A|s/A t/A|-;l/B m/B|s/B t/B|- = fine;l/A>l/B m/A>m/B s/A>s/B t/A>t/B
l/A Integer|s/A|-;l/B Float|s/B|- = no;l/A>l/B
l/A|s/A|-;l/B l/C|s/B|- = Length;l/A>l/B
l/A l/A|s/A|-;l/B|s/B|- = Length;l/A>l/B
l/A|s/A|-;l/B||- = Length;l/A>l/B
l/A||-;l/B|s/B|- = Length;l/A>l/B
|Integer t/A|-;|Float t/B|- = no;
|s/A Integer|-;|s/B Float|- = no;s/A>s/B
This|s/A|+;This|s/B|- = Unfinished;s/A>s/B
This||+;This||+ = fine;
Top||-;Top||+ = fine;
";

// The same, for the frame in which a handler of e/E begins.
static CAUGHT: &str = "l/A|x/X x/Y|-;l/B|e/F|- = fine;l/A>l/B e/E>e/F
l/A|Integer|-;l/A|e/E|- = fine;
l/A|e/E|-;l/A||- = Length;
l/A|e/E x/X|-;l/A|e/E x/X|- = Length;
l/A|Integer|-;l/A|Integer|- = no;
This|x/X|+;This|java/lang/Object|- = Unfinished;
Integer|x/X|-;Float|e/F|- = no;
";

fn types(alloc: Global, words: &str) -> Items<VType> {
    let mut all = Items::new(alloc);
    for word in words.split(' ') {
        if !word.is_empty() {
            let _kept = all.push(type_of(alloc, word));
        }
    }
    all
}

fn stack(alloc: Global, words: &str) -> TypeStack {
    let mut all = TypeStack::new(alloc);
    for word in words.split(' ') {
        if !word.is_empty() {
            let _fits = all.push(100, type_of(alloc, word));
        }
    }
    all
}

fn frame(alloc: Global, text: &str) -> Frame {
    let (locals, rest) = text.split_once('|').unwrap_or((text, ""));
    let (operands, sign) = rest.split_once('|').unwrap_or((rest, ""));
    let locals = types(alloc, locals);
    let stack = stack(alloc, operands);
    Frame {
        locals,
        stack,
        this_uninit: sign == "+",
    }
}

// The answer and the questions.
fn say_told(alloc: Global, said: &mut String, is_caught: bool, from: &Frame, to: &Frame) {
    let mut asks = Items::new(alloc);
    let answer = if is_caught {
        caught_fits(alloc, &mut asks, b"e/E", from, to)
    } else {
        frame_fits(alloc, &mut asks, from, to)
    };
    put(said, word_of(answer));
    put(said, ";");
    say_asks(said, asks.as_slice());
}

/// The answer to a frame that is to fit another, or to be caught into it.
pub(crate) fn say_fits(alloc: Global, said: &mut String, is_caught: bool, words: &str) {
    let (from, to) = words.split_once(';').unwrap_or((words, ""));
    let from = frame(alloc, from);
    let to = frame(alloc, to);
    say_told(alloc, said, is_caught, &from, &to);
}

#[test]
fn frames_are_compared_in_their_order(rt: HostRuntime) -> Result<(), AllocError> {
    assert_eq!(rt; wrong_rows(rt.alloc(), "fits", FRAMES)?.as_str(), "");
    Ok(())
}

#[test]
fn a_handler_begins_with_the_throwable_alone(rt: HostRuntime) -> Result<(), AllocError> {
    assert_eq!(rt; wrong_rows(rt.alloc(), "caught", CAUGHT)?.as_str(), "");
    Ok(())
}
