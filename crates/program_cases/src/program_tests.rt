// What no contract says: that a class of the first form is read where memory suffices.
use class_tree::ClassTree;
use classfile_reader::read_class;
use first_form::{
    FormFault, Program, each_class_is_named, one_name, one_program, read_name, read_program,
    tree_program,
};
use std::alloc::{AllocError, Global};
use std::test::Fail;
use test_rows::tell_wrong;

// `main` puts 40 + 2.
const PUTS_42: [u8; 160] = [
    202, 254, 186, 190, 0, 0, 0, 52, 0, 12, 1, 0, 4, 77, 97, 105, 110, 7, 0, 1, 1, 0, 16, 106, 97,
    118, 97, 47, 108, 97, 110, 103, 47, 79, 98, 106, 101, 99, 116, 7, 0, 3, 1, 0, 4, 109, 97, 105,
    110, 1, 0, 22, 40, 91, 76, 106, 97, 118, 97, 47, 108, 97, 110, 103, 47, 83, 116, 114, 105, 110,
    103, 59, 41, 86, 1, 0, 4, 67, 111, 100, 101, 1, 0, 3, 112, 117, 116, 1, 0, 4, 40, 73, 41, 86,
    12, 0, 8, 0, 9, 10, 0, 2, 0, 10, 0, 33, 0, 2, 0, 4, 0, 0, 0, 0, 0, 2, 0, 9, 0, 5, 0, 6, 0, 1,
    0, 7, 0, 0, 0, 20, 0, 2, 0, 1, 0, 0, 0, 8, 16, 40, 5, 96, 184, 0, 11, 177, 0, 0, 0, 0, 1, 9, 0,
    8, 0, 9, 0, 0, 0, 0,
];

// A class up to the attribute of `main`: entry 1 of its pool is a Utf8, 2 a Class, 10 a NameAndType, 11 the Methodref of
// `put`, and 12 to 14 are the Integers 0x80000000, 0x7fffffff and 0x01020304.
const FRONT: [u8; 141] = [
    202, 254, 186, 190, 0, 0, 0, 52, 0, 15, 1, 0, 4, 77, 97, 105, 110, 7, 0, 1, 1, 0, 16, 106, 97,
    118, 97, 47, 108, 97, 110, 103, 47, 79, 98, 106, 101, 99, 116, 7, 0, 3, 1, 0, 4, 109, 97, 105,
    110, 1, 0, 22, 40, 91, 76, 106, 97, 118, 97, 47, 108, 97, 110, 103, 47, 83, 116, 114, 105, 110,
    103, 59, 41, 86, 1, 0, 4, 67, 111, 100, 101, 1, 0, 3, 112, 117, 116, 1, 0, 4, 40, 73, 41, 86,
    12, 0, 8, 0, 9, 10, 0, 2, 0, 10, 3, 128, 0, 0, 0, 3, 127, 255, 255, 255, 3, 1, 2, 3, 4, 0, 33,
    0, 2, 0, 4, 0, 0, 0, 0, 0, 2, 0, 9, 0, 5, 0, 6, 0, 1, 0, 7,
];

// What stands behind the code of `main`.
const BACK: [u8; 14] = [0, 0, 0, 0, 1, 9, 0, 8, 0, 9, 0, 0, 0, 0];

// Calls and what they answer, the instructions by the standard's 6.5. `code` has the max_stack, the max_locals and the bytes
// of `main`, `change` two places in the class that puts 42 and the bytes that stand between them here, and `opcodes` those
// of the form, of which it says how many they are, and each other one that isn't refused. Behind `refused` stands why.
static ROWS: &str = "sum = [Push(40), Push(2), Add, Put, Return]
sizes of the sum = 2 1
cut sum = refused
tree = 5 refused refused 
name = Main
cut name = refused
far entry = [Push(249), Return]
opcodes 00 02 03 04 05 06 07 08 10 11 12 13 15 1a 1b 1c 1d 36 3b 3c 3d 3e 57 59 60 64 68 74 78 7a 7c 7e 80 82 84 91 92 93 b1 b8 = 40
code 0 1: b1 = [Return]
code 0 1: 00 b1 = [Nop, Return]
code 1 1: 02 b1 = [Push(-1), Return]
code 1 1: 03 b1 = [Push(0), Return]
code 1 1: 04 b1 = [Push(1), Return]
code 1 1: 05 b1 = [Push(2), Return]
code 1 1: 06 b1 = [Push(3), Return]
code 1 1: 07 b1 = [Push(4), Return]
code 1 1: 08 b1 = [Push(5), Return]
code 1 1: 10 7f b1 = [Push(127), Return]
code 1 1: 10 80 b1 = [Push(-128), Return]
code 1 1: 10 ff b1 = [Push(-1), Return]
code 1 1: 11 7f ff b1 = [Push(32767), Return]
code 1 1: 11 80 00 b1 = [Push(-32768), Return]
code 1 1: 11 00 80 b1 = [Push(128), Return]
code 1 1: 11 ff 7f b1 = [Push(-129), Return]
code 1 1: 12 0c b1 = [Push(-2147483648), Return]
code 1 1: 13 00 0c b1 = [Push(-2147483648), Return]
code 1 1: 12 0d b1 = [Push(2147483647), Return]
code 1 1: 13 00 0d b1 = [Push(2147483647), Return]
code 1 1: 12 0e b1 = [Push(16909060), Return]
code 1 1: 13 00 0e b1 = [Push(16909060), Return]
code 1 256: 03 36 ff 15 ff b1 = [Push(0), Store(255), Load(255), Return]
code 1 1: 03 3b 1a b1 = [Push(0), Store(0), Load(0), Return]
code 1 2: 03 3c 1b b1 = [Push(0), Store(1), Load(1), Return]
code 1 3: 03 3d 1c b1 = [Push(0), Store(2), Load(2), Return]
code 1 4: 03 3e 1d b1 = [Push(0), Store(3), Load(3), Return]
code 1 1: 03 57 b1 = [Push(0), Pop, Return]
code 2 1: 03 59 b1 = [Push(0), Dup, Return]
code 2 1: 03 04 60 b1 = [Push(0), Push(1), Add, Return]
code 2 1: 03 04 64 b1 = [Push(0), Push(1), Subtract, Return]
code 2 1: 03 04 68 b1 = [Push(0), Push(1), Multiply, Return]
code 2 1: 03 04 78 b1 = [Push(0), Push(1), ShiftLeft, Return]
code 2 1: 03 04 7a b1 = [Push(0), Push(1), ShiftRight, Return]
code 2 1: 03 04 7c b1 = [Push(0), Push(1), LogicalShiftRight, Return]
code 2 1: 03 04 7e b1 = [Push(0), Push(1), And, Return]
code 2 1: 03 04 80 b1 = [Push(0), Push(1), Or, Return]
code 2 1: 03 04 82 b1 = [Push(0), Push(1), Xor, Return]
code 1 1: 03 74 b1 = [Push(0), Negate, Return]
code 1 1: 03 91 b1 = [Push(0), ToByte, Return]
code 1 1: 03 92 b1 = [Push(0), ToChar, Return]
code 1 1: 03 93 b1 = [Push(0), ToShort, Return]
code 1 1: 03 3b 84 00 80 b1 = [Push(0), Store(0), Increment(0, -128), Return]
code 1 1: 03 3b 84 00 7f b1 = [Push(0), Store(0), Increment(0, 127), Return]
code 1 1: 03 3b 84 00 ff b1 = [Push(0), Store(0), Increment(0, -1), Return]
code 1 255: 03 36 fe 84 fe 01 b1 = [Push(0), Store(254), Increment(254, 1), Return]
code 1 1: 03 b8 00 0b b1 = [Push(0), Put, Return]
code 2 2: 04 3b 05 3c 1a 1b 60 b1 = [Push(1), Store(0), Push(2), Store(1), Load(0), Load(1), Add, Return]
code 1 1: 1a b1 = refused, a load before any store
code 1 2: 03 3b 1b b1 = refused, a load of another local than was stored
code 1 1: 15 01 b1 = refused, a load at max_locals
code 1 1: 03 3b 15 01 b1 = refused, a load at max_locals after a store below
code 1 1: 15 00 03 3b b1 = refused, a load of a local that is stored later
code 0 1: 84 00 01 b1 = refused, an iinc before any store
code 1 1: 84 00 01 03 3b b1 = refused, an iinc of a local that is stored later
code 1 1: 03 3b 84 01 00 b1 = refused, an iinc at max_locals
code 1 1: 03 3c b1 = refused, a store at max_locals by istore_1
code 1 4: 03 36 04 b1 = refused, a store at max_locals
code 1 255: 03 36 ff b1 = refused, a store at the greatest index and max_locals
code 1 1: 3b b1 = refused, a store of nothing
code 0 1: b1 b1 = refused, a return before the end
code 0 1: b1 00 = refused, an instruction behind the return
code 0 1: 00 = refused, no return
code 0 1:  = refused, no code
code 0 1: 03 b1 = refused, a constant without room
code 1 1: 03 3b 03 1a b1 = refused, a load without room
code 1 1: 03 59 b1 = refused, a dup without room
code 2 1: 59 b1 = refused, a dup of nothing
code 1 1: 57 b1 = refused, a pop of nothing
code 2 1: 03 60 b1 = refused, Add of one number
code 2 1: 03 64 b1 = refused, Subtract of one number
code 2 1: 03 68 b1 = refused, Multiply of one number
code 2 1: 03 78 b1 = refused, ShiftLeft of one number
code 2 1: 03 7a b1 = refused, ShiftRight of one number
code 2 1: 03 7c b1 = refused, LogicalShiftRight of one number
code 2 1: 03 7e b1 = refused, And of one number
code 2 1: 03 80 b1 = refused, Or of one number
code 2 1: 03 82 b1 = refused, Xor of one number
code 1 1: 74 b1 = refused, Negate of nothing
code 1 1: 91 b1 = refused, ToByte of nothing
code 1 1: 92 b1 = refused, ToChar of nothing
code 1 1: 93 b1 = refused, ToShort of nothing
code 1 1: b8 00 0b b1 = refused, a put of nothing
code 1 1: 12 00 b1 = refused, ldc of entry 0
code 1 1: 13 00 00 b1 = refused, ldc_w of entry 0
code 1 1: 12 01 b1 = refused, ldc of a Utf8
code 1 1: 13 00 01 b1 = refused, ldc_w of a Utf8
code 1 1: 12 02 b1 = refused, ldc of a Class
code 1 1: 13 00 02 b1 = refused, ldc_w of a Class
code 1 1: 12 0a b1 = refused, ldc of a NameAndType
code 1 1: 13 00 0a b1 = refused, ldc_w of a NameAndType
code 1 1: 12 0b b1 = refused, ldc of a Methodref
code 1 1: 13 00 0b b1 = refused, ldc_w of a Methodref
code 1 1: 12 0f b1 = refused, ldc past the end of the pool
code 1 1: 13 00 0f b1 = refused, ldc_w past the end of the pool
code 1 1: 13 0c 00 b1 = refused, ldc_w whose index has its low byte first
code 1 1: 10 = refused, bipush cut at the end
code 1 1: 11 00 = refused, sipush cut at the end
code 1 1: 12 = refused, ldc cut at the end
code 1 1: 13 00 = refused, ldc_w cut at the end
code 1 1: 15 = refused, iload cut at the end
code 1 1: 03 36 = refused, istore cut at the end
code 1 1: 03 3b 84 00 = refused, iinc cut at the end
code 1 1: 03 b8 00 = refused, invokestatic cut at the end
code 4 4: 03 04 6c b1 = refused, idiv
code 4 4: 03 04 70 b1 = refused, irem
code 4 4: 03 04 5f b1 = refused, swap
code 4 4: 03 04 5a b1 = refused, dup_x1
code 4 4: 03 04 5c b1 = refused, dup2
code 4 4: 03 04 58 b1 = refused, pop2
code 4 4: 03 04 61 b1 = refused, ladd
code 4 4: 03 04 65 b1 = refused, lsub
code 4 4: 03 04 69 b1 = refused, lmul
code 4 4: 03 04 79 b1 = refused, lshl
code 4 4: 03 04 7b b1 = refused, lshr
code 4 4: 03 04 7d b1 = refused, lushr
code 4 4: 03 04 7f b1 = refused, land
code 4 4: 03 04 81 b1 = refused, lor
code 4 4: 03 04 83 b1 = refused, lxor
code 4 4: 03 04 85 b1 = refused, i2l
code 4 4: 03 04 90 b1 = refused, d2f
code 4 4: 03 04 94 b1 = refused, lcmp
code 4 4: 03 04 75 b1 = refused, lneg
code 4 4: 03 04 ac b1 = refused, ireturn
code 4 4: 03 04 b0 b1 = refused, areturn
code 4 4: 03 04 ca b1 = refused, breakpoint
code 4 4: 03 04 ff b1 = refused, impdep2
code 4 4: 01 b1 = refused, aconst_null
code 4 4: 09 b1 = refused, lconst_0
code 4 4: 1e b1 = refused, lload_0
code 4 4: 2a b1 = refused, aload_0
code 4 4: 3f b1 = refused, lstore_0
code 4 4: 4b b1 = refused, astore_0
code 2 2: 03 3b c4 15 00 00 b1 = refused, wide
code 1 1: a7 00 03 b1 = refused, goto
code 2 1: 03 99 00 03 b1 = refused, ifeq
code 2 1: 14 00 0c b1 = refused, ldc2_w
code 2 1: b2 00 0b b1 = refused, getstatic
code 2 1: 03 b7 00 0b b1 = refused, invokespecial
change 7 8: 32 = refused, version 50
change 7 8: 33 = refused, version 51
change 13 15: c3 a9 = [Push(40), Push(2), Add, Put, Return]
change 81 87: 01 00 04 70 75 74 73 = refused, a native method of another name
change 91 92: 4a = refused, a native method of a long
change 99 100: 0b = refused, an InterfaceMethodref
change 105 106: 31 = refused, a final class
change 108 110: 00 02 = refused, a superclass that isn't java/lang/Object
change 110 112: 00 01 00 04 = refused, an interface
change 116 118: 00 19 = refused, a main that is final
change 118 120: 00 08 = refused, no main
change 129 148: 1c 00 02 00 01 00 00 00 08 10 28 05 60 b8 00 0b b1 00 01 00 00 00 01 00 00 00 00 = refused, a handler
change 151 152: 19 = refused, a put that is final";

fn say_program(
    alloc: Global,
    said: &mut String,
    read: Result<Program, FormFault>,
) -> Result<(), AllocError> {
    match read {
        Err(FormFault::NotFirstForm) => said.push_str("refused"),
        Err(FormFault::Memory) => said.push_str("memory"),
        Ok(program) => {
            let instructions = program.instructions.as_slice();
            said.push_str(format!(in alloc; "{instructions:?}")?.as_str())
        }
    }
}

fn say_class(alloc: Global, said: &mut String, bytes: &[u8]) -> Result<(), AllocError> {
    say_program(alloc, said, read_program(alloc, bytes))
}

fn say_sizes(alloc: Global, said: &mut String, bytes: &[u8]) -> Result<(), AllocError> {
    match read_program(alloc, bytes) {
        Err(_) => said.push_str("refused"),
        Ok(program) => {
            let sizes = format!(in alloc; "{} {}", program.max_stack, program.max_locals)?;
            said.push_str(sizes.as_str())
        }
    }
}

// How many instructions the program of a tree has.
fn say_length(alloc: Global, said: &mut String, tree: &ClassTree) -> Result<(), AllocError> {
    match tree_program(alloc, tree) {
        Ok(program) => {
            let count = program.instructions.len();
            said.push_str(format!(in alloc; "{count} ")?.as_str())
        }
        Err(FormFault::NotFirstForm) => said.push_str("refused "),
        Err(FormFault::Memory) => said.push_str("memory "),
    }
}

// The tree as it is, of version 51, and of version 52 with a superclass that isn't there, which breaks a rule of form.
fn say_lengths(alloc: Global, said: &mut String, tree: &mut ClassTree) -> Result<(), AllocError> {
    say_length(alloc, said, tree)?;
    tree.major = 51;
    say_length(alloc, said, tree)?;
    tree.major = 52;
    tree.sup = 65535;
    say_length(alloc, said, tree)
}

fn say_tree(alloc: Global, said: &mut String) -> Result<(), AllocError> {
    match read_class(alloc, &PUTS_42) {
        Ok(mut tree) => say_lengths(alloc, said, &mut tree),
        Err(_) => said.push_str("no class"),
    }
}

// A word for the name inside.
fn name_word(alloc: Global, bytes: &[u8]) -> &'static str {
    match read_name(alloc, bytes) {
        Ok(name) => {
            if name.as_slice() == b"Main".as_slice() {
                "Main"
            } else {
                "another"
            }
        }
        Err(FormFault::NotFirstForm) => "refused",
        Err(FormFault::Memory) => "memory",
    }
}

// The bytes whose digits stand in the text.
fn push_digits(bytes: &mut Vec<u8>, text: &str) -> Result<(), AllocError> {
    for byte in text.split_whitespace() {
        bytes.push(u8::from_str_radix(byte, 16).unwrap_or(u8::MAX))?;
    }
    Ok(())
}

// The class whose `main` has the code, up to the code.
fn push_front(bytes: &mut Vec<u8>, stack: u16, locals: u16, code: &[u8]) -> Result<(), AllocError> {
    let size = u32::try_from(code.len()).unwrap_or(0);
    bytes.extend_from_slice(&FRONT)?;
    bytes.extend_from_slice(&size.saturating_add(12).to_be_bytes())?;
    bytes.extend_from_slice(&stack.to_be_bytes())?;
    bytes.extend_from_slice(&locals.to_be_bytes())?;
    bytes.extend_from_slice(&size.to_be_bytes())
}

fn push_class(bytes: &mut Vec<u8>, stack: u16, locals: u16, code: &[u8]) -> Result<(), AllocError> {
    push_front(bytes, stack, locals, code)?;
    bytes.extend_from_slice(code)?;
    bytes.extend_from_slice(&BACK)
}

// The class has 250 Integers more, 0 to 249, from index 15 on: its pool ends at place 119.
fn push_more_integers(bytes: &mut Vec<u8>, class: &[u8]) -> Result<(), AllocError> {
    bytes.extend_from_slice(class.get(..8).unwrap_or(&[]))?;
    bytes.extend_from_slice(&[1, 9])?;
    bytes.extend_from_slice(class.get(10..119).unwrap_or(&[]))?;
    for number in 0..250u8 {
        bytes.extend_from_slice(&[3, 0, 0, 0, number])?;
    }
    bytes.extend_from_slice(class.get(119..).unwrap_or(&[]))
}

// ldc_w of an index of two bytes.
fn push_far_entry(alloc: Global, bytes: &mut Vec<u8>) -> Result<(), AllocError> {
    let mut class = Vec::new(alloc);
    push_class(&mut class, 1, 1, &[19, 1, 8, 177])?;
    push_more_integers(bytes, &class)
}

fn number(word: &str) -> u16 {
    word.parse::<u16>().unwrap_or(u16::MAX)
}

fn push_code(alloc: Global, bytes: &mut Vec<u8>, words: &str) -> Result<(), AllocError> {
    let (sizes, digits) = words.split_once(":").unwrap_or((words, ""));
    let (stack, locals) = sizes.split_once(" ").unwrap_or((sizes, ""));
    let mut code = Vec::new(alloc);
    push_digits(&mut code, digits)?;
    push_class(bytes, number(stack), number(locals), &code)
}

fn push_change(bytes: &mut Vec<u8>, words: &str) -> Result<(), AllocError> {
    let (places, digits) = words.split_once(":").unwrap_or((words, ""));
    let (from, to) = places.split_once(" ").unwrap_or((places, ""));
    bytes.extend_from_slice(PUTS_42.get(..usize::from(number(from))).unwrap_or(&[]))?;
    push_digits(bytes, digits)?;
    bytes.extend_from_slice(PUTS_42.get(usize::from(number(to))..).unwrap_or(&[]))
}

fn say_opcode(alloc: Global, said: &mut String, opcode: u8) -> Result<(), AllocError> {
    let mut class = Vec::new(alloc);
    push_class(&mut class, 4, 4, &[3, 59, 3, 4, opcode, 177])?;
    match read_program(alloc, &class) {
        Err(FormFault::NotFirstForm) => Ok(()),
        _ => said.push_str(format!(in alloc; " {opcode}")?.as_str()),
    }
}

fn say_opcodes(alloc: Global, said: &mut String, known: &[u8]) -> Result<(), AllocError> {
    said.push_str(format!(in alloc; "{}", known.len())?.as_str())?;
    for opcode in 0..=255u8 {
        if !known.contains(&opcode) {
            say_opcode(alloc, said, opcode)?;
        }
    }
    Ok(())
}

// A class of another form is a class.
fn say_other(alloc: Global, said: &mut String, bytes: &[u8]) -> Result<(), AllocError> {
    match read_class(alloc, bytes) {
        Ok(_) => say_class(alloc, said, bytes),
        Err(_) => said.push_str("no class"),
    }
}

// What is said of bytes that are made of the words.
fn say_made(alloc: Global, said: &mut String, verb: &str, words: &str) -> Result<(), AllocError> {
    let mut bytes = Vec::new(alloc);
    match verb {
        "code" => push_code(alloc, &mut bytes, words)?,
        "change" => push_change(&mut bytes, words)?,
        "opcodes" => push_digits(&mut bytes, words)?,
        _ => push_far_entry(alloc, &mut bytes)?,
    }
    match verb {
        "change" => say_other(alloc, said, &bytes),
        "opcodes" => say_opcodes(alloc, said, &bytes),
        _ => say_class(alloc, said, &bytes),
    }
}

fn say(alloc: Global, said: &mut String, call: &str) -> Result<(), AllocError> {
    let (verb, words) = call.split_once(' ').unwrap_or((call, ""));
    match call {
        "sum" => say_class(alloc, said, &PUTS_42),
        "sizes of the sum" => say_sizes(alloc, said, &PUTS_42),
        "cut sum" => say_class(alloc, said, &PUTS_42[..159]),
        "tree" => say_tree(alloc, said),
        "name" => said.push_str(name_word(alloc, &PUTS_42)),
        "cut name" => said.push_str(name_word(alloc, &PUTS_42[..159])),
        _ => say_made(alloc, said, verb, words),
    }
}

fn try_row(alloc: Global, wrong: &mut String, row: &str) -> Result<(), AllocError> {
    let (call, answer) = row.split_once(" = ").unwrap_or((row, ""));
    let mut said = String::new(alloc);
    say(alloc, &mut said, call)?;
    let wanted = if answer.starts_with("refused, ") {
        "refused"
    } else {
        answer
    };
    tell_wrong(wrong, row, said.as_str(), wanted)
}

fn wrong_rows(alloc: Global, rows: &str) -> Result<String, AllocError> {
    let mut wrong = String::new(alloc);
    for row in rows.lines() {
        try_row(alloc, &mut wrong, row)?;
    }
    Ok(wrong)
}

#[test]
fn a_class_of_the_first_form_is_read_and_no_other(rt: HostRuntime) -> Result<(), Fail> {
    assert_eq!(rt; wrong_rows(rt.alloc(), ROWS)?.as_str(), "");
    one_program();
    one_name();
    each_class_is_named();
    Ok(())
}
