// Runs over a sink in memory, of classes that are read.
ghost use Rattle.std.specs.Prelude.{◌≡◌, true, IfOk};
ghost use Rattle.first_form.specs.Program.{is_tested};

use crate::test_rows::PUTS;
use classfile_reader::read_class;
use first_form::{
    ClassState, End, Machine, Program, RunEnd, a_fitting_program_exits, no_class_is_stuck, one_run,
    read_program, run, run_bytes, run_tree,
};
use jsa_files::MemorySink;
use std::alloc::Global;
use std::process::Abort;
use std::test::Fail;

// A class up to the low byte of the size of its pool.
const HEAD: [u8; 9] = [202, 254, 186, 190, 0, 0, 0, 52, 0];

// Entries 1 to 11 of the pool: 11 is the Methodref of `put`.
const POOL: [u8; 94] = [
    1, 0, 4, 77, 97, 105, 110, 7, 0, 1, 1, 0, 16, 106, 97, 118, 97, 47, 108, 97, 110, 103, 47, 79,
    98, 106, 101, 99, 116, 7, 0, 3, 1, 0, 4, 109, 97, 105, 110, 1, 0, 22, 40, 91, 76, 106, 97, 118,
    97, 47, 108, 97, 110, 103, 47, 83, 116, 114, 105, 110, 103, 59, 41, 86, 1, 0, 4, 67, 111, 100,
    101, 1, 0, 3, 112, 117, 116, 1, 0, 4, 40, 73, 41, 86, 12, 0, 8, 0, 9, 10, 0, 2, 0, 10,
];

// What stands behind the pool, up to the size of the attribute of `main`.
const MAIN: [u8; 22] = [
    0, 33, 0, 2, 0, 4, 0, 0, 0, 0, 0, 2, 0, 9, 0, 5, 0, 6, 0, 1, 0, 7,
];

// What stands behind the code of `main`.
const BACK: [u8; 14] = [0, 0, 0, 0, 1, 9, 0, 8, 0, 9, 0, 0, 0, 0];

// The class whose `main` has the code and 256 local variables, with the ints from entry 12 of its pool on.
fn class_of(
    rt: &impl Abort,
    alloc: Global,
    stack: u8,
    ints: &[i32],
    code: &[u8],
) -> Result<Vec<u8>, Fail> {
    let count = u8::try_from(ints.len())?;
    let size = u8::try_from(code.len())?;
    assert!(rt; count < 100 && size < 200);
    let mut bytes = Vec::new(alloc);
    bytes.extend_from_slice(&HEAD)?;
    bytes.push(12 + count)?;
    bytes.extend_from_slice(&POOL)?;
    for int in ints {
        bytes.push(3)?;
        bytes.extend_from_slice(&int.to_be_bytes())?;
    }
    bytes.extend_from_slice(&MAIN)?;
    bytes.extend_from_slice(&[0, 0, 0, 12 + size, 0, stack, 1, 0, 0, 0, 0, size])?;
    bytes.extend_from_slice(code)?;
    bytes.extend_from_slice(&BACK)?;
    Ok(bytes)
}

fn program_of(
    rt: &impl Abort,
    alloc: Global,
    stack: u8,
    ints: &[i32],
    code: &[u8],
) -> Result<Program, Fail>
    ensures { IfOk result (λ p. is_tested p ≡ true) }
{
    let class = class_of(rt, alloc, stack, ints, code)?;
    let program = read_program(alloc, &class)?;
    Ok(program)
}

// `main` puts 40 + 2 by bipush, iconst_2, iadd and invokestatic.
const PUTS_A_SUM: [u8; 8] = [0x10, 40, 0x05, 0x60, 0xb8, 0, 11, 0xb1];

#[test]
fn a_sum_is_put_in_nine_turns(rt: HostRuntime) -> Result<(), Fail> {
    let alloc = rt.alloc();
    let program = program_of(&rt, alloc, 2, &[], &PUTS_A_SUM)?;
    let mut machine = Machine::new(alloc)?;
    let mut out = MemorySink::new(alloc);
    assert_eq!(rt;
        run(alloc, &program, &mut machine, &mut out, 9),
        Ok(Some(End::Exit))
    );
    assert_eq!(rt; machine.turns, 9);
    assert_eq!(rt; machine.class, ClassState::Initialised);
    assert_eq!(rt; out.bytes(), b"42\n".as_slice());
    Ok(())
}

#[test]
fn eight_turns_are_not_enough(rt: HostRuntime) -> Result<(), Fail> {
    let alloc = rt.alloc();
    let program = program_of(&rt, alloc, 2, &[], &PUTS_A_SUM)?;
    let mut machine = Machine::new(alloc)?;
    let mut out = MemorySink::new(alloc);
    assert_eq!(rt; run(alloc, &program, &mut machine, &mut out, 8), Ok(None));
    assert_eq!(rt; machine.turns, 8);
    assert_eq!(rt; out.bytes(), b"42\n".as_slice());
    Ok(())
}

#[test]
fn an_ended_run_stays(rt: HostRuntime) -> Result<(), Fail> {
    let alloc = rt.alloc();
    let program = program_of(&rt, alloc, 2, &[], &PUTS_A_SUM)?;
    let mut machine = Machine::new(alloc)?;
    let mut out = MemorySink::new(alloc);
    assert_eq!(rt;
        run(alloc, &program, &mut machine, &mut out, 1000),
        Ok(Some(End::Exit))
    );
    assert_eq!(rt; machine.turns, 9);
    assert_eq!(rt; out.bytes(), b"42\n".as_slice());
    Ok(())
}

#[test]
fn a_class_runs_by_its_bytes_and_by_its_tree(rt: HostRuntime) -> Result<(), Fail> {
    let alloc = rt.alloc();
    let class = class_of(&rt, alloc, 2, &[], &PUTS_A_SUM)?;
    let tree = read_class(alloc, &class)?;
    let mut out = MemorySink::new(alloc);
    assert_eq!(rt; run_bytes(alloc, &class, 9, &mut out), RunEnd::Returned);
    assert_eq!(rt; run_tree(alloc, &tree, 8, &mut out), RunEnd::Stopped);
    assert_eq!(rt;
        run_bytes(alloc, &class[1..], 9, &mut out),
        RunEnd::Unsupported
    );
    assert_eq!(rt; out.bytes(), b"42\n42\n".as_slice());
    one_run();
    a_fitting_program_exits();
    no_class_is_stuck();
    Ok(())
}

// The code that pushes the ints of the pool, does what the digits spell, puts and returns.
fn code_of(alloc: Global, ints: &[i32], digits: &str) -> Result<Vec<u8>, Fail> {
    let mut code = Vec::new(alloc);
    let mut entry = 12u8;
    for _ in ints {
        code.extend_from_slice(&[0x12, entry])?;
        entry = entry.wrapping_add(1);
    }
    for byte in digits.split_whitespace() {
        code.push(u8::from_str_radix(byte, 16)?)?;
    }
    code.extend_from_slice(&[0xb8, 0, 11, 0xb1])?;
    Ok(code)
}

fn ints_of(alloc: Global, words: &str) -> Result<Vec<i32>, Fail> {
    let mut ints = Vec::new(alloc);
    for word in words.split_whitespace() {
        ints.push(word.parse::<i32>()?)?;
    }
    Ok(ints)
}

// Each word on a line of its own.
fn lines_of(alloc: Global, words: &str) -> Result<Vec<u8>, Fail> {
    let mut lines = Vec::new(alloc);
    for word in words.split_whitespace() {
        lines.extend_from_slice(word.as_bytes())?;
        lines.push(b'\n')?;
    }
    Ok(lines)
}

fn puts_line(rt: &impl Abort, alloc: Global, line: &str) -> Result<(), Fail> {
    let (digits, row) = line.split_once(":").ok_or("no code")?;
    let (words, wanted) = row.split_once("=").ok_or("no output")?;
    let ints = ints_of(alloc, words)?;
    let code = code_of(alloc, &ints, digits)?;
    let program = program_of(rt, alloc, 5, &ints, &code)?;
    let mut machine = Machine::new(alloc)?;
    let mut out = MemorySink::new(alloc);
    let end = run(alloc, &program, &mut machine, &mut out, 1000);
    assert_eq!(rt; end, Ok(Some(End::Exit)), "{line}");
    let lines = lines_of(alloc, wanted)?;
    assert_eq!(rt; out.bytes(), lines.as_slice(), "{line}");
    Ok(())
}

#[test]
fn each_opcode_does_what_java_does(rt: HostRuntime) -> Result<(), Fail> {
    for line in PUTS.lines() {
        puts_line(&rt, rt.alloc(), line)?;
    }
    Ok(())
}
