// A code as it is read, cut within each of its instructions and written again, and the table of opcodes.
use crate::test_bytes::hexadecimal;
use crate::test_code::{CODE, LISTING};
use jsa_ops::{Instr, OpFault, decode, form_of, is_unsupported, write};
use std::alloc::{AllocError, Global};
use test_rows::say_number;

// A line for each opcode: its byte, its mnemonic, its variant and its form.
macro_rules! row_lines {
    ([] $($last:literal $variant:ident $form:ident: $($code:literal $name:literal),*;)*) => {
        concat!(
            $($($code, " ", $name, " ", stringify!($variant), " ", stringify!($form), "\n",)*)*
        )
    };
}

// A line for each opcode: its byte and its form, as it is shown where a byte has one.
macro_rules! form_lines {
    ([] $($last:literal $variant:ident $form:ident: $($code:literal $name:literal),*;)*) => {
        concat!($($($code, " Some(", stringify!($form), ")\n",)*)*)
    };
}

// Puts the parts of the table together, and hands them to a macro.
macro_rules! whole {
    ([$lines:ident {$($before:tt)*}] $($rows:tt)*) => {
        $lines! { [] $($before)* $($rows)* }
    };
    ([$lines:ident $next:ident $($more:ident)* {$($before:tt)*}] $($rows:tt)*) => {
        jsa_ops::opcodes!($next whole $lines $($more)* {$($before)* $($rows)*})
    };
}

static TABLE: &str =
    jsa_ops::opcodes!(constants whole row_lines loads stores math tests jumps objects {});

static FORMS: &str =
    jsa_ops::opcodes!(constants whole form_lines loads stores math tests jumps objects {});

// A word of an opcode's row.
fn word(opcode: &str, at: usize) -> &'static str {
    let Ok(opcode) = opcode.parse::<usize>() else {
        return "no opcode";
    };
    match TABLE.lines().nth(opcode) {
        Some(row) => row.split(' ').nth(at).unwrap_or("no word"),
        None => "no row",
    }
}

// The bytes that have a form, each with its form, as the table has them.
fn say_form(alloc: Global, byte: u8, said: &mut String) -> Result<(), AllocError> {
    let form = form_of(byte);
    if form.is_none() {
        return Ok(());
    }
    let text = format!(in alloc; "{byte} {form:?}\n")?;
    said.push_str(text.as_str())
}

fn forms(alloc: Global) -> Result<String, AllocError> {
    let mut forms = String::new(alloc);
    for byte in 0..=255u8 {
        say_form(alloc, byte, &mut forms)?;
    }
    Ok(forms)
}

fn forms_word(forms: &str) -> &'static str {
    if forms == FORMS {
        " rows of all forms"
    } else {
        " rows of other forms"
    }
}

// How many rows the table has, and whether the bytes that have a form are those of the rows, with their forms.
pub fn say_table(alloc: Global, said: &mut String) -> Result<(), AllocError> {
    say_number(alloc, TABLE.lines().count() as u64, said)?;
    let forms = forms(alloc)?;
    said.push_str(forms_word(forms.as_str()))
}

type Answer<'a> = Result<(Instr<'a>, u32), OpFault>;

// What stands at a place of a code.
pub fn answer<'a>(code: &'a [u8], place: usize) -> Option<Answer<'a>> {
    if code.len() <= place || 65_535 < code.len() {
        return None;
    }
    Some(decode(code, place as u32))
}

fn is_cut(code: &[u8], place: usize) -> bool {
    matches!(answer(code, place), Some(Err(OpFault::Cut)))
}

fn is_read(code: &[u8], place: usize) -> bool {
    matches!(answer(code, place), Some(Ok(_)))
}

fn is_front_cut(code: &[u8], place: usize, end: usize) -> bool {
    match code.get(..end) {
        Some(front) => is_cut(front, place),
        None => false,
    }
}

// Whether what ends within the instruction is cut, and what ends behind it isn't.
fn are_fronts_cut(code: &[u8], place: usize, next: usize) -> bool {
    for end in 0..next {
        if place < end && !is_front_cut(code, place, end) {
            return false;
        }
    }
    is_read(code.get(..next).unwrap_or(&[]), place)
}

// The distances or the pairs of a switch.
fn list<'a>(instr: &Instr<'a>) -> &'a [u8] {
    match *instr {
        Instr::TableSwitch(_, _, _, _, distances) => distances,
        Instr::LookupSwitch(_, _, pairs) => pairs,
        _ => &[],
    }
}

fn say_quad(alloc: Global, quad: &[u8], said: &mut String) -> Result<(), AllocError> {
    let [a, b, c, d] = quad else {
        return said.push_str(" no number");
    };
    let number = i32::from_be_bytes([*a, *b, *c, *d]);
    let text = format!(in alloc; " {number}")?;
    said.push_str(text.as_str())
}

// The signed numbers of four bytes each.
fn say_quads(alloc: Global, bytes: &[u8], said: &mut String) -> Result<(), AllocError> {
    for quad in bytes.chunks(4) {
        say_quad(alloc, quad, said)?;
    }
    Ok(())
}

// The numbers of an instruction that is shown as `Variant(number, number, [bytes])`.
fn numbers_in(shown: &str) -> &str {
    let (_, inside) = shown.split_once('(').unwrap_or((shown, ""));
    let (numbers, _) = inside.split_once(", [").unwrap_or((inside, ""));
    numbers.strip_suffix(')').unwrap_or(numbers)
}

fn variant_in(shown: &str) -> &str {
    let (variant, _) = shown.split_once('(').unwrap_or((shown, ""));
    variant
}

fn first_number(numbers: &str) -> (&str, &str) {
    numbers.split_once(", ").unwrap_or((numbers, ""))
}

// Numbers, each behind a blank.
fn say_numbers(numbers: &str, said: &mut String) -> Result<(), AllocError> {
    if numbers.is_empty() {
        return Ok(());
    }
    for number in numbers.split(", ") {
        said.push_str(" ")?;
        said.push_str(number)?;
    }
    Ok(())
}

// The mnemonic, and of an instruction behind wide that of the opcode there.
fn name_of(shown: &str) -> &'static str {
    let (opcode, numbers) = first_number(numbers_in(shown));
    match variant_in(shown) {
        "Wide" => word(first_number(numbers).0, 1),
        "WideIinc" => "iinc",
        _ => word(opcode, 1),
    }
}

// The operands that are numbers.
fn operands_in(shown: &str) -> &str {
    let (_, numbers) = first_number(numbers_in(shown));
    match variant_in(shown) {
        "Wide" => first_number(numbers).1,
        _ => numbers,
    }
}

// What stands behind the mnemonic of an instruction behind wide.
fn ending(variant: &str) -> &'static str {
    match variant {
        "Wide" | "WideIinc" => "_w",
        _ => "",
    }
}

fn say_shown(shown: &str, said: &mut String) -> Result<(), AllocError> {
    said.push_str(name_of(shown))?;
    said.push_str(ending(variant_in(shown)))?;
    say_numbers(operands_in(shown), said)
}

// Whether the variant is the row's, or wide's where iinc stands behind it.
fn has_variant(shown: &str) -> bool {
    let (opcode, _) = first_number(numbers_in(shown));
    match variant_in(shown) {
        "WideIinc" => word(opcode, 2) == "Wide",
        variant => variant == word(opcode, 2),
    }
}

// Whether the name begins with f or d and is no dup, ends with 2f or 2d, or is invokedynamic.
fn is_float_name(name: &str) -> bool {
    if name.starts_with("dup") {
        return false;
    }
    let begins = name.starts_with('f') || name.starts_with('d');
    begins || name.ends_with("2f") || name.ends_with("2d") || name == "invokedynamic"
}

// The mnemonic and the operands, and what is wrong with the variant or with what is supported.
fn say_line(
    alloc: Global,
    instr: &Instr<'_>,
    shown: &str,
    said: &mut String,
) -> Result<(), AllocError> {
    say_shown(shown, said)?;
    say_quads(alloc, list(instr), said)?;
    let support = is_unsupported(instr) == is_float_name(name_of(shown));
    said.push_str(faults_of(has_variant(shown), support))
}

fn say_instr(alloc: Global, instr: &Instr<'_>, said: &mut String) -> Result<(), AllocError> {
    let shown = format!(in alloc; "{instr:?}")?;
    say_line(alloc, instr, shown.as_str(), said)
}

fn faults_of(variant: bool, support: bool) -> &'static str {
    match (variant, support) {
        (true, true) => "\n",
        (true, false) => " of other support\n",
        (false, true) => " of another variant\n",
        (false, false) => " of another variant and of other support\n",
    }
}

// A place, and whether the fronts of the code that end within its instruction aren't cut.
fn say_front(
    alloc: Global,
    code: &[u8],
    place: usize,
    next: usize,
    said: &mut String,
) -> Result<(), AllocError> {
    say_number(alloc, place as u64, said)?;
    if are_fronts_cut(code, place, next) {
        return said.push_str(" ");
    }
    said.push_str(" not cut ")
}

// The line of the instruction at a place, and the next place.
fn say_place(
    alloc: Global,
    code: &[u8],
    place: usize,
    said: &mut String,
) -> Result<usize, AllocError> {
    let Some(Ok((instr, next))) = answer(code, place) else {
        said.push_str("no instruction\n")?;
        return Ok(code.len());
    };
    let next = next as usize;
    say_front(alloc, code, place, next, said)?;
    say_instr(alloc, &instr, said)?;
    Ok(next)
}

fn say_places(alloc: Global, code: &[u8], said: &mut String) -> Result<(), AllocError> {
    let mut place = 0;
    for _ in 0..code.len() {
        if place < code.len() {
            place = say_place(alloc, code, place, said)?;
        }
    }
    Ok(())
}

// A line for each instruction of a code: its place, its mnemonic and its operands.
fn listing(alloc: Global, code: &[u8]) -> Result<String, AllocError> {
    let mut said = String::new(alloc);
    say_places(alloc, code, &mut said)?;
    Ok(said)
}

// Writes the instruction at a place of the code behind those before it.
fn rewrite(code: &[u8], place: usize, out: &mut Vec<u8>) -> Result<(), AllocError> {
    let Some(Ok((instr, _))) = answer(code, place) else {
        return Ok(());
    };
    match write(&instr, u32::try_from(place).unwrap_or(0), out) {
        Ok(()) => Ok(()),
        Err(_) => Err(AllocError),
    }
}

// The place that a line of the listing begins with.
fn place_in(line: &str) -> usize {
    let (place, _) = line.split_once(' ').unwrap_or((line, ""));
    place.parse::<usize>().unwrap_or(usize::MAX)
}

// The code with each instruction of the listing written again.
fn written(alloc: Global, code: &[u8]) -> Result<Vec<u8>, AllocError> {
    let mut out = Vec::new(alloc);
    for line in LISTING.lines() {
        rewrite(code, place_in(line), &mut out)?;
    }
    Ok(out)
}

fn compare(listing: &str, said: &mut String) -> Result<(), AllocError> {
    if listing == LISTING {
        return said.push_str("as javap reads it");
    }
    said.push_str(listing)
}

fn say_listing(alloc: Global, code: &[u8], said: &mut String) -> Result<(), AllocError> {
    let listing = listing(alloc, code)?;
    compare(listing.as_str(), said)
}

fn say_again(alloc: Global, code: &[u8], said: &mut String) -> Result<(), AllocError> {
    let out = written(alloc, code)?;
    if out.len() != code.len() {
        return said.push_str("of another length");
    }
    say_listing(alloc, out.as_slice(), said)
}

// How the code is read, or the code that is written again of what was read.
pub fn say_code(alloc: Global, which: &str, said: &mut String) -> Result<(), AllocError> {
    let code = hexadecimal(alloc, CODE)?;
    match which {
        "again" => say_again(alloc, code.as_slice(), said),
        _ => say_listing(alloc, code.as_slice(), said),
    }
}
