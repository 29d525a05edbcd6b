//! A line in modified UTF-8 (JVMS 4.4.7), and quoted texts.
ghost use Rattle.std.specs.Prelude.{◌≡◌, [], length};
ghost use Rattle.asm_text.specs.Outcome.{Yields, Gives};
ghost use Rattle.asm_text.specs.Quoted.{modified, escape, unit_piece, escape_piece, piece, put_after, closes, pieces, quoted};

use crate::fault::LineFault;
use crate::numbers::four_digits;
use jsa_names::put_unit;
use sqlite_items::Items;
use std::alloc::Global;

// A line in modified UTF-8.
#[tactic(auto, unfolding(crate::specs::Quoted::modified))]
pub(crate) fn modified(alloc: Global, line: &[u8]) -> Result<Items<u8>, LineFault>
    ensures { Yields (λ t. t) result (modified line.now) }
{
    match str::from_utf8(line) {
        Ok(line) => Ok(jsa_names::modified(alloc, line)?),
        Err(_) => Err(LineFault::Outside),
    }
}

fn escape(b: u8) -> Option<u8>
    ensures { result ≡ escape b }
{
    if b == b'"' {
        Some(b'"')
    } else if b == b'\\' {
        Some(b'\\')
    } else if b == b'n' {
        Some(b'\n')
    } else if b == b't' {
        Some(b'\t')
    } else {
        None
    }
}

fn put_unit_piece<'a>(text: &mut Items<u8>, rest: &'a [u8]) -> Result<&'a [u8], LineFault>
    ensures { Gives (λ r. r.now) result text.new (put_after text.old (unit_piece rest.now)) }
{
    let [a, b, c, d, rest @ ..] = rest else {
        return Err(LineFault::Outside);
    };
    let Some(unit) = four_digits(&[*a, *b, *c, *d]) else {
        return Err(LineFault::Outside);
    };
    put_unit(text, unit)?;
    Ok(rest)
}

fn put_escape_piece<'a>(text: &mut Items<u8>, rest: &'a [u8]) -> Result<&'a [u8], LineFault>
    ensures { Gives (λ r. r.now) result text.new (put_after text.old (escape_piece rest.now)) }
{
    let [b, rest @ ..] = rest else {
        return Err(LineFault::Outside);
    };
    if *b == b'u' {
        return put_unit_piece(text, rest);
    }
    let Some(byte) = escape(*b) else {
        return Err(LineFault::Outside);
    };
    text.push(byte)?;
    Ok(rest)
}

// Puts what the first piece stands for, and answers what is behind it.
fn put_piece<'a>(text: &mut Items<u8>, rest: &'a [u8]) -> Result<&'a [u8], LineFault>
    ensures { Gives (λ r. r.now) result text.new (put_after text.old (piece rest.now)) }
{
    let [b, after @ ..] = rest else {
        return Err(LineFault::Outside);
    };
    if *b == b'"' {
        return Err(LineFault::Outside);
    }
    if *b == b'\\' {
        return put_escape_piece(text, after);
    }
    text.push(*b)?;
    Ok(after)
}

fn closes(rest: &[u8]) -> bool
    ensures { result ≡ closes rest.now }
{
    let [b, after @ ..] = rest else {
        return false;
    };
    *b == b'"' && after.is_empty()
}

fn pieces(alloc: Global, bytes: &[u8]) -> Result<Items<u8>, LineFault>
    ensures { Yields (λ t. t) result (pieces (length bytes.now) [] bytes.now) }
{
    let mut text = Items::new(alloc);
    let mut rest = bytes;
    for _ in 0..bytes.len() {
        if closes(rest) {
            return Ok(text);
        }
        rest = put_piece(&mut text, rest)?;
    }
    Err(LineFault::Outside)
}

// The text of a token that begins with a quote.
#[tactic(auto, unfolding(crate::specs::Quoted::quoted))]
pub(crate) fn quoted(alloc: Global, token: &[u8]) -> Result<Items<u8>, LineFault>
    ensures { Yields (λ t. t) result (quoted token.now) }
{
    let [b, rest @ ..] = token else {
        return Err(LineFault::Outside);
    };
    if *b == b'"' {
        pieces(alloc, rest)
    } else {
        Err(LineFault::Outside)
    }
}
