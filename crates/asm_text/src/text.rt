//! What each line of a text says.
ghost use Rattle.std.specs.Prelude.{◌≡◌, ◌≤◌, ◌<◌, ◌+◌, length, take, drop, IfOk};
ghost use Rattle.asm_text.specs.Outcome.{Yields};
ghost use Rattle.asm_text.specs.Lines.{line_length};
ghost use Rattle.asm_text.specs.Grammar.{line_statement, statements};

use crate::fault::LineFault;
use crate::grammar::statement_of;
use crate::quoted::modified;
use crate::statement::Statement;
use crate::tokens::tokens;
use sqlite_items::Items;
use std::alloc::{AllocError, Global};

// How many bytes stand before the first LF, or the end.
fn line_length(text: &[u8]) -> usize
    ensures value { result ≡ line_length text.now }
    ensures within { result ≤ length text.now }
{
    let mut n = 0;
    while n < text.len() && text[n] != b'\n' {
        n += 1;
    }
    n
}

// The first line, and what stands behind its LF.
fn split_line(text: &[u8]) -> (&[u8], &[u8])
    requires { 0 < length text.now }
    ensures line { result.0.now ≡ take (line_length text.now) text.now }
    ensures rest { result.1.now ≡ drop (line_length text.now + 1) text.now }
    ensures shorter { length result.1.now < length text.now }
{
    let n = line_length(text);
    let (line, _) = text.split_at(n);
    let (_, rest) = text.split_at((n + 1).min(text.len()));
    (line, rest)
}

#[tactic(auto, unfolding(crate::specs::Grammar::line_statement))]
fn line_statement(alloc: Global, line: &[u8]) -> Result<Statement, LineFault>
    ensures { Yields (λ s. s) result (line_statement line.now) }
{
    let text = modified(alloc, line)?;
    let tokens = tokens(alloc, text.as_slice())?;
    statement_of(alloc, tokens.as_slice())
}

fn line_read(alloc: Global, line: &[u8]) -> Result<Option<Statement>, AllocError>
    ensures { IfOk result (λ s. s ≡ line_statement line.now) }
{
    match line_statement(alloc, line) {
        Ok(statement) => Ok(Some(statement)),
        Err(LineFault::Outside) => Ok(None),
        Err(LineFault::Memory) => Err(AllocError),
    }
}

/// What each line of a text says, in their order, and `None` for one that is outside the grammar. A line ends at LF, and the
/// last may have none. The text is UTF-8, and what it says is in modified UTF-8 (JVMS 4.4.7).
#[tactic(auto, unfolding(crate::specs::Grammar::statements))]
pub fn statements(alloc: Global, text: &[u8]) -> Result<Items<Option<Statement>>, AllocError>
    ensures read { IfOk result (λ ls. ls ≡ statements text.now) }
    ensures few { IfOk result (λ ls. length ls ≤ length text.now) }
{
    let mut statements = Items::new(alloc);
    let mut rest = text;
    while rest.len() > 0 {
        let (line, after) = split_line(rest);
        let statement = line_read(alloc, line)?;
        statements.push(statement)?;
        rest = after;
    }
    Ok(statements)
}
