//! The tokens of a line.
ghost use Rattle.std.specs.Prelude.{◌≡◌, IfOk};
ghost use Rattle.asm_text.specs.Lines.{mode_after, is_between, closed, taken, tokens, uncut};

use sqlite_items::Items;
use std::alloc::{AllocError, Global};

/// Where a line is, byte by byte.
#[derive(Debug, Clone, Copy, PartialEq, Eq)]
pub enum Mode {
    Between,
    Plain,
    /// Between the quotes of a token that begins with one.
    Quoted,
    /// Behind a backslash there.
    Escaped,
}

/// A line that is cut so far.
#[derive(Debug, Drop)]
pub struct Cutting {
    pub tokens: Items<Items<u8>>,
    /// The token at hand.
    pub token: Items<u8>,
    pub mode: Mode,
}

fn mode_after(mode: Mode, b: u8) -> Mode
    ensures { result ≡ mode_after mode b }
{
    match mode {
        Mode::Between => {
            if b == b' ' {
                Mode::Between
            } else if b == b'"' {
                Mode::Quoted
            } else {
                Mode::Plain
            }
        }
        Mode::Plain => {
            if b == b' ' {
                Mode::Between
            } else {
                Mode::Plain
            }
        }
        Mode::Quoted => {
            if b == b'"' {
                Mode::Plain
            } else if b == b'\\' {
                Mode::Escaped
            } else {
                Mode::Quoted
            }
        }
        Mode::Escaped => Mode::Quoted,
    }
}

fn is_between(mode: Mode) -> bool
    ensures { result ≡ is_between mode }
{
    matches!(mode, Mode::Between)
}

fn closed(cutting: Cutting) -> Result<Items<Items<u8>>, AllocError>
    ensures { IfOk result (λ ts. ts ≡ closed cutting) }
{
    let Cutting {
        mut tokens,
        token,
        mode,
    } = cutting;
    if !is_between(mode) {
        tokens.push(token)?;
    }
    Ok(tokens)
}

fn taken(alloc: Global, b: u8, cutting: Cutting) -> Result<Cutting, AllocError>
    ensures { IfOk result (λ after. after ≡ taken b cutting) }
{
    let mode = mode_after(cutting.mode, b);
    if is_between(mode) {
        let tokens = closed(cutting)?;
        Ok(Cutting {
            tokens,
            token: Items::new(alloc),
            mode,
        })
    } else {
        let Cutting {
            tokens,
            mut token,
            mode: _,
        } = cutting;
        token.push(b)?;
        Ok(Cutting {
            tokens,
            token,
            mode,
        })
    }
}

// The tokens of a line.
pub(crate) fn tokens(alloc: Global, line: &[u8]) -> Result<Items<Items<u8>>, AllocError>
    ensures { IfOk result (λ ts. ts ≡ tokens line.now) }
{
    let mut cutting = Cutting {
        tokens: Items::new(alloc),
        token: Items::new(alloc),
        mode: Mode::Between,
    };
    for b in line {
        cutting = taken(alloc, *b, cutting)?;
    }
    closed(cutting)
}
