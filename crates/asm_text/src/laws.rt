//! What the definitions are worth. The functions do nothing: their contracts are facts for callers.
ghost use Rattle.asm_text.specs.Laws.{TokensAreCut, LinesAreCut};

/// Tokens whose quotes are closed, written with a space behind each, are cut apart again.
pub fn tokens_are_cut()
    ensures { TokensAreCut }
{}

/// Lines without LF, written with a LF behind each, are those of the text, also where the last has none.
pub fn lines_are_cut()
    ensures { LinesAreCut }
{}
