//! What holds of the definitions: each function does nothing, and its contract is the law.
ghost use Rattle.jsa_ops.specs.Places.{AnswersExactly, BehindIsUnread, CutGoesOn};

/// Each answer of `decode` comes exactly where its cause holds.
pub fn answers_are_exact()
    ensures { AnswersExactly }
{}

/// Bytes behind the end of a code change no answer at a place of it but `Cut`.
pub fn behind_is_unread()
    ensures { BehindIsUnread }
{}

/// At each place of a code there is another answer than `Cut` once enough bytes stand behind it.
pub fn cut_goes_on()
    ensures { CutGoesOn }
{}
