//! Instructions that take and put types of fixed letters.
use crate::letter::Letter;

/// What an instruction takes from the stack and puts there.
#[derive(Clone, Copy, Debug, PartialEq, Eq)]
pub struct Effect {
    /// What is taken from the top.
    pub top: Option<Letter>,
    /// What is taken from below it.
    pub below: Option<Letter>,
    /// What is put.
    pub puts: Option<Letter>,
}
