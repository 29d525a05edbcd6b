//! What the words of commands ask for, and the names of class lists, written by hand; and that the
//! class of a compiled program and that of its text say the same.
#![tactic(auto)]

#[cfg(test)]
mod asked;
#[cfg(test)]
mod lists;
#[cfg(test)]
mod rows;
#[cfg(test)]
mod said;
#[cfg(test)]
mod tests;
#[cfg(test)]
mod trees;
#[cfg(test)]
mod word_rows;
