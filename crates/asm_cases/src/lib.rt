//! The assembler's cases: lines and texts with the bytes and the class trees that they stand for, written by hand from the
//! description of the language.
#![tactic(auto)]

#[cfg(test)]
mod test_table;
#[cfg(test)]
mod tests;
