//! The cases of archives that are mapped or refused, each refusal at its edge.
#![tactic(auto)]

#[cfg(test)]
mod classes;
#[cfg(test)]
mod map_tests;
#[cfg(test)]
mod test_bytes;
#[cfg(test)]
mod words;
