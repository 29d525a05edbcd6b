//! The tests of loading and linking: small worlds of class files, with what each load answers, which classes are loaded,
//! and which files are read.
#![tactic(auto)]

#[cfg(test)]
mod files;
#[cfg(test)]
mod tests;
#[cfg(test)]
mod worlds;
