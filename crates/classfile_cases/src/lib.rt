//! The cases of class files: whole class files on both sides of each rule.
#![tactic(auto)]

#[cfg(test)]
mod class_tests;
#[cfg(test)]
mod test_classes;
