//! The cases of loaded classes: what is told of classes that were put in one after the other, and which loader finds them.
#![tactic(auto)]

#[cfg(test)]
mod test_classes;
#[cfg(test)]
mod tests;
