//! The cases of the boot library: the classes and members that programs may ask for, and homes that are made or not.
#![tactic(auto)]

#[cfg(test)]
mod home_tests;
#[cfg(test)]
mod test_table;
#[cfg(test)]
mod tests;
