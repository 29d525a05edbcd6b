//! The tests of runs: the machine of the first form, and runs over a home that end before the main class is loaded.
#![tactic(auto)]

#[cfg(test)]
mod home_tests;
#[cfg(test)]
mod machine_tests;
#[cfg(test)]
mod test_rows;
