//! The cases of constant pools and class trees: pools on both sides of each rule, and members that are alike or not.
#![tactic(auto)]

#[cfg(test)]
mod distinct_tests;
#[cfg(test)]
mod pool_tests;
#[cfg(test)]
mod test_pools;
