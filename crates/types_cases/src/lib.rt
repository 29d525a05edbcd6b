//! The cases of frames and of verification types: tables of StackMapTables that were made by hand, and each public function
//! once.
#![tactic(auto)]

#[cfg(test)]
mod test_tables;
#[cfg(test)]
mod tests;
