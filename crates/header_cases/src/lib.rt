//! What no clause of `archive_header` says: the bytes of a header and of manifests, each refusal of a header at its edge, and
//! that manifests are read and made where memory suffices.
#![tactic(auto)]

#[cfg(test)]
mod header_tests;
#[cfg(test)]
mod making_tests;
#[cfg(test)]
mod manifest_tests;
#[cfg(test)]
mod rows;
#[cfg(test)]
mod test_bytes;
