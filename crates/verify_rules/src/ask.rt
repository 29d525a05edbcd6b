//! The questions of verification.
use sqlite_items::Items;

/// Whether one class is assignable to another: what the verifier had to assume of classes that it didn't look at (JVMS
/// 4.10.1.2). Both are internal names.
#[derive(Debug, Drop)]
pub struct Ask {
    pub from: Items<u8>,
    pub to: Items<u8>,
}
