//! What the other crates share: a cursor over bytes, the words of formats that are read and written from left to right, the
//! writers of numbers, and the quantities that have limits.
#![tactic(auto)]

mod cursor;
mod low_first;
mod quantity;
mod writing;

pub use cursor::Cursor;
pub use low_first::{low_u4, low_u8, put_low_text, put_low_u4, put_low_u8};
pub use quantity::Quantity;
pub use writing::{put_s1, put_s2, put_s4, put_u1, put_u2, put_u4, put_u8};
