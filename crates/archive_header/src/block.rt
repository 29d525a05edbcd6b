//! The bytes of a header while they are written.
ghost use Rattle.std.specs.Prelude.{◌≡◌, ◌+◌, ◌≤◌, [], ◌++◌, length};

use std::marker::Model;

/// Up to 256 bytes, written from left to right without taking memory. Contracts see it as the list of the bytes so far.
#[derive(Drop)]
pub(crate) struct Block {
    bytes: [u8; 256],
    written: usize,
}

impl Model for Block {
    ghost use Rattle.std.specs.Prelude.{ℕ, ◌≤◌, List, take};

    ghost Value = { List ℕ };

    ghost view = { λ b. take b.written b.bytes };

    ghost invariant = { λ b. b.written ≤ 256 };
}

impl Block {
    pub(crate) fn new() -> Block
        ensures { result ≡ [] }
    {
        Block {
            bytes: [0; 256],
            written: 0,
        }
    }

    pub(crate) fn push(&mut self, more: &[u8])
        requires { length self.old + length more.now ≤ 256 }
        ensures bytes { self.new ≡ self.old ++ more.now }
        ensures length { length self.new ≡ length self.old + length more.now }
    {
        let end = self.written + more.len();
        self.bytes[self.written..end].copy_from_slice(more);
        self.written = end;
    }

    pub(crate) fn bytes(&self) -> &[u8]
        ensures { result.now ≡ self.now }
    {
        &self.bytes[..self.written]
    }

    /// All 256 bytes.
    pub(crate) fn whole(self) -> [u8; 256]
        requires { length self ≡ 256 }
        ensures { result ≡ self }
    {
        self.bytes
    }
}
