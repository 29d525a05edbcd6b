//! A cursor over bytes.
ghost use Rattle.std.specs.Prelude.{◌≡◌, length};
ghost use Rattle.jsa_base.specs.Reading.{Reads, u1_at, u2_at, u4_at, u8_at, bytes_at, IsBytes};
ghost use Rattle.jsa_base.specs.LowFirst.{low_u4_at, low_u8_at};

use byteorder::{BigEndian, ByteOrder, LittleEndian};
use std::marker::Model;

/// A place in bytes, from which numbers are read with the high byte first, as class files have them (JVMS 4), and by
/// the calls that say so with the low byte first, as archives have them.
///
/// Contracts see it as the list of the bytes that are left. Each read gives what stands at the front and goes behind
/// it. `None` comes exactly where too few bytes are left, and the cursor is then unchanged.
#[derive(Drop)]
pub struct Cursor<'a> {
    rest: &'a [u8],
}

impl<'a> Model for Cursor<'a> {
    ghost use Rattle.std.specs.Prelude.{List, ℕ};

    ghost Value = { List ℕ };

    ghost view = { λ c. c.rest.now };
}

// The items of a slice of bytes are bytes.
fn are_bytes(bytes: &[u8])
    ensures { IsBytes bytes.now }
{}

impl<'a> Cursor<'a> {
    /// A cursor at the start of the bytes.
    pub fn new(bytes: &'a [u8]) -> Cursor<'a>
        ensures { result ≡ bytes.now }
    {
        Cursor { rest: bytes }
    }

    /// What is left are bytes, each below 256. This does nothing: its contract is a fact for callers.
    pub fn are_bytes(&self)
        ensures { IsBytes self.now }
    {
        are_bytes(self.rest);
    }

    /// How many bytes are left.
    pub fn left(&self) -> usize
        ensures { result ≡ length self.now }
    {
        self.rest.len()
    }

    /// The bytes that are left.
    pub fn rest(&self) -> &'a [u8]
        ensures { result.now ≡ self.now }
    {
        self.rest
    }

    /// The next byte.
    pub fn u1(&mut self) -> Option<u8>
        ensures { Reads (λ n. n) result self.old self.new (u1_at self.old) }
    {
        let [a, rest @ ..] = self.rest else {
            return None;
        };
        self.rest = rest;
        Some(*a)
    }

    /// The number in the next two bytes.
    pub fn u2(&mut self) -> Option<u16>
        ensures { Reads (λ n. n) result self.old self.new (u2_at self.old) }
    {
        let [_a, _b, rest @ ..] = self.rest else {
            return None;
        };
        let number = BigEndian::read_u16(self.rest);
        self.rest = rest;
        Some(number)
    }

    /// The number in the next four bytes.
    pub fn u4(&mut self) -> Option<u32>
        ensures { Reads (λ n. n) result self.old self.new (u4_at self.old) }
    {
        let [_a, _b, _c, _d, rest @ ..] = self.rest else {
            return None;
        };
        let number = BigEndian::read_u32(self.rest);
        self.rest = rest;
        Some(number)
    }

    /// The number in the next eight bytes.
    #[tactic(auto, unfolding(crate::specs::Reading::u8_at))]
    pub fn u8(&mut self) -> Option<u64>
        ensures { Reads (λ n. n) result self.old self.new (u8_at self.old) }
    {
        let [_a, _b, _c, _d, _e, _f, _g, _h, rest @ ..] = self.rest else {
            return None;
        };
        let number = BigEndian::read_u64(self.rest);
        self.rest = rest;
        Some(number)
    }

    /// The number in the next four bytes, the low byte first.
    pub fn low_u4(&mut self) -> Option<u32>
        ensures { Reads (λ n. n) result self.old self.new (low_u4_at self.old) }
    {
        let [_a, _b, _c, _d, rest @ ..] = self.rest else {
            return None;
        };
        let number = LittleEndian::read_u32(self.rest);
        self.rest = rest;
        Some(number)
    }

    /// The number in the next eight bytes, the low byte first.
    #[tactic(auto, unfolding(crate::specs::LowFirst::low_u8_at))]
    pub fn low_u8(&mut self) -> Option<u64>
        ensures { Reads (λ n. n) result self.old self.new (low_u8_at self.old) }
    {
        let [_a, _b, _c, _d, _e, _f, _g, _h, rest @ ..] = self.rest else {
            return None;
        };
        let number = LittleEndian::read_u64(self.rest);
        self.rest = rest;
        Some(number)
    }

    /// The next `n` bytes.
    pub fn bytes(&mut self, n: usize) -> Option<&'a [u8]>
        ensures { Reads (λ b. b.now) result self.old self.new (bytes_at n self.old) }
    {
        if self.rest.len() < n {
            return None;
        }
        let (front, rest) = self.rest.split_at(n);
        self.rest = rest;
        Some(front)
    }
}
