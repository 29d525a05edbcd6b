//! The frames that a method declares, by their places.
ghost use Rattle.std.specs.Prelude.{◌≡◌, ◌<◌, ◌≤◌, ◌^◌, ℕ, length, slice_get, IfOk, OnOk};
ghost use Rattle.std.specs.Option.{option_copied, option_map};
ghost use Rattle.verify_rules.specs.declared.types.Frame.{Frame};
ghost use Rattle.verify_rules.specs.Flow.{declared_at};
ghost use Rattle.verify_rules.specs.Walking.{Numbers, Puts, SameNumbers, number_at};

use sqlite_items::Items;
use std::alloc::{AllocError, Global};
use std::marker::Model;
use verify_rules::Frame;

/// Declared frames. The one of a place is found at once.
///
/// Contracts see them as the list of the places and their frames.
#[derive(Drop)]
pub(crate) struct Declared {
    frames: Items<(u32, Frame)>,
    // For each place the number of its frame in the list, if it has one.
    numbers: Items<Option<usize>>,
}

impl Model for Declared {
    ghost use Rattle.std.specs.Prelude.{◌≡◌, ℕ, List};
    ghost use Rattle.verify_rules.specs.declared.types.Frame.{Frame};

    ghost Value = { List (ℕ × Frame) };

    ghost use Rattle.verify_rules.specs.Walking.{Numbers};

    ghost view = { λ d. d.frames };

    ghost invariant = { λ d. Numbers d.frames 0 d.numbers };
}

// The frame of a number.
fn frame_at(frames: &[(u32, Frame)], k: usize) -> Option<&Frame>
    ensures { option_copied result ≡ option_map (λ (d : ℕ × Frame). d.1) (slice_get frames.now k) }
{
    match frames.get(k) {
        Some(declared) => Some(&declared.1),
        None => None,
    }
}

// The number that is kept for a place.
fn number_at(numbers: &[Option<usize>], place: usize) -> Option<usize>
    ensures { result ≡ number_at numbers.now place }
{
    match numbers.get(place) {
        Some(number) => *number,
        None => None,
    }
}

// Makes so many places, which have no numbers.
fn grow(numbers: &mut Items<Option<usize>>, places: usize) -> Result<(), AllocError>
    ensures same { OnOk result (SameNumbers numbers.old numbers.new) }
    ensures long { OnOk result (places ≤ length numbers.new) }
{
    for _ in numbers.len()..places {
        numbers.push(None)?;
    }
    Ok(())
}

// Puts a number at a place.
fn put(numbers: &mut Items<Option<usize>>, place: usize, number: usize) -> Result<(), AllocError>
    requires { place < 2 ^ 32 }
    ensures { OnOk result (Puts place number numbers.old numbers.new) }
{
    grow(numbers, place + 1)?;
    numbers.set(place, Some(number));
    Ok(())
}

// The numbers of frames by their places. Of several at one place the first counts.
fn numbered(alloc: Global, frames: &[(u32, Frame)]) -> Result<Items<Option<usize>>, AllocError>
    ensures { IfOk result (λ numbers. Numbers frames.now 0 numbers) }
{
    let mut numbers = Items::new(alloc);
    for k in (0..frames.len()).rev() {
        put(&mut numbers, frames[k].0 as usize, k)?;
    }
    Ok(numbers)
}

impl Declared {
    /// The frames of a list, which takes memory up to the greatest of their places.
    pub fn new(alloc: Global, frames: Items<(u32, Frame)>) -> Result<Declared, AllocError>
        ensures { IfOk result (λ declared. declared ≡ frames) }
    {
        let numbers = numbered(alloc, frames.as_slice())?;
        Ok(Declared { frames, numbers })
    }

    /// The frame that is declared at a place.
    pub fn at(&self, place: usize) -> Option<&Frame>
        ensures { option_copied result ≡ declared_at self.now place }
    {
        match number_at(self.numbers.as_slice(), place) {
            Some(k) => frame_at(self.frames.as_slice(), k),
            None => None,
        }
    }
}
