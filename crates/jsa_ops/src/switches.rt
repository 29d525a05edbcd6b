//! Where the switches go on (JVMS 6.5, tableswitch and lookupswitch). Distances count bytes from the opcode.
ghost use Rattle.std.specs.Prelude.{◌≡◌, slice_get};
ghost use Rattle.std.specs.Option.{option_map};
ghost use Rattle.jsa_ops.specs.Instruction.{shown};
ghost use Rattle.jsa_ops.specs.Spelling.{word, distances as distances_in, pairs as pairs_in};
ghost use Rattle.jsa_ops.specs.Switches as spec;

use crate::instr::Instr;

fn word(a: u8, b: u8, c: u8, d: u8) -> i32
    ensures { result ≡ word a b c d }
{
    u32::from_be_bytes([a, b, c, d]).cast_signed()
}

/// The first of the distances of a tableswitch, and the bytes of the others. `None` where fewer than four bytes are there.
pub fn first_distance(distances: &[u8]) -> Option<(i32, &[u8])>
    ensures { option_map (λ p. (p.0, p.1.now)) result ≡ spec.first_distance distances.now }
{
    let [a, b, c, d, rest @ ..] = distances else {
        return None;
    };
    Some((word(*a, *b, *c, *d), rest))
}

/// The first of the pairs of a lookupswitch, which is its key and its distance, and the bytes of the others. `None` where
/// fewer than eight bytes are there.
pub fn first_pair(pairs: &[u8]) -> Option<(i32, i32, &[u8])>
    ensures { option_map (λ p. ((p.0, p.1), p.2.now)) result ≡ spec.first_pair pairs.now }
{
    let [a, b, c, d, e, f, g, h, rest @ ..] = pairs else {
        return None;
    };
    Some((word(*a, *b, *c, *d), word(*e, *f, *g, *h), rest))
}

// The distance at a place of those of a tableswitch.
fn table_distance_at(bytes: &[u8], k: usize) -> Option<i32>
    ensures { result ≡ slice_get (distances_in bytes.now) k }
{
    if bytes.len() / 4 <= k {
        return None;
    }
    match first_distance(&bytes[4 * k..]) {
        Some((distance, _)) => Some(distance),
        None => None,
    }
}

// The distance of the pair at a place of those of a lookupswitch.
fn pair_distance_at(bytes: &[u8], k: usize) -> Option<i32>
    ensures { result ≡ slice_get (spec.pair_distances bytes.now) k }
{
    if bytes.len() / 8 <= k {
        return None;
    }
    match first_pair(&bytes[8 * k..]) {
        Some((_, distance, _)) => Some(distance),
        None => None,
    }
}

/// The distance at the place `k` of a switch, from 0 on: of a tableswitch that of low and `k`, of a lookupswitch that of its
/// pair `k`. `None` where it has no more of them, and for an instruction that is no switch. The default isn't among them.
pub fn distance_at(instr: &Instr<'_>, k: usize) -> Option<i32>
    ensures { result ≡ slice_get (spec.distances_of (shown instr.now)) k }
{
    match *instr {
        Instr::TableSwitch(_, _, _, _, distances) => table_distance_at(distances, k),
        Instr::LookupSwitch(_, _, pairs) => pair_distance_at(pairs, k),
        _ => None,
    }
}

fn table_distance(other: i32, low: i32, high: i32, distances: &[u8], key: i32) -> Option<i32>
    ensures { result ≡ spec.table_distance other low high (distances_in distances.now) key }
{
    if key < low || high < key {
        return Some(other);
    }
    table_distance_at(distances, key.abs_diff(low) as usize)
}

fn pair_distance(other: i32, pairs: &[u8], key: i32) -> i32
    ensures { result ≡ spec.pair_distance other (pairs_in pairs.now) key }
{
    let mut rest = pairs;
    while let Some((found, distance, more)) = first_pair(rest) {
        if found == key {
            return distance;
        }
        rest = more;
    }
    other
}

/// The distance for a key: of a tableswitch that of the key less low where the key is from low to high, of a lookupswitch that
/// of the first pair with the key, and the default for any other key.
///
/// `None` for an instruction that is no switch, and for a tableswitch with fewer distances than there are numbers from low to
/// high, which no bytes decode to.
pub fn distance_for(instr: &Instr<'_>, key: i32) -> Option<i32>
    ensures { result ≡ spec.distance_for (shown instr.now) key }
{
    match *instr {
        Instr::TableSwitch(_, other, low, high, distances) => {
            table_distance(other, low, high, distances, key)
        }
        Instr::LookupSwitch(_, other, pairs) => Some(pair_distance(other, pairs, key)),
        _ => None,
    }
}

/// A switch that some bytes decode to has a distance for each key. This does nothing: its contract is a fact for callers.
pub fn each_key_goes_on()
    ensures { spec.EachKeyGoesOn }
{}
