//! The keys of a lookupswitch.
ghost use Rattle.std.specs.Prelude.{◌≡◌};
ghost use Rattle.jsa_ops.specs.Spelling.{keys, ascend as ascend_at};
ghost use Rattle.jsa_ops.specs.Reading.{key_above};

use crate::switches::first_pair;

fn is_above(before: Option<i32>, key: i32) -> bool
    ensures { result ≡ key_above before key }
{
    match before {
        Some(before) => before < key,
        None => true,
    }
}

// Each key of the pairs is above the one before it.
pub(crate) fn ascend(pairs: &[u8]) -> bool
    ensures { result ≡ ascend_at (keys pairs.now) }
{
    let mut before = None;
    let mut rest = pairs;
    while let Some((key, _, more)) = first_pair(rest) {
        if !is_above(before, key) {
            return false;
        }
        before = Some(key);
        rest = more;
    }
    true
}
