//! Numbers of a text.
ghost use Rattle.std.specs.Prelude.{◌≡◌, ◌≤◌, ◌<◌, ◌^◌, IfSome, pos, neg_ℤ, ◌≤ℤ◌};
ghost use Rattle.std.specs.Char.{is_digit};
ghost use Rattle.std.specs.List.{list_all};
ghost use Rattle.asm_text.specs.Numbers.{is_natural, is_numeral, number, natural, integer, four_digits, flags};

fn are_digits(text: &[u8], radix: u32) -> bool
    requires { (2 ≤ radix) × (radix ≤ 36) }
    ensures { result ≡ list_all (λ c. is_digit c radix) text.now }
{
    text.iter().all(|b| char::from(*b).is_digit(radix))
}

fn is_numeral(radix: u32, text: &[u8]) -> bool
    requires { (2 ≤ radix) × (radix ≤ 36) }
    ensures { result ≡ is_numeral radix text.now }
{
    !text.is_empty() && are_digits(text, radix)
}

// The number that digits write, where it is below 2^64.
fn number(radix: u32, text: &[u8]) -> Option<u64>
    requires { (2 ≤ radix) × (radix ≤ 36) }
    ensures { result ≡ number radix text.now }
{
    if !is_numeral(radix, text) {
        return None;
    }
    match str::from_utf8(text) {
        Ok(digits) => u64::from_str_radix(digits, radix).ok(),
        Err(_) => None,
    }
}

fn is_natural(text: &[u8]) -> bool
    ensures { result ≡ is_natural text.now }
{
    let [b, rest @ ..] = text else {
        return false;
    };
    are_digits(text, 10) && (*b != b'0' || rest.is_empty())
}

// A decimal number up to a limit.
#[tactic(auto, using(crate::proofs::Numerals::natural_is, crate::proofs::Numerals::not_natural))]
pub(crate) fn natural(limit: u64, text: &[u8]) -> Option<u64>
    ensures value { result ≡ natural limit text.now }
    ensures within { IfSome result (λ n. n ≤ limit) }
{
    if !is_natural(text) {
        return None;
    }
    let Some(n) = number(10, text) else {
        return None;
    };
    if n <= limit { Some(n) } else { None }
}

// A number from -low to high.
#[tactic(auto, unfolding(crate::specs::Numbers::integer))]
pub(crate) fn integer(low: u64, high: u64, text: &[u8]) -> Option<i64>
    requires low { low ≤ 2 ^ 63 }
    requires high { high < 2 ^ 63 }
    ensures value { result ≡ integer low high text.now }
    ensures above { IfSome result (λ z. neg_ℤ (pos low) ≤ℤ z) }
    ensures below { IfSome result (λ z. z ≤ℤ pos high) }
{
    let [b, rest @ ..] = text else {
        return None;
    };
    if *b != b'-' {
        return match natural(high, text) {
            Some(n) => Some(n as i64),
            None => None,
        };
    }
    match natural(low, rest) {
        Some(0) | None => None,
        Some(n) => Some(-1 - (n - 1) as i64),
    }
}

// The number of four hexadecimal digits.
#[tactic(auto, unfolding(crate::specs::Numbers::four_digits))]
pub(crate) fn four_digits(text: &[u8]) -> Option<u16>
    ensures { result ≡ four_digits text.now }
{
    if text.len() != 4 {
        return None;
    }
    let Some(n) = number(16, text) else {
        return None;
    };
    Some(n as u16)
}

// The number of four hexadecimal digits behind `0x`.
#[tactic(auto, unfolding(crate::specs::Numbers::flags))]
pub(crate) fn flags(text: &[u8]) -> Option<u16>
    ensures { result ≡ flags text.now }
{
    let [a, b, rest @ ..] = text else {
        return None;
    };
    if *a == b'0' && *b == b'x' {
        four_digits(rest)
    } else {
        None
    }
}
