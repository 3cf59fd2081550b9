//! The values of numbers.

ghost use Rattle.std.specs.Prelude.{◌≡◌, ◌*◌, ◌^◌, ◌<◌, ◌≤◌};
ghost use Rattle.std.specs.List.{list_all};
ghost use Rattle.vd_literals.specs.Values as values;
ghost use Rattle.vd_literals.specs.Values.{bounded, value_of, is_below};
ghost use Rattle.vd_tokens.specs.Spellings.{greatest_integer};

use crate::bytes::digit_value;

/// The greatest value of INTEGER.
const GREATEST: u32 = 2147483647;

/// The value of digits, underscores aside, if it isn't above the greatest.
pub fn value(base: u32, digits: &[u8]) -> Option<u32>
    requires low { 1 ≤ base }
    requires high { base ≤ 16 }
    ensures { result ≡ bounded (value_of base digits.now) }
{
    let mut n = 0u64;
    for b in digits {
        if *b != b'_' {
            n = n * base as u64 + digit_value(*b) as u64;
            if n > GREATEST as u64 {
                return None;
            }
        }
    }
    Some(n as u32)
}

/// Whether each of the digits, underscores aside, is below the base.
pub fn are_below(base: u32, digits: &[u8]) -> bool
    ensures { result ≡ list_all (is_below base) digits.now }
{
    digits.iter().all(|b| *b == b'_' || digit_value(*b) < base)
}

/// A value times a power of the base, if it isn't above the greatest.
pub fn scaled(value: u32, base: u32, exponent: u32) -> Option<u32>
    requires fits { value ≤ greatest_integer }
    requires low { 1 ≤ base }
    requires high { base ≤ 16 }
    ensures { result ≡ bounded (value * base ^ exponent) }
{
    let mut n = value as u64;
    let mut left = exponent;
    if value == 0 {
        return Some(0);
    }
    while left > 0 {
        n *= base as u64;
        left -= 1;
        if n > GREATEST as u64 {
            return None;
        }
    }
    Some(n as u32)
}
