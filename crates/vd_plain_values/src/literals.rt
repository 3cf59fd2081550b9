//! Literals. (IEEE 1076, lexical elements; literals; physical types.)

ghost use Rattle.std.specs.Prelude.{◌≡◌, ◌<◌, ◌≤◌, ◌^◌, ◌*◌, ◌+◌, ◌-◌, IfOk, IfSome, MatchOption, Ok, if◌then◌else◌, nat_lt};
ghost use Rattle.vd_composites.specs.Composites.{One};
ghost use Rattle.vd_composites.specs.Answers.{Answers};
ghost use Rattle.vd_environments.specs.Got.{got, senseless};
ghost use Rattle.vd_meaning.specs.Literals.{integer, number as number_of, physical, unit_in, units};

use std::alloc::{AllocError, Global};
use vd_composites::Value;
use vd_values::{Scalar, StopKind};

/// A number with a digit more.
fn with_digit(total: u64, digit: u8) -> Option<u64>
    ensures { MatchOption result (2 ^ 64 ≤ total * 10 + (digit - 48)) (λ n. n ≡ total * 10 + (digit - 48)) }
{
    let Some(tens) = total.checked_mul(10) else {
        return None;
    };
    tens.checked_add(u64::from(digit.saturating_sub(48)))
}

/// A decimal number, where it is below 2 ^ 64.
#[tactic(auto, using(crate::proofs::LiteralLemmas::one_digit))]
pub fn number(digits: &[u8]) -> Option<u64>
    ensures { MatchOption result (2 ^ 64 ≤ number_of digits.now) (λ n. n ≡ number_of digits.now) }
{
    let mut total: u64 = 0;
    for digit in digits {
        match with_digit(total, *digit) {
            Some(more) => total = more,
            None => return None,
        }
    }
    Some(total)
}

/// How many femtoseconds a unit has.
fn unit(name: &[u8]) -> Option<u64>
    ensures is { MatchOption result (unit_in units name.now ≡ senseless) (λ n. unit_in units name.now ≡ Ok n) }
    ensures some { IfSome result (λ n. 0 < n) }
{
    if b"fs".as_slice() == name {
        Some(1)
    } else if b"ps".as_slice() == name {
        Some(1_000)
    } else if b"ns".as_slice() == name {
        Some(1_000_000)
    } else if b"us".as_slice() == name {
        Some(1_000_000_000)
    } else if b"ms".as_slice() == name {
        Some(1_000_000_000_000)
    } else if b"sec".as_slice() == name {
        Some(1_000_000_000_000_000)
    } else if b"min".as_slice() == name {
        Some(60_000_000_000_000_000)
    } else if b"hr".as_slice() == name {
        Some(3_600_000_000_000_000_000)
    } else {
        None
    }
}

/// So many units, each of so many femtoseconds.
fn femtoseconds(digits: &[u8], each: u64) -> Option<u64>
    requires { 0 < each }
    ensures { MatchOption result (2 ^ 63 ≤ number_of digits.now * each) (λ n. (n ≡ number_of digits.now * each) × (n < 2 ^ 63)) }
{
    let Some(many) = number(digits) else {
        return None;
    };
    let Some(total) = many.checked_mul(each) else {
        return None;
    };
    if total > i64::MAX as u64 {
        None
    } else {
        Some(total)
    }
}

/// A physical literal.
pub fn time(
    alloc: Global,
    digits: &[u8],
    name: &[u8],
) -> Result<Result<Value, StopKind>, AllocError>
    ensures { IfOk result (λ r. got r ≡ physical digits.now name.now) }
{
    let Some(each) = unit(name) else {
        return Ok(Err(StopKind::Range));
    };
    let Some(total) = femtoseconds(digits, each) else {
        return Ok(Err(StopKind::Overflow));
    };
    let value = Value::scalar(alloc, Scalar::Time(total))?;
    Ok(Ok(value))
}
