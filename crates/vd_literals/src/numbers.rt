//! Numbers.

ghost use Rattle.std.specs.Prelude.{◌≡◌, ◌+◌, ◌*◌, ◌<◌, ◌≤◌, ◌^◌, true, length, drop, Some, None, slice_index, take, slice_range, ℕ, if◌then◌else◌};
ghost use Rattle.vd_literals.specs.Numbers as numbers;
ghost use Rattle.vd_literals.specs.Numbers.{FormFits, ExponentFits, NumberFits, base_of, raised, is_base};
ghost use Rattle.vd_literals.specs.Values.{value_of, bounded};
ghost use Rattle.vd_tokens.specs.Spellings as spellings;
ghost use Rattle.vd_tokens.specs.Spellings.{greatest_integer};

use crate::runs::run_length;
use crate::values::{are_below, scaled, value};

/// What stands behind the digits of a number: no exponent, the places from and up to which the digits of one stand, or a
/// negative exponent.
#[derive(Clone, Copy, PartialEq, Eq, Debug)]
pub enum Exponent {
    Absent,
    Positive { start: usize, end: usize },
    Negative,
}

/// Where the parts of a number stand: how long its base is (0 where it has none), from and up to which place its digits
/// stand, and where its exponent would begin. A number with a point is real.
#[derive(Clone, Copy, PartialEq, Eq, Debug)]
pub enum NumberForm {
    Whole {
        base: usize,
        start: usize,
        end: usize,
        behind: usize,
    },
    Real,
}

/// A number: its length and value, or that the value is above the greatest or that the base or a digit is none, or that a
/// point or a negative exponent makes it no whole number.
#[derive(Clone, Copy, PartialEq, Eq, Debug)]
pub enum NumberItem {
    Whole { length: usize, value: u32 },
    OutOfRange,
    Real,
}

/// The digits of an exponent, behind so many bytes of it.
fn exponent_digits(start: usize, rest: &[u8]) -> Exponent
    requires { start ≤ 2 }
    ensures exponent { result ≡ numbers.exponent_digits start rest.now }
    ensures fits { ExponentFits (start + length rest.now) result }
{
    let n = run_length(false, rest);
    if n == 0 {
        Exponent::Absent
    } else {
        Exponent::Positive {
            start,
            end: start + n,
        }
    }
}

/// An exponent behind its letter.
fn signed_exponent(rest: &[u8]) -> Exponent
    ensures exponent { result ≡ numbers.signed_exponent rest.now }
    ensures fits { ExponentFits (1 + length rest.now) result }
{
    match rest {
        [b'+', more @ ..] => exponent_digits(2, more),
        [b'-', more @ ..] => {
            if run_length(false, more) == 0 {
                Exponent::Absent
            } else {
                Exponent::Negative
            }
        }
        _ => exponent_digits(1, rest),
    }
}

/// The exponent that stands first, if one does.
fn exponent_at(rest: &[u8]) -> Exponent
    ensures exponent { result ≡ numbers.exponent_at rest.now }
    ensures fits { ExponentFits (length rest.now) result }
{
    match rest {
        [b'E' | b'e', more @ ..] => signed_exponent(more),
        _ => Exponent::Absent,
    }
}

/// Whether the digits behind a point stand first, before the mark that ends a based number.
fn is_fraction(rest: &[u8]) -> bool
    ensures { result ≡ numbers.is_fraction rest.now }
{
    let n = run_length(true, rest);
    0 < n && n < rest.len() && rest[n] == b'#'
}

/// A number whose base, of so many bytes, and a mark stand in front.
fn based(n: usize, rest: &[u8]) -> NumberForm
    requires some { 0 < n }
    requires short { n + length rest.now < 2 ^ 63 }
    ensures parts { result ≡ numbers.based n rest.now }
    ensures fits { FormFits (n + 1 + length rest.now) result }
{
    let m = run_length(true, rest);
    if m == 0 {
        return plain(n);
    }
    match &rest[m..] {
        [b'#', ..] => NumberForm::Whole {
            base: n,
            start: n + 1,
            end: n + 1 + m,
            behind: n + 2 + m,
        },
        [b'.', more @ ..] => {
            if is_fraction(more) {
                NumberForm::Real
            } else {
                plain(n)
            }
        }
        _ => plain(n),
    }
}

fn plain(n: usize) -> NumberForm
    ensures { result ≡ numbers.plain n }
{
    NumberForm::Whole {
        base: 0,
        start: 0,
        end: n,
        behind: n,
    }
}

/// Where the parts of the number stand that a digit begins.
fn number_form(rest: &[u8]) -> NumberForm
    requires some { 0 < length rest.now }
    requires digit { spellings.is_digit (slice_index rest.now 0) ≡ true }
    ensures parts { result ≡ numbers.number_form rest.now }
    ensures fits { FormFits (length rest.now) result }
{
    let n = run_length(false, rest);
    match &rest[n..] {
        [b'#', more @ ..] => based(n, more),
        [b'.', more @ ..] => {
            if run_length(false, more) == 0 {
                plain(n)
            } else {
                NumberForm::Real
            }
        }
        _ => plain(n),
    }
}

/// The base that these digits give: ten where there are none.
fn base_value(digits: &[u8]) -> Option<u32>
    ensures { result ≡ (if is_base (base_of digits.now) then Some (base_of digits.now) else None) }
{
    if digits.is_empty() {
        return Some(10);
    }
    match value(10, digits) {
        Some(n) => { if 2 <= n && n <= 16 { Some(n) } else { None } }
        None => None,
    }
}

/// A value times a power of the base, whose exponent's digits are these.
fn power_value(n: u32, base: u32, exponent: &[u8]) -> Option<u32>
    requires fits { n ≤ greatest_integer }
    requires base { is_base base ≡ true }
    ensures { result ≡ bounded (n * base ^ value_of 10 exponent.now) }
{
    match value(10, exponent) {
        Some(times) => scaled(n, base, times),
        None => { if n == 0 { Some(0) } else { None } }
    }
}

/// The value of digits times a power of the base, whose exponent's digits are these.
fn raised_value(base: u32, digits: &[u8], exponent: &[u8]) -> Option<u32>
    requires { is_base base ≡ true }
    ensures { result ≡ raised base digits.now (value_of 10 exponent.now) }
{
    if !are_below(base, digits) {
        return None;
    }
    match value(base, digits) {
        Some(n) => power_value(n, base, exponent),
        None => None,
    }
}

/// The value of a number of these parts.
fn number_value(base: &[u8], digits: &[u8], exponent: &[u8]) -> Option<u32>
    ensures { result ≡ numbers.number_value base.now digits.now exponent.now }
{
    match base_value(base) {
        Some(base) => raised_value(base, digits, exponent),
        None => None,
    }
}

/// A number of so many bytes, by its value.
fn item_of(length: usize, value: Option<u32>) -> NumberItem
    ensures item { result ≡ numbers.item_of length value }
    ensures fits { (size : ℕ) → 0 < length → length ≤ size → NumberFits size result }
{
    match value {
        Some(value) => NumberItem::Whole { length, value },
        None => NumberItem::OutOfRange,
    }
}

/// The number that a digit begins.
pub fn number_at(rest: &[u8]) -> NumberItem
    requires some { 0 < length rest.now }
    requires digit { spellings.is_digit (slice_index rest.now 0) ≡ true }
    ensures item { result ≡ numbers.number_at rest.now }
    ensures fits { NumberFits (length rest.now) result }
{
    match number_form(rest) {
        NumberForm::Real => NumberItem::Real,
        NumberForm::Whole {
            base,
            start,
            end,
            behind,
        } => match exponent_at(&rest[behind..]) {
            Exponent::Negative => NumberItem::Real,
            Exponent::Absent => item_of(
                behind,
                number_value(&rest[..base], &rest[start..end], &[]),
            ),
            Exponent::Positive {
                start: first,
                end: last,
            } => item_of(
                behind + last,
                number_value(
                    &rest[..base],
                    &rest[start..end],
                    &rest[behind..][first..last],
                ),
            ),
        },
    }
}
