//! Ranges of values.

ghost use Rattle.std.specs.List.{list_any};
ghost use Rattle.std.specs.Prelude.{◌≡◌, int_le};
ghost use Rattle.vd_composites.specs.Ranges.{high_of, is_null as null_range, low_of};
ghost use Rattle.vd_value_rules.specs.Choices.{share as have_common};

use vd_composites::Bounds;

/// The least value of a range.
pub fn low(bounds: Bounds) -> i64
    ensures { result ≡ low_of bounds }
{
    if bounds.down {
        bounds.right
    } else {
        bounds.left
    }
}

/// The greatest value of a range.
pub fn high(bounds: Bounds) -> i64
    ensures { result ≡ high_of bounds }
{
    if bounds.down {
        bounds.left
    } else {
        bounds.right
    }
}

/// Whether a range has no value.
pub fn is_null(bounds: Bounds) -> bool
    ensures { result ≡ null_range bounds }
{
    bounds.length() == 0
}

/// Whether the least value of a range isn't greater than the greatest of another one.
fn reaches(a: Bounds, b: Bounds) -> bool
    ensures { result ≡ int_le (low_of a) (high_of b) }
{
    low(a) <= high(b)
}

/// Whether two ranges have a value in common.
fn share(a: Bounds, b: Bounds) -> bool
    ensures { result ≡ have_common a b }
{
    let is_first_null = is_null(a);
    let is_second_null = is_null(b);
    let first_reaches = reaches(a, b);
    let second_reaches = reaches(b, a);
    !is_first_null && !is_second_null && first_reaches && second_reaches
}

/// Whether one of some ranges has a value in common with another one.
pub fn any_shares(before: &[Bounds], bounds: Bounds) -> bool
    ensures { result ≡ list_any (λ b. have_common b bounds) before.now }
{
    before.iter().any(|earlier| share(*earlier, bounds))
}
