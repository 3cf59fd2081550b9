//! Ranges, which are also the bounds of arrays.

ghost use Rattle.std.specs.Prelude.{◌≡◌, pos, ◌+ℤ◌, ◌-ℤ◌};
ghost use Rattle.vd_composites.specs.Ranges.{is_within, length_of, lies_within, place_of, size_of};
ghost use Rattle.vd_composites.specs.Parts.{is_slice};

/// A left bound, a right bound and a direction. The values of a discrete type stand by their positions.
#[derive(Clone, Copy, PartialEq, Eq, Debug)]
pub struct Bounds {
    pub left: i64,
    pub right: i64,
    /// Whether the direction is `downto`.
    pub down: bool,
}

/// How many numbers stand from one to another, both counted.
fn count_from(low: i64, high: i64) -> u128
    ensures { result ≡ size_of (high -ℤ low +ℤ pos 1) }
{
    if high < low {
        return 0;
    }
    (i128::from(high) - i128::from(low) + 1) as u128
}

/// How many steps lead from one number to another that isn't less.
fn steps_between(low: i64, high: i64) -> u128
    ensures { result ≡ size_of (high -ℤ low) }
{
    if high < low {
        return 0;
    }
    (i128::from(high) - i128::from(low)) as u128
}

impl Bounds {
    /// How many values the range has.
    pub fn length(self) -> u128
        ensures { result ≡ length_of self }
    {
        if self.down {
            count_from(self.right, self.left)
        } else {
            count_from(self.left, self.right)
        }
    }

    /// Whether a number belongs to the range.
    pub fn contains(self, index: i64) -> bool
        ensures { result ≡ is_within self index }
    {
        if self.down {
            self.right <= index && index <= self.left
        } else {
            self.left <= index && index <= self.right
        }
    }

    /// The place of an index, from 0.
    pub fn place(self, index: i64) -> u128
        ensures { result ≡ place_of self index }
    {
        if self.down {
            steps_between(index, self.left)
        } else {
            steps_between(self.left, index)
        }
    }

    /// Whether a range is null or both its bounds belong to this one.
    pub fn covers(self, other: Bounds) -> bool
        ensures { result ≡ lies_within self other }
    {
        other.length() == 0 || (self.contains(other.left) && self.contains(other.right))
    }

    /// Whether a slice of an array with these bounds may have this range.
    pub fn takes_slice(self, range: Bounds) -> bool
        ensures { result ≡ is_slice self range }
    {
        self.down == range.down && self.covers(range)
    }
}
