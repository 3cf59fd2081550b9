//! Scalar types and subtypes.

ghost use Rattle.std.specs.Prelude.{◌≡◌, pos};
ghost use Rattle.vd_composites.specs.Scalars.{belongs};
ghost use Rattle.vd_composites.specs.Ranges.{is_within};

use crate::ranges::Bounds;
use vd_values::Scalar;

/// The type of some scalar values.
#[derive(Clone, Copy, PartialEq, Eq, Debug)]
pub enum ScalarType {
    Integers,
    /// An enumeration type of so many literals.
    Enumeration(u32),
    Times,
}

/// A scalar type with a range, whose bounds are positions in the type.
#[derive(Clone, Copy, PartialEq, Eq, Debug)]
pub struct ScalarSubtype {
    pub of_type: ScalarType,
    pub range: Bounds,
}

impl ScalarSubtype {
    /// Whether a value belongs to the subtype.
    pub fn contains(self, scalar: Scalar) -> bool
        ensures { result ≡ belongs self scalar }
    {
        match (self.of_type, scalar) {
            (ScalarType::Integers, Scalar::Integer(x)) => self.range.contains(i64::from(x)),
            (ScalarType::Enumeration(_), Scalar::Literal(p)) => self.range.contains(i64::from(p)),
            (ScalarType::Times, Scalar::Time(t)) => contains_time(self.range, t),
            _ => false,
        }
    }
}

/// Whether a time belongs to a range.
fn contains_time(range: Bounds, time: u64) -> bool
    ensures { result ≡ is_within range (pos time) }
{
    if time > i64::MAX as u64 {
        return false;
    }
    range.contains(time as i64)
}
