//! The bounds of the variable that has the value of a selector.

ghost use Rattle.std.specs.Prelude.{◌≤◌, length};
ghost use Rattle.vd_known_designs.specs.Designs.{IsReady};

use vd_composites::{Bounds, ScalarSubtype, ScalarType};
use vd_declarations::{DeclId, TypeId};
use vd_forest::{Cursor, Store};
use vd_known_designs::KnownDesign;
use vd_value_rules::IndicatedForm;

/// The bounds and the direction of an array. Those of an enumeration type stand by their positions.
#[derive(Clone, Copy)]
pub(crate) struct Bounded {
    pub(crate) left: i32,
    pub(crate) right: i32,
    pub(crate) down: bool,
}

/// All values of a scalar type.
fn whole_range(of: ScalarType) -> Bounds {
    let (left, right) = match of {
        ScalarType::Integers => (-2147483647, 2147483647),
        ScalarType::Enumeration(count) => (0, count as i64 - 1),
        ScalarType::Times => (0, i64::MAX),
    };
    Bounds {
        left,
        right,
        down: false,
    }
}

/// Whether the first of some subtypes is scalar, and is known to have all values of its type.
fn is_whole(subtypes: &Cursor<'_, IndicatedForm>) -> bool {
    match subtypes.form() {
        Some(IndicatedForm::Scalar { subtype, range, .. }) => {
            range.is_local && subtype.range.covers(whole_range(subtype.of_type))
        }
        _ => false,
    }
}

/// Whether the numbers from 1 to this one are values of an index subtype.
fn has_numbers(index: ScalarSubtype, last: i64) -> bool {
    matches!(index.of_type, ScalarType::Integers)
        && index.range.contains(1)
        && index.range.contains(last)
}

/// So many values of an index subtype: from 1 on, or from its left bound in its direction.
fn indexes(index: ScalarSubtype, count: i64) -> Bounds {
    let range = index.range;
    if has_numbers(index, count) {
        return Bounds {
            left: 1,
            right: count,
            down: false,
        };
    }
    let steps = count.saturating_sub(1);
    let right = if range.down {
        range.left.saturating_sub(steps)
    } else {
        range.left.saturating_add(steps)
    };
    Bounds {
        left: range.left,
        right,
        down: range.down,
    }
}

/// Bounds in smaller numbers.
fn narrow(bounds: Bounds) -> Option<Bounded> {
    let Ok(left) = i32::try_from(bounds.left) else {
        return None;
    };
    let Ok(right) = i32::try_from(bounds.right) else {
        return None;
    };
    Some(Bounded {
        left,
        right,
        down: bounds.down,
    })
}

/// The bounds of so many elements, where there are some, and the index subtype has so many values.
fn bounds_by(index: ScalarSubtype, count: u128) -> Option<Bounded> {
    if count == 0 || index.range.length() < count {
        return None;
    }
    let Ok(count) = i64::try_from(count) else {
        return None;
    };
    narrow(indexes(index, count))
}

/// The same for an array type, the subtype with a number: it has any bounds, its index subtype is locally static, and its elements have all values of
/// their type.
fn bounds_in(subtypes: &Store<IndicatedForm>, number: u32, count: u128) -> Option<Bounded>
    requires { number ≤ length subtypes.now }
{
    let first = subtypes.cursor(number).open()?;
    match first.form {
        IndicatedForm::Unbounded { index, known } if known.is_local && is_whole(&first.parts) => {
            bounds_by(index, count)
        }
        _ => None,
    }
}

/// The bounds of a variable of an array type that takes each value of the type with so many elements, where there can be one: the type has any bounds, the
/// number of elements is known and isn't 0, the index subtype is locally static and has so many values, and the element subtype has all of its type.
pub(crate) fn bounds_of_type(
    design: &KnownDesign<'_, '_>,
    of: Option<TypeId>,
    count: Option<u128>,
) -> Option<Bounded>
    requires ready { IsReady design.now }
{
    let of = of?;
    let count = count?;
    let subtypes = design.marked(Some(DeclId::of(of.number())));
    bounds_in(design.table.subtypes.store(), subtypes.own, count)
}
