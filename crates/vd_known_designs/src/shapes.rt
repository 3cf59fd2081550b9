//! The bounds of arrays, by their subtypes.

ghost use Rattle.std.specs.Prelude.{◌≡◌, IfOk};
ghost use Rattle.vd_composites.specs.Ranges.{from_left};
ghost use Rattle.vd_value_rules.specs.Indicated.{indicated_in};
ghost use Rattle.vd_known_designs.specs.Shapes.{default_shape as shape_of_default, fitted_shape as shape_of_fitted, signals_shape as shape_of_signals};
ghost use Rattle.vd_value_rules.specs.Knowledge.{later_bounds};

use std::alloc::AllocError;
use vd_composites::{Bounds, ScalarSubtype};
use vd_forest::Cursor;
use vd_value_rules::IndicatedForm;

/// The bounds of an array of signals whose subtype has none.
fn no_bounds() -> Bounds
    ensures { result ≡ later_bounds }
{
    Bounds {
        left: 1,
        right: 0,
        down: false,
    }
}

/// The bounds of a null array at the left bound of an index subtype. What 64 bits don't hold is taken for want of memory.
fn null_bounds(index: ScalarSubtype) -> Result<Bounds, AllocError>
    ensures { IfOk result (λ b. b ≡ from_left index.range.left index.range.down 0) }
{
    let range = index.range;
    let right = if range.down {
        range.left.checked_add(1)
    } else {
        range.left.checked_sub(1)
    };
    match right {
        None => Err(AllocError),
        Some(right) => Ok(Bounds {
            left: range.left,
            right,
            down: range.down,
        }),
    }
}

/// The bounds of the leftmost value of a subtype, where that is an array.
pub fn default_shape(subtype: &Cursor<'_, IndicatedForm>) -> Result<Option<Bounds>, AllocError>
    ensures { IfOk result (λ shape. shape ≡ shape_of_default (indicated_in subtype.now).subtype) }
{
    let Some(first) = subtype.open() else {
        return Ok(None);
    };
    match first.form {
        IndicatedForm::Bounded { bounds, .. } => Ok(Some(bounds)),
        IndicatedForm::Unbounded { index, .. } => {
            let bounds = null_bounds(index)?;
            Ok(Some(bounds))
        }
        _ => Ok(None),
    }
}

/// The bounds of a value that was made one of a subtype, where its own ones were these.
pub fn fitted_shape(subtype: &Cursor<'_, IndicatedForm>, own: Option<Bounds>) -> Option<Bounds>
    ensures { result ≡ shape_of_fitted (indicated_in subtype.now).subtype own }
{
    let first = subtype.open()?;
    match first.form {
        IndicatedForm::Bounded { bounds, .. } => Some(bounds),
        IndicatedForm::Unbounded { .. } => own,
        _ => None,
    }
}

/// The bounds of the scalar signals of a subtype, where it is one of arrays.
pub fn signals_shape(subtype: &Cursor<'_, IndicatedForm>) -> Option<Bounds>
    ensures { result ≡ shape_of_signals (indicated_in subtype.now).subtype }
{
    let first = subtype.open()?;
    match first.form {
        IndicatedForm::Bounded { bounds, .. } => Some(bounds),
        IndicatedForm::Unbounded { .. } => Some(no_bounds()),
        _ => None,
    }
}
