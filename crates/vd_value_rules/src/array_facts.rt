//! What an array subtype as a tree has.

ghost use Rattle.std.specs.Prelude.{◌≡◌};
ghost use Rattle.vd_environments.specs.Environments.{or_senseless};
ghost use Rattle.vd_value_rules.specs.Indicated.{indicated_in, index_of};
ghost use Rattle.vd_meaning.specs.Names.{bounds_of_subtype};
ghost use Rattle.vd_value_rules.specs.Lengths.{static_length as length_known};

use crate::forms::IndicatedForm;
use crate::subtypes::own_bounds;
use vd_composites::{Bounds, ScalarSubtype};
use vd_forest::Cursor;

/// The bounds of an array that has some.
pub fn array_bounds(subtype: &Cursor<'_, IndicatedForm>) -> Option<Bounds>
    ensures { or_senseless result ≡ bounds_of_subtype (indicated_in subtype.now).subtype }
{
    let first = subtype.open()?;
    match first.form {
        IndicatedForm::Bounded { bounds, .. } => Some(bounds),
        _ => None,
    }
}

/// The index subtype of an array.
pub fn index(subtype: &Cursor<'_, IndicatedForm>) -> Option<ScalarSubtype>
    ensures { result ≡ index_of (indicated_in subtype.now).subtype }
{
    let first = subtype.open()?;
    match first.form {
        IndicatedForm::Unbounded { index, .. } => Some(index),
        IndicatedForm::Bounded { index, .. } => Some(index),
        _ => None,
    }
}

/// How many elements an array has, where its bounds are locally static.
pub fn static_length(subtype: &Cursor<'_, IndicatedForm>) -> Option<u128>
    ensures { result ≡ length_known (indicated_in subtype.now) }
{
    if !own_bounds(subtype).is_local {
        return None;
    }
    let bounds = array_bounds(subtype)?;
    Some(bounds.length())
}
