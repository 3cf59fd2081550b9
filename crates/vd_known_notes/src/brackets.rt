//! Indexes and bounds of slices.

ghost use Rattle.std.specs.Prelude.{◌∷◌, List};
ghost use Rattle.vd_known_designs.specs.Designs.{IsReady, Knows};
ghost use Rattle.vd_value_rules.specs.Designs.{Design};
ghost use Rattle.vd_value_rules.specs.Knowledge.{Known};

use std::alloc::{AllocError, Global};
use vd_composites::{Bounds, Value};
use vd_forest::Cursor;
use vd_known_designs::KnownDesign;
use vd_known_indications::node;
use vd_notes::Note;
use vd_resolved::Resolved;
use vd_static_values::positions::position;
use vd_static_values::{Ranging, Sense};
use vd_value_rules::StaticSort;

/// The note of brackets that are so static, with nothing known of their value.
fn unknown(known: StaticSort) -> Note {
    Note::Index {
        is_local: known.is_local,
        is_global: known.is_global,
        is_known: false,
        left: 0,
        right: 0,
        down: false,
    }
}

/// The note of brackets that are so static, with these bounds where they are values of an index.
fn bounded(known: StaticSort, bounds: Bounds) -> Note {
    let Ok(left) = i32::try_from(bounds.left) else {
        return unknown(known);
    };
    let Ok(right) = i32::try_from(bounds.right) else {
        return unknown(known);
    };
    Note::Index {
        is_local: known.is_local,
        is_global: known.is_global,
        is_known: true,
        left,
        right,
        down: bounds.down,
    }
}

/// The value of an index as both bounds.
fn single(value: &Option<Value>) -> Result<Option<Bounds>, AllocError> {
    let Some(value) = value else {
        return Ok(None);
    };
    let at = position(value)?;
    match at {
        Some(at) => Ok(Some(Bounds {
            left: at,
            right: at,
            down: false,
        })),
        None => Ok(None),
    }
}

/// The bounds of what stands in brackets, where they are known.
fn bounds_of(sense: &Sense<'_>) -> Result<Option<Bounds>, AllocError> {
    match sense.range {
        Ranging::Range(bounds) => Ok(bounds),
        Ranging::NoRange => single(&sense.value),
    }
}

/// The note of brackets whose first element comes to this.
fn noted(sense: &Sense<'_>) -> Result<Note, AllocError> {
    let bounds = bounds_of(sense)?;
    match bounds {
        Some(bounds) => Ok(bounded(sense.known, bounds)),
        None => Ok(unknown(sense.known)),
    }
}

/// The note of brackets with these elements.
pub(crate) fn index_note(
    design: &mut KnownDesign<'_, '_>,
    alloc: Global,
    elements: &Cursor<'_, Resolved>,
) -> Result<Note, AllocError>
    requires ready { IsReady design.old }
    ensures knows { (d : Design) (ks : List Known) → Knows d design.old ks → Knows d design.new ks }
{
    let first = node(design, alloc, elements)?;
    noted(&first.sense)
}
