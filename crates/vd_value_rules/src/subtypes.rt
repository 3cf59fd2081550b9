//! What a subtype as a tree has.

ghost use Rattle.std.specs.Prelude.{◌≡◌, IfOk};
ghost use Rattle.vd_composites.specs.Subtypes.{Scalars, number_of};
ghost use Rattle.vd_environments.specs.Environments.{no_subtype, or_senseless, own_bounds as bounds_made};
ghost use Rattle.vd_value_rules.specs.Indicated.{fields_in, indicated_in, static_of};
ghost use Rattle.vd_meaning.specs.Declarations.{has_bounds as is_bounded, subtypes_of};
ghost use Rattle.vd_meaning.specs.Names.{scalars_of};
ghost use Rattle.vd_subtypes.specs.Heads.{head_of};
ghost use Rattle.vd_value_rules.specs.Knowledge.{is_resolved as resolves};

use crate::forms::IndicatedForm;
use crate::statics::StaticSort;
use std::alloc::AllocError;
use vd_composites::{Bounds, ScalarSubtype, ScalarType};
use vd_forest::Cursor;
use vd_subtypes::SubtypeHead;

/// How many fields these trees are.
fn count(parts: &Cursor<'_, IndicatedForm>) -> Result<u32, AllocError>
    ensures { IfOk result (λ n. n ≡ number_of (subtypes_of (fields_in parts.now))) }
{
    let mut left = parts.fork();
    let mut total: u32 = 0;
    while let Some(first) = left.open() {
        let Some(more) = total.checked_add(1) else {
            return Err(AllocError);
        };
        total = more;
        left = first.next;
    }
    Ok(total)
}

/// What is there where there is no subtype.
fn no_scalar() -> ScalarSubtype
    ensures { Scalars result ≡ no_subtype }
{
    ScalarSubtype {
        of_type: ScalarType::Enumeration(0),
        range: Bounds {
            left: 0,
            right: -1,
            down: false,
        },
    }
}

/// What of a subtype decides whether a value can be made one of it. It takes as many steps as a record has fields.
pub fn head(subtype: &Cursor<'_, IndicatedForm>) -> Result<SubtypeHead, AllocError>
    ensures { IfOk result (λ h. h ≡ head_of (indicated_in subtype.now).subtype) }
{
    let Some(first) = subtype.open() else {
        return Ok(SubtypeHead::Scalar(no_scalar()));
    };
    match first.form {
        IndicatedForm::Scalar { subtype, .. } => Ok(SubtypeHead::Scalar(subtype)),
        IndicatedForm::Unbounded { index, .. } => Ok(SubtypeHead::Unbounded(index)),
        IndicatedForm::Bounded { bounds, .. } => Ok(SubtypeHead::Bounded(bounds)),
        IndicatedForm::Record => {
            let fields = count(&first.parts)?;
            Ok(SubtypeHead::Record(fields))
        }
        IndicatedForm::Literal => Ok(SubtypeHead::Scalar(no_scalar())),
    }
}

/// The scalar subtype that a subtype is.
pub fn scalar(subtype: &Cursor<'_, IndicatedForm>) -> Option<ScalarSubtype>
    ensures { or_senseless result ≡ scalars_of (indicated_in subtype.now).subtype }
{
    let Some(first) = subtype.open() else {
        return Some(no_scalar());
    };
    match first.form {
        IndicatedForm::Scalar { subtype, .. } => Some(subtype),
        IndicatedForm::Unbounded { .. } => None,
        IndicatedForm::Bounded { .. } => None,
        IndicatedForm::Record => None,
        IndicatedForm::Literal => Some(no_scalar()),
    }
}

/// How static its own bounds or its range are.
pub fn own_bounds(subtype: &Cursor<'_, IndicatedForm>) -> StaticSort
    ensures { static_of result ≡ bounds_made (indicated_in subtype.now).make }
{
    let Some(first) = subtype.open() else {
        return StaticSort::never();
    };
    match first.form {
        IndicatedForm::Scalar { range, .. } => range,
        IndicatedForm::Unbounded { known, .. } => known,
        IndicatedForm::Bounded { known, .. } => known,
        IndicatedForm::Record => StaticSort::always(),
        IndicatedForm::Literal => StaticSort::never(),
    }
}

/// Whether signals of it are resolved, where it is scalar.
pub fn is_resolved(subtype: &Cursor<'_, IndicatedForm>) -> bool
    ensures { result ≡ resolves (indicated_in subtype.now).make }
{
    let Some(first) = subtype.open() else {
        return false;
    };
    match first.form {
        IndicatedForm::Scalar { is_resolved, .. } => is_resolved,
        _ => false,
    }
}

/// Whether it isn't an array of any bounds.
pub fn has_bounds(subtype: &Cursor<'_, IndicatedForm>) -> bool
    ensures { result ≡ is_bounded (indicated_in subtype.now).subtype }
{
    let Some(first) = subtype.open() else {
        return true;
    };
    match first.form {
        IndicatedForm::Unbounded { .. } => false,
        _ => true,
    }
}
