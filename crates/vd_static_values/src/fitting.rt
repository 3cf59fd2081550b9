//! Values made values of a subtype. (IEEE 1076, subtypes; qualified expressions.)

ghost use Rattle.std.specs.Prelude.{IfOk};
ghost use Rattle.vd_composites.specs.Subtypes.{fit as made_one_of};
ghost use Rattle.vd_environments.specs.Got.{got};
ghost use Rattle.vd_value_rules.specs.Indicated.{indicated_in};
ghost use Rattle.vd_meaning.specs.Names.{whole_converted};
ghost use Rattle.vd_static_values.specs.Entries.{IsFound};

use crate::finding::found;
use std::alloc::{AllocError, Global};
use vd_composites::Value;
use vd_forest::Cursor;
use vd_value_rules::IndicatedForm;
use vd_value_rules::subtypes::head;

/// The value made one of a subtype; its elements and fields stay as they are.
pub fn fit(
    alloc: Global,
    subtype: &Cursor<'_, IndicatedForm>,
    value: &Value,
) -> Result<Option<Value>, AllocError>
    ensures { IfOk result (λ found. IsFound found (got (made_one_of (indicated_in subtype.now).subtype value.now))) }
{
    fit_whole(alloc, subtype, value)
}

/// The value of a qualified expression, and of a conversion before its elements are converted.
pub fn fit_whole(
    alloc: Global,
    subtype: &Cursor<'_, IndicatedForm>,
    value: &Value,
) -> Result<Option<Value>, AllocError>
    ensures { IfOk result (λ found. IsFound found (whole_converted (indicated_in subtype.now).subtype value.now)) }
{
    let head = head(subtype)?;
    found(vd_subtypes::fit(alloc, head, value))
}
