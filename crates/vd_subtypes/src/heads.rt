//! Heads of subtypes.

ghost use Rattle.std.specs.Prelude.{◌≡◌};
ghost use Rattle.vd_composites.specs.Answers.{Answers};
ghost use Rattle.vd_subtypes.specs.Heads.{fit_head};

use std::alloc::Global;
use vd_composites::{Bounds, ScalarSubtype, Value, ValueEnd};

/// What of a subtype decides whether a value can be made one of it.
#[derive(Clone, Copy)]
pub enum SubtypeHead {
    Scalar(ScalarSubtype),
    /// Arrays of any bounds with an index of this subtype.
    Unbounded(ScalarSubtype),
    /// Arrays of these bounds.
    Bounded(Bounds),
    /// Records of so many fields.
    Record(u32),
}

/// A value made one of a subtype with this head.
pub fn fit(alloc: Global, head: SubtypeHead, value: &Value) -> Result<Value, ValueEnd>
    ensures { Answers result (fit_head head value.now) }
{
    let Ok(copy) = value.duplicate(alloc) else {
        return Err(ValueEnd::Memory);
    };
    match head {
        SubtypeHead::Scalar(subtype) => copy.fit_scalar(subtype),
        SubtypeHead::Unbounded(index) => copy.fit_free(index),
        SubtypeHead::Bounded(bounds) => copy.fit_bounded(bounds),
        SubtypeHead::Record(fields) => copy.fit_record(fields),
    }
}
