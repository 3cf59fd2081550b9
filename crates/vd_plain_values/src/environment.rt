//! What declarations stand for, in plain tables. (IEEE 1076, declarations.)

ghost use Rattle.std.specs.Prelude.{◌≡◌, IfOk, MatchOption, slice_index_or};
ghost use Rattle.vd_composites.specs.Subtypes.{number_of};
ghost use Rattle.vd_subtypes.specs.Heads.{head_of};
ghost use Rattle.vd_plain_values.specs.Plain.{array_in, no_entry, signal_in, subtype_in, subtypes_in};
ghost use Rattle.vd_forest.specs.Forest.{nothing};
ghost use Rattle.vd_environments.specs.Environments.{no_subtype};

use std::alloc::{AllocError, Global};
use vd_composites::{Bounds, ScalarSubtype, ScalarType, Value};
use vd_forest::Cursor;
use vd_subtypes::SubtypeHead;
use vd_values::{Scalar, StopKind};

/// A node of a subtype as a tree.
#[derive(Clone, Copy, Debug)]
pub enum SubtypeForm {
    /// A scalar subtype; its parts are the literals of its type.
    Scalar(ScalarSubtype),
    /// Arrays of any bounds with an index of this subtype; its part is the subtype of the elements.
    Unbounded(ScalarSubtype),
    /// Arrays of these bounds.
    Bounded(ScalarSubtype, Bounds),
    /// Records; its parts are the subtypes of the fields.
    Record,
    /// A literal of an enumeration type; its text is how it is written.
    Literal,
}

/// What a declaration stands for.
#[derive(Drop)]
pub struct Entry<'a> {
    /// The value of a constant, a variable or a parameter.
    pub value: Value,
    /// The effective value of a signal.
    pub signal: Option<Value>,
    /// The subtype of an object, or that which a mark names.
    pub subtype: Cursor<'a, SubtypeForm>,
}

/// The value of an object.
pub fn object_value(
    alloc: Global,
    environment: &[Entry<'_>],
    number: u32,
) -> Result<Value, AllocError>
    ensures { IfOk result (λ v. v ≡ (slice_index_or environment.now number no_entry).value) }
{
    match environment.get(number as usize) {
        Some(entry) => entry.value.duplicate(alloc),
        None => Value::scalar(alloc, Scalar::Literal(0)),
    }
}

/// The effective value of a signal; where there is no signal, a stop.
pub fn signal_value(
    alloc: Global,
    environment: &[Entry<'_>],
    number: u32,
) -> Result<Result<Value, StopKind>, AllocError>
    ensures { IfOk result (λ r. r ≡ signal_in (slice_index_or environment.now number no_entry).signal) }
{
    match environment.get(number as usize) {
        Some(entry) => match &entry.signal {
            Some(value) => {
                let copy = value.duplicate(alloc)?;
                Ok(Ok(copy))
            }
            None => Ok(Err(StopKind::Range)),
        },
        None => Ok(Err(StopKind::Range)),
    }
}

/// The subtype of an object or of a mark.
pub(crate) fn subtype_of<'a>(
    environment: &[Entry<'a>],
    number: u32,
) -> Option<Cursor<'a, SubtypeForm>>
    ensures { MatchOption result ((slice_index_or environment.now number no_entry).subtype ≡ nothing) (λ c. (slice_index_or environment.now number no_entry).subtype ≡ c) }
{
    let entry = environment.get(number as usize)?;
    Some(entry.subtype.fork())
}

/// How many trees there are.
fn count(parts: &Cursor<'_, SubtypeForm>) -> Result<u32, AllocError>
    ensures { IfOk result (λ n. n ≡ number_of (subtypes_in parts.now)) }
{
    let mut left = parts.fork();
    let mut total: u32 = 0;
    while let Some(first) = left.open() {
        let Some(more) = total.checked_add(1) else {
            return Err(AllocError);
        };
        total = more;
        left = first.next;
    }
    Ok(total)
}

/// What is there where there is no subtype.
fn no_head() -> SubtypeHead
    ensures { result ≡ head_of no_subtype }
{
    SubtypeHead::Scalar(ScalarSubtype {
        of_type: ScalarType::Enumeration(0),
        range: Bounds {
            left: 0,
            right: -1,
            down: false,
        },
    })
}

/// What of a subtype decides whether a value can be made one of it.
pub(crate) fn head(subtype: &Cursor<'_, SubtypeForm>) -> Result<SubtypeHead, AllocError>
    ensures { IfOk result (λ h. h ≡ head_of (subtype_in subtype.now)) }
{
    let Some(first) = subtype.open() else {
        return Ok(no_head());
    };
    match first.form {
        SubtypeForm::Scalar(scalar) => Ok(SubtypeHead::Scalar(scalar)),
        SubtypeForm::Unbounded(index) => Ok(SubtypeHead::Unbounded(index)),
        SubtypeForm::Bounded(_, bounds) => Ok(SubtypeHead::Bounded(bounds)),
        SubtypeForm::Record => {
            let fields = count(&first.parts)?;
            Ok(SubtypeHead::Record(fields))
        }
        SubtypeForm::Literal => Ok(no_head()),
    }
}

/// The head of the subtype that a mark names.
pub fn mark_head(environment: &[Entry<'_>], number: u32) -> Result<SubtypeHead, AllocError>
    ensures { IfOk result (λ h. h ≡ head_of (subtype_in (slice_index_or environment.now number no_entry).subtype)) }
{
    match environment.get(number as usize) {
        Some(entry) => head(&entry.subtype),
        None => Ok(no_head()),
    }
}

/// An array subtype.
#[derive(Clone, Copy)]
pub struct ArrayHead {
    pub index: ScalarSubtype,
    pub bounds: Option<Bounds>,
    pub element: SubtypeHead,
}

/// The array subtype that a subtype is.
pub(crate) fn array_head(subtype: &Cursor<'_, SubtypeForm>) -> Result<Option<ArrayHead>, AllocError>
    ensures { IfOk result (λ a. a ≡ array_in (subtype_in subtype.now)) }
{
    let Some(first) = subtype.open() else {
        return Ok(None);
    };
    match first.form {
        SubtypeForm::Unbounded(index) => {
            let element = head(&first.parts)?;
            Ok(Some(ArrayHead {
                index,
                bounds: None,
                element,
            }))
        }
        SubtypeForm::Bounded(index, bounds) => {
            let element = head(&first.parts)?;
            Ok(Some(ArrayHead {
                index,
                bounds: Some(bounds),
                element,
            }))
        }
        _ => Ok(None),
    }
}
