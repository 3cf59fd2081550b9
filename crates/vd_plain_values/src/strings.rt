//! Literals in quotation marks: the positional aggregates of their characters. (IEEE 1076, string literals; bit string literals.)

ghost use Rattle.std.specs.Prelude.{◌≡◌, IfOk, MatchOption, []};
ghost use Rattle.std.specs.Str.{bytes_eq};
ghost use Rattle.vd_environments.specs.Environments.{Env};
ghost use Rattle.vd_environments.specs.Got.{got};
ghost use Rattle.vd_plain_values.specs.Plain.{Holds, element_literals_in, literals_in, texts_in};
ghost use Rattle.vd_plain_values.specs.Strings.{ArePlaces, array_by, array_in_places, place_found, places_in, string_in, texts_of};
ghost use Rattle.vd_meaning.specs.Literals.{character, literals_at, position_from};

use crate::answers::settled;
use crate::environment::{ArrayHead, Entry, SubtypeForm, array_head, subtype_of};
use std::alloc::{AllocError, Global};
use vd_composites::Value;
use vd_declarations::TypeId;
use vd_forest::Cursor;
use vd_subtypes::positional_array;
use vd_values::{Scalar, StopKind};

/// Whether a literal is written as a character between apostrophes.
fn is_character(text: &[u8], code: u8) -> bool
    ensures { result ≡ bytes_eq text.now (character code) }
{
    text == [b'\'', code, b'\''].as_slice()
}

/// The place of a character among literals.
fn place_among(literals: &Cursor<'_, SubtypeForm>, code: u8) -> Result<Option<u32>, AllocError>
    ensures { IfOk result (λ r. place_found r ≡ position_from 0 (texts_in literals.now) (character code)) }
{
    let mut left = literals.fork();
    let mut place: u32 = 0;
    while let Some(first) = left.open() {
        if is_character(first.text, code) {
            return Ok(Some(place));
        }
        let Some(more) = place.checked_add(1) else {
            return Err(AllocError);
        };
        place = more;
        left = first.next;
    }
    Ok(None)
}

/// The place of a character among literals, where there are some.
fn place_of(literals: &Option<Cursor<'_, SubtypeForm>>, code: u8) -> Result<Option<u32>, AllocError>
    ensures { IfOk result (λ r. place_found r ≡ position_from 0 (texts_of literals.now) (character code)) }
{
    match literals {
        Some(literals) => place_among(literals, code),
        None => Ok(None),
    }
}

/// The places of some characters among literals.
fn places(
    alloc: Global,
    literals: &Option<Cursor<'_, SubtypeForm>>,
    text: &[u8],
) -> Result<Result<Vec<u32>, StopKind>, AllocError>
    ensures { IfOk result (λ r. ArePlaces r (places_in (texts_of literals.now) text.now)) }
{
    let mut made: Vec<u32> = Vec::new(alloc);
    for code in text {
        match place_of(literals, *code)? {
            Some(place) => made.push(place)?,
            None => return Ok(Err(StopKind::Range)),
        }
    }
    Ok(Ok(made))
}

/// The literals at some places.
fn literals_of(alloc: Global, places: &[u32]) -> Result<Vec<Value>, AllocError>
    ensures { IfOk result (λ vs. vs.items ≡ literals_at places.now) }
{
    let mut made: Vec<Value> = Vec::new(alloc);
    for place in places {
        let value = Value::scalar(alloc, Scalar::Literal(*place))?;
        made.push(value)?;
    }
    Ok(made)
}

/// The literals of a scalar subtype.
fn scalar_literals<'a>(subtype: &Cursor<'a, SubtypeForm>) -> Option<Cursor<'a, SubtypeForm>>
    ensures { texts_of result ≡ literals_in subtype.now }
{
    let first = subtype.open()?;
    match first.form {
        SubtypeForm::Scalar(_) => Some(first.parts),
        SubtypeForm::Unbounded(_) => None,
        SubtypeForm::Bounded(_, _) => None,
        SubtypeForm::Record => None,
        SubtypeForm::Literal => None,
    }
}

/// The literals of the elements of an array subtype.
fn element_literals<'a>(subtype: &Cursor<'a, SubtypeForm>) -> Option<Cursor<'a, SubtypeForm>>
    ensures { texts_of result ≡ element_literals_in subtype.now }
{
    let first = subtype.open()?;
    match first.form {
        SubtypeForm::Unbounded(_) => scalar_literals(&first.parts),
        SubtypeForm::Bounded(_, _) => scalar_literals(&first.parts),
        SubtypeForm::Scalar(_) => None,
        SubtypeForm::Record => None,
        SubtypeForm::Literal => None,
    }
}

/// The array of an array subtype whose elements are the literals at some places, and a stop where it isn't one.
pub fn array_at(
    alloc: Global,
    array: Option<ArrayHead>,
    places: &[u32],
) -> Result<Result<Value, StopKind>, AllocError>
    ensures { IfOk result (λ r. r ≡ array_by array places.now) }
{
    let Some(array) = array else {
        return Ok(Err(StopKind::Range));
    };
    let values = literals_of(alloc, places)?;
    settled(positional_array(alloc, array.index, array.element, &values))
}

/// The array of some characters.
fn array_of(
    alloc: Global,
    subtype: &Cursor<'_, SubtypeForm>,
    places: &[u32],
) -> Result<Result<Value, StopKind>, AllocError>
    ensures { IfOk result (λ r. r ≡ array_in_places subtype.now places.now) }
{
    let array = array_head(subtype)?;
    array_at(alloc, array, places)
}

/// A literal of a subtype.
fn literal_of(
    alloc: Global,
    subtype: &Cursor<'_, SubtypeForm>,
    text: &[u8],
) -> Result<Result<Value, StopKind>, AllocError>
    ensures { IfOk result (λ r. string_in subtype.now text.now ≡ got r) }
{
    match places(alloc, &element_literals(subtype), text)? {
        Ok(places) => array_of(alloc, subtype, &places),
        Err(kind) => Ok(Err(kind)),
    }
}

/// A literal in quotation marks.
pub fn string(
    alloc: Global,
    environment: &[Entry<'_>],
    mark: &Option<TypeId>,
    text: &[u8],
) -> Result<Result<Value, StopKind>, AllocError>
    ensures { (e : Env) → Holds environment.now e → IfOk result (λ r. Rattle.vd_plain_values.specs.Strings.string_of mark.now e text.now ≡ got r) }
{
    let Some(mark) = mark else {
        return Ok(Err(StopKind::Range));
    };
    match subtype_of(environment, mark.number()) {
        Some(subtype) => literal_of(alloc, &subtype, text),
        None => Ok(Err(StopKind::Range)),
    }
}
