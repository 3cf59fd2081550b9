//! Literals. (IEEE 1076, lexical elements; literals; physical types.)

ghost use Rattle.std.specs.Prelude.{IfOk, Ok};
ghost use Rattle.vd_value_rules.specs.Indicated.{indicated_in};
ghost use Rattle.vd_meaning.specs.Literals.{integer as integer_value, number as number_of, physical as physical_value, string as string_value};
ghost use Rattle.vd_static_values.specs.Entries.{IsFound};

use crate::characters::{element_characters, places};
use crate::finding::unless_stopped;
use crate::subtypes::array_head;
use std::alloc::{AllocError, Global};
use vd_composites::Value;
use vd_forest::Cursor;
use vd_plain_values::literals::{number, time};
use vd_plain_values::strings::array_at;
use vd_value_rules::IndicatedForm;
use vd_values::Scalar;

/// An integer literal. A number that INTEGER doesn't have is answered as want of memory; the rules of the lexis keep literals within it.
pub fn integer(alloc: Global, digits: &[u8]) -> Result<Option<Value>, AllocError>
    ensures { IfOk result (λ found. IsFound found (Ok (integer_value (number_of digits.now)))) }
{
    match number(digits) {
        Some(n) if n < 2_147_483_648 => {
            let value = Value::scalar(alloc, Scalar::Integer(n as i32))?;
            Ok(Some(value))
        }
        _ => Err(AllocError),
    }
}

/// A physical literal: so many of a unit.
pub fn physical(alloc: Global, digits: &[u8], unit: &[u8]) -> Result<Option<Value>, AllocError>
    ensures { IfOk result (λ found. IsFound found (physical_value digits.now unit.now)) }
{
    let value = time(alloc, digits, unit)?;
    Ok(unless_stopped(value))
}

/// A literal in quotation marks, of an array subtype. It takes as many steps as there are characters and literals of the element type.
pub fn string(
    alloc: Global,
    subtype: &Cursor<'_, IndicatedForm>,
    text: &[u8],
) -> Result<Option<Value>, AllocError>
    ensures { IfOk result (λ found. IsFound found (string_value (indicated_in subtype.now).subtype (indicated_in subtype.now).make text.now)) }
{
    let table = element_characters(alloc, subtype)?;
    let Some(places) = places(alloc, &table, text)? else {
        return Ok(None);
    };
    let array = array_head(subtype)?;
    let value = array_at(alloc, array, &places)?;
    Ok(unless_stopped(value))
}
