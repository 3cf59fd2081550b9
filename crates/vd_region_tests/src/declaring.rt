//! Declarations, and what they stand for.

use crate::forms::class_of;
use crate::trees::{field, mark, number};
use std::alloc::{AllocError, Global};
use vd_bytes::{Place, Text};
use vd_composites::{Bounds, Value};
use vd_declarations::{Class, DeclId, Declaration, Declarations, Made};
use vd_evaluator::{Entry, SubtypeForm};
use vd_forest::Cursor;
use vd_values::Scalar;

const FIRST: Place = Place {
    file: 0,
    line: 1,
    column: 1,
};

/// The two parameters of an operator, from the fields of a word on.
fn parameters(alloc: Global, word: &str) -> Result<Vec<DeclId>, AllocError> {
    let mut ids = Vec::new(alloc);
    for at in 3..5 {
        if let Some(number) = number(word, at) {
            ids.push(DeclId::of(number))?;
        }
    }
    Ok(ids)
}

/// A declaration of a class.
fn declared(alloc: Global, class: Class, word: &str) -> Result<Declaration, AllocError> {
    let parameters = parameters(alloc, word)?;
    let name = Text::from_slice(alloc, field(word, 1).as_bytes())?;
    let wanted = Text::from_slice(alloc, field(word, 1).as_bytes())?;
    Ok(Declaration {
        class,
        name,
        mark: mark(number(word, 2)),
        parameters: Declarations::of(parameters),
        generics: Declarations::of(Vec::new(alloc)),
        inside: None,
        place: FIRST,
        made: Made::Written,
        wanted,
    })
}

/// The declaration of a word `CLASS;NAME;TYPE;PARAMETER;PARAMETER;VALUE;SUBTYPE`, if it is one. An array type has the type of its
/// elements in the place of the first parameter.
pub fn declaration(alloc: Global, word: &str) -> Result<Option<Declaration>, AllocError> {
    match class_of(field(word, 0), number(word, 3).unwrap_or(0)) {
        Some(class) => Ok(Some(declared(alloc, class, word)?)),
        None => Ok(None),
    }
}

/// The array of these bits, four from 0 up.
fn bits(alloc: Global, digits: &str) -> Result<Value, AllocError> {
    let mut positions: Vec<u8> = Vec::new(alloc);
    for digit in digits.bytes() {
        positions.push(digit.saturating_sub(b'0'))?;
    }
    let range = Bounds {
        left: 0,
        right: 3,
        down: false,
    };
    match Value::of_literals(alloc, range, &positions) {
        Ok(value) => Ok(value),
        Err(_) => Err(AllocError),
    }
}

/// The value of a field: bits behind a quotation mark, or an integer.
fn value(alloc: Global, text: &str) -> Result<Value, AllocError> {
    match text.strip_prefix('"') {
        Some(digits) => bits(alloc, digits),
        None => Value::scalar(alloc, Scalar::Integer(text.parse::<i32>().unwrap_or(0))),
    }
}

/// The effective value of a signal, which a declaration of another class hasn't.
fn signal(alloc: Global, word: &str) -> Result<Option<Value>, AllocError> {
    if field(word, 0) == "signal" {
        Ok(Some(value(alloc, field(word, 5))?))
    } else {
        Ok(None)
    }
}

/// What the declaration of a word stands for.
pub fn entry<'a>(
    alloc: Global,
    subtype: Cursor<'a, SubtypeForm>,
    word: &str,
) -> Result<Entry<'a>, AllocError> {
    let signal = signal(alloc, word)?;
    let value = value(alloc, field(word, 5))?;
    Ok(Entry {
        value,
        signal,
        subtype,
    })
}
