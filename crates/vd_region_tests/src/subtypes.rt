//! The subtypes that declarations have.

ghost use Rattle.std.specs.Prelude.{◌≤◌, IfOk, length};

use std::alloc::AllocError;
use vd_bytes::Place;
use vd_composites::{Bounds, ScalarSubtype, ScalarType};
use vd_evaluator::SubtypeForm;
use vd_forest::{Cursor, Store};

const FIRST: Place = Place {
    file: 0,
    line: 1,
    column: 1,
};

/// The range from 0 up to a number.
fn up_to(right: i64) -> Bounds {
    Bounds {
        left: 0,
        right,
        down: false,
    }
}

/// The integers from 0 to a number.
fn integers(right: i64) -> ScalarSubtype {
    ScalarSubtype {
        of_type: ScalarType::Integers,
        range: up_to(right),
    }
}

/// Adds the integers from 0 to 9.
pub fn add_digits(store: &mut Store<SubtypeForm>) -> Result<u32, AllocError>
    ensures { IfOk result (λ number. number ≤ length store.new) }
{
    store.add(SubtypeForm::Scalar(integers(9)), b"", FIRST, 0, 0)
}

/// Adds the arrays of values '0' and '1', with the indexes of NATURAL.
pub fn add_bits(store: &mut Store<SubtypeForm>) -> Result<u32, AllocError>
    ensures { IfOk result (λ number. number ≤ length store.new) }
{
    let one = store.add(SubtypeForm::Literal, b"'1'", FIRST, 0, 0)?;
    let zero = store.add(SubtypeForm::Literal, b"'0'", FIRST, 0, one)?;
    let bit = ScalarSubtype {
        of_type: ScalarType::Enumeration(2),
        range: up_to(1),
    };
    let element = store.add(SubtypeForm::Scalar(bit), b"", FIRST, zero, 0)?;
    let index = SubtypeForm::Unbounded(integers(2147483647));
    store.add(index, b"", FIRST, element, 0)
}

/// The subtypes by their words.
#[derive(Drop)]
pub struct Subtypes<'a> {
    pub digits: Cursor<'a, SubtypeForm>,
    pub bits: Cursor<'a, SubtypeForm>,
    pub none: Cursor<'a, SubtypeForm>,
}

/// The subtype of a word.
pub fn named<'a>(subtypes: &Subtypes<'a>, word: &str) -> Cursor<'a, SubtypeForm> {
    match word {
        "digits" => subtypes.digits.fork(),
        "bits" => subtypes.bits.fork(),
        _ => subtypes.none.fork(),
    }
}
