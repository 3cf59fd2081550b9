//! The fields of long records.

ghost use Rattle.std.specs.Prelude.{◌≤◌, IfOk, length};
ghost use Rattle.vd_static_names.specs.Jumps.{AreJumps};

use anyhow::bail;
use std::alloc::{AllocError, Global};
use vd_bytes::Place;
use vd_composites::{Bounds, ScalarSubtype, ScalarType};
use vd_forest::Store;
use vd_static_names::FieldTable;
use vd_value_rules::subtypes::scalar;
use vd_value_rules::{IndicatedForm, StaticSort};

/// The integers up to a bound.
fn up_to(right: u32) -> IndicatedForm {
    IndicatedForm::Scalar {
        subtype: ScalarSubtype {
            of_type: ScalarType::Integers,
            range: Bounds {
                left: 0,
                right: i64::from(right),
                down: false,
            },
        },
        is_resolved: false,
        range: StaticSort::always(),
    }
}

/// A record whose fields have the numbers of the fields behind them as bounds.
fn long_record(store: &mut Store<IndicatedForm>, fields: u32) -> Result<u32, AllocError>
    ensures within { IfOk result (λ number. number ≤ length store.new) }
{
    let place = Place {
        file: 0,
        line: 0,
        column: 0,
    };
    let mut made = 0;
    for behind in 0..fields {
        made = store.add(up_to(behind), b"field", place, 0, made)?;
    }
    let record = store.add(IndicatedForm::Record, b"", place, made, 0)?;
    Ok(record)
}

/// The greatest value of a field's subtype, or that there is no such field.
fn greatest(alloc: Global, store: &Store<IndicatedForm>, field: u32) -> Result<String, AllocError>
    requires { field ≤ length store.now }
{
    if field == 0 {
        return String::from_str(alloc, "none");
    }
    let right = scalar(&store.cursor(field)).map_or(-1, |s| s.range.right);
    format!(in alloc; "{right}")
}

/// Adds the greatest value of the field with a number.
fn add_field(
    alloc: Global,
    store: &Store<IndicatedForm>,
    table: &mut FieldTable,
    subtype: u32,
    number: u32,
    answer: &mut String,
) -> Result<(), AllocError>
    requires subtype { subtype ≤ length store.now }
    requires known { AreJumps table.old.jumps.items store.now }
    ensures known { AreJumps table.new.jumps.items store.now }
{
    let field = table.field(store, subtype, number)?;
    let text = greatest(alloc, store, field)?;
    if !answer.is_empty() {
        answer.push(' ')?;
    }
    answer.push_str(text.as_str())
}

/// Adds the greatest values of the fields with these numbers.
fn add_fields(
    alloc: Global,
    store: &Store<IndicatedForm>,
    subtype: u32,
    numbers: [u32; 4],
    answer: &mut String,
) -> Result<(), AllocError>
    requires { subtype ≤ length store.now }
{
    let [first, second, third, fourth] = numbers;
    let mut table = FieldTable::new(alloc);
    add_field(alloc, store, &mut table, subtype, first, answer)?;
    add_field(alloc, store, &mut table, subtype, second, answer)?;
    add_field(alloc, store, &mut table, subtype, third, answer)?;
    add_field(alloc, store, &mut table, subtype, fourth, answer)
}

/// The greatest values of fields of a record of so many.
fn of_record(alloc: Global, fields: u32, numbers: [u32; 4]) -> Result<String, AllocError> {
    let mut store = Store::new(alloc);
    let record = long_record(&mut store, fields)?;
    let mut answer = String::new(alloc);
    add_fields(alloc, &store, record, numbers, &mut answer)?;
    Ok(answer)
}

/// The answer of `FIELDS NUMBER NUMBER NUMBER NUMBER`.
pub fn answer(alloc: Global, words: &str) -> anyhow::Result<String> {
    let words: Vec<&str> = words.split(' ').collect(alloc)?;
    let [fields, first, second, third, fourth] = words.as_slice() else {
        bail!("there are five numbers");
    };
    let numbers = [
        first.parse::<u32>()?,
        second.parse::<u32>()?,
        third.parse::<u32>()?,
        fourth.parse::<u32>()?,
    ];
    Ok(of_record(alloc, fields.parse::<u32>()?, numbers)?)
}
