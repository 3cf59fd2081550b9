//! Ranges, parts of composite values, and values made values of a subtype.

use crate::shapes::shown;
use crate::values::{Given, range, wanted};
use anyhow::bail;
use std::alloc::{AllocError, Global};
use vd_composites::{Bounds, Items, ScalarSubtype, ScalarType, Value, ValueEnd};

/// The value of a word.
fn value(alloc: Global, word: &str) -> anyhow::Result<Value> {
    match wanted(alloc, word)? {
        Given::Something(value) => Ok(value),
        Given::Stop(_) => bail!("an operand is a stop"),
    }
}

/// The subtype of the integers in a range.
fn integers(range: Bounds) -> ScalarSubtype {
    ScalarSubtype {
        of_type: ScalarType::Integers,
        range,
    }
}

/// What is asked of a range.
fn of_range(alloc: Global, kind: &str, own: Bounds, word: &str) -> anyhow::Result<String> {
    match kind {
        "contains" => {
            let holds = own.contains(word.parse::<i64>()?);
            Ok(format!(in alloc; "{holds}")?)
        }
        "place" => {
            let place = own.place(word.parse::<i64>()?);
            Ok(format!(in alloc; "{place}")?)
        }
        "covers" => {
            let holds = own.covers(range(word)?);
            Ok(format!(in alloc; "{holds}")?)
        }
        _ => bail!("there is no call {kind}"),
    }
}

/// A part of a value.
fn part(
    alloc: Global,
    kind: &str,
    whole: &Value,
    word: &str,
) -> anyhow::Result<Result<Value, ValueEnd>> {
    match kind {
        "element" => Ok(whole.element(alloc, word.parse::<i64>()?)),
        "slice" => Ok(whole.slice(alloc, range(word)?)),
        "field" => Ok(whole.field(alloc, word.parse::<u32>()?)),
        _ => bail!("there is no call {kind}"),
    }
}

/// A value with another part.
fn with_part(
    alloc: Global,
    kind: &str,
    whole: &Value,
    word: &str,
    new: &Value,
) -> anyhow::Result<Result<Value, ValueEnd>> {
    match kind {
        "with_element" => Ok(whole.with_element(alloc, word.parse::<i64>()?, new)),
        "with_slice" => Ok(whole.with_slice(alloc, range(word)?, new)),
        "with_field" => Ok(whole.with_field(alloc, word.parse::<u32>()?, new)),
        _ => bail!("there is no call {kind}"),
    }
}

/// A value made one of a subtype: of an array with bounds, of one with an index subtype, or of integers.
fn fitted(kind: &str, whole: Value, range: Bounds) -> anyhow::Result<Result<Value, ValueEnd>> {
    match kind {
        "fit_bounded" => Ok(whole.fit_bounded(range)),
        "fit_free" => Ok(whole.fit_free(integers(range))),
        "fit_scalar" => Ok(whole.fit_scalar(integers(range))),
        _ => bail!("there is no call {kind}"),
    }
}

/// The record of two values.
fn pair(alloc: Global, left: &str, right: &str) -> anyhow::Result<Value> {
    let left = value(alloc, left)?;
    let right = value(alloc, right)?;
    record_of(alloc, &left, &right)
}

/// The record of two values.
fn record_of(alloc: Global, left: &Value, right: &Value) -> anyhow::Result<Value> {
    let mut fields = Items::new(alloc);
    fields.push(left)?;
    fields.push(right)?;
    match fields.record(alloc) {
        Ok(value) => Ok(value),
        Err(_) => bail!("there is no record"),
    }
}

/// How many elements two arrays have together.
fn count(alloc: Global, left: &Value, right: &Value) -> Result<String, AllocError> {
    let mut items = Items::new(alloc);
    items.push_parts(left)?;
    items.push_parts(right)?;
    let count = items.len();
    format!(in alloc; "{count}")
}

/// The answer of a call with an argument.
fn with_argument(alloc: Global, kind: &str, own: &str, word: &str) -> anyhow::Result<String> {
    match kind {
        "contains" | "place" | "covers" => of_range(alloc, kind, range(own)?, word),
        "count" => Ok(count(alloc, &value(alloc, own)?, &value(alloc, word)?)?),
        "element" | "slice" | "field" => {
            let found = part(alloc, kind, &value(alloc, own)?, word)?;
            shown(alloc, found, 0)
        }
        _ => shown(alloc, fitted(kind, value(alloc, own)?, range(word)?)?, 0),
    }
}

/// The answer of a call with two arguments, or of one whose value is a record of two.
fn with_two(alloc: Global, kind: &str, words: [&str; 3]) -> anyhow::Result<String> {
    let [own, word, new] = words;
    if kind == "pair_field" {
        let found = part(alloc, "field", &pair(alloc, own, word)?, new)?;
        return shown(alloc, found, 0);
    }
    let whole = value(alloc, own)?;
    let found = with_part(alloc, kind, &whole, word, &value(alloc, new)?)?;
    shown(alloc, found, 0)
}

/// The record of two values with another field.
fn pair_with(alloc: Global, words: [&str; 4]) -> anyhow::Result<String> {
    let [left, right, word, new] = words;
    let whole = pair(alloc, left, right)?;
    let found = with_part(alloc, "with_field", &whole, word, &value(alloc, new)?)?;
    shown(alloc, found, 2)
}

/// The answer of `CALL WORD ..`, where values stand as in the table of the operators, and ranges as `LEFT:RIGHT:u` or `LEFT:RIGHT:d`.
pub fn answer(alloc: Global, words: &str) -> anyhow::Result<String> {
    let words: Vec<&str> = words.split(' ').collect(alloc)?;
    match words.as_slice() {
        [_, own] => {
            let length = range(own)?.length();
            Ok(format!(in alloc; "{length}")?)
        }
        [kind, own, word] => with_argument(alloc, kind, own, word),
        [kind, own, word, new] => with_two(alloc, kind, [*own, *word, *new]),
        [_, left, right, word, new] => pair_with(alloc, [*left, *right, *word, *new]),
        _ => bail!("there are other arguments"),
    }
}
