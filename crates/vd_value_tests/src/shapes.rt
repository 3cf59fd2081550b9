//! Subtypes, their defaults and what is made of them, as text.

use crate::names::{index_of, whole};
use crate::values::range;
use anyhow::bail;
use std::alloc::{AllocError, Global};
use vd_composites::{Bounds, ScalarSubtype, ScalarType, Value, ValueEnd};
use vd_operators::array_range;
use vd_subtypes::{Subtype, SubtypeHead, bounds_with_others, positional_array};
use vd_values::Scalar;

/// A scalar value or an array of them as the table writes it.
fn shown_part(alloc: Global, value: &Value) -> anyhow::Result<String> {
    match value.as_scalar() {
        Some(Scalar::Integer(x)) => return Ok(format!(in alloc; "i{x}")?),
        Some(Scalar::Literal(n)) => return Ok(format!(in alloc; "l{n}")?),
        Some(Scalar::Time(t)) => return Ok(format!(in alloc; "t{t}")?),
        None => {}
    }
    let Some(bounds) = value.bounds() else {
        bail!("a record stands in a record");
    };
    let (left, right) = (bounds.left, bounds.right);
    let direction = if bounds.down { "d" } else { "u" };
    let mut text = format!(in alloc; "a{left}:{right}:{direction}:")?;
    for position in value_positions(alloc, value)? {
        text.push_str(format!(in alloc; "{position},")?.as_str())?;
    }
    Ok(text)
}

/// The positions of an array's elements.
fn value_positions(alloc: Global, value: &Value) -> anyhow::Result<Vec<i64>> {
    match value.positions(alloc) {
        Ok(positions) => Ok(positions),
        Err(_) => bail!("there are no positions"),
    }
}

/// A value of so many fields, or what stopped it.
pub fn shown(alloc: Global, found: Result<Value, ValueEnd>, fields: u32) -> anyhow::Result<String> {
    let value = match found {
        Ok(value) => value,
        Err(ValueEnd::Stop(kind)) => return Ok(format!(in alloc; "stop {kind:?}")?),
        Err(ValueEnd::Memory) => bail!("memory ran out"),
    };
    if fields == 0 {
        return shown_part(alloc, &value);
    }
    let mut text = String::from_str(alloc, "r")?;
    for number in 0..fields {
        let Ok(part) = value.field(alloc, number) else {
            bail!("a field is missing");
        };
        text.push_str(" ")?;
        text.push_str(shown_part(alloc, &part)?.as_str())?;
    }
    Ok(text)
}

/// The subtype of the bits.
fn bit(alloc: Global) -> Result<Subtype, AllocError> {
    Subtype::scalars(alloc, whole(ScalarType::Enumeration(2)))
}

/// Arrays of bits from 3 down to 1.
fn byte(alloc: Global) -> Result<Subtype, AllocError> {
    let bounds = Bounds {
        left: 3,
        right: 1,
        down: true,
    };
    Subtype::bounded(alloc, index_of("bits"), bounds, &bit(alloc)?)
}

/// The integers from 9 down to 5.
fn small(alloc: Global) -> Result<Subtype, AllocError> {
    let range = Bounds {
        left: 9,
        right: 5,
        down: true,
    };
    Subtype::scalars(
        alloc,
        ScalarSubtype {
            of_type: ScalarType::Integers,
            range,
        },
    )
}

/// Records of a small integer and three bits.
fn pair(alloc: Global) -> Result<Subtype, AllocError> {
    let mut fields = Vec::new(alloc);
    fields.push(small(alloc)?)?;
    fields.push(byte(alloc)?)?;
    Subtype::records(alloc, &fields)
}

/// The subtype of a word.
fn subtype(alloc: Global, word: &str) -> Result<Subtype, AllocError> {
    match word {
        "bits" => Subtype::unbounded(alloc, index_of("bits"), &bit(alloc)?),
        "pair" => pair(alloc),
        _ => bit(alloc),
    }
}

/// A subtype's default.
fn default_text(alloc: Global, subtype: &Subtype, fields: u32) -> anyhow::Result<String> {
    let value = subtype.default_value(alloc)?;
    shown(alloc, Ok(value), fields)
}

/// A subtype with a constraint, by its default.
fn constrained_text(alloc: Global, subtype: &Subtype, bounds: Bounds) -> anyhow::Result<String> {
    match subtype.with_constraint(alloc, bounds) {
        Ok(made) => default_text(alloc, &made, 0),
        Err(end) => shown(alloc, Err(end), 0),
    }
}

/// The integers from 0 up, so many of them.
fn numbers(alloc: Global, count: i32) -> Result<Vec<Value>, AllocError> {
    let mut values = Vec::new(alloc);
    for x in 0..count {
        values.push(Value::scalar(alloc, Scalar::Integer(x))?)?;
    }
    Ok(values)
}

/// An array of integers in an array type with an index of 5 to 7.
fn few_text(alloc: Global, count: i32) -> anyhow::Result<String> {
    let values = numbers(alloc, count)?;
    let element = SubtypeHead::Scalar(whole(ScalarType::Integers));
    let found = positional_array(alloc, index_of("few"), element, &values);
    shown(alloc, found, 0)
}

/// The bounds of an aggregate that has `others` and this choice besides, where its subtype has bounds.
fn others_text(alloc: Global, known: Bounds, choice: Bounds) -> anyhow::Result<String> {
    let found = bounds_with_others(known, &[choice]);
    Ok(format!(in alloc; "{found:?}")?)
}

/// 'range or 'reverse_range of a null array from 0 down to 1, whose index is of an enumeration of so many literals.
fn range_text(alloc: Global, backwards: bool, literals: u32) -> anyhow::Result<String> {
    let bounds = Bounds {
        left: 0,
        right: 1,
        down: true,
    };
    let Ok(value) = Value::of_literals(alloc, bounds, &[]) else {
        bail!("there is no null array");
    };
    match array_range(backwards, ScalarType::Enumeration(literals), &value) {
        Ok(bounds) => Ok(format!(in alloc; "{bounds:?}")?),
        Err(kind) => Ok(format!(in alloc; "stop {kind:?}")?),
    }
}

/// The answer of a word about a subtype, an array or a range, and of two.
fn answer_of(alloc: Global, kind: &str, word: &str) -> anyhow::Result<String> {
    match kind {
        "default" => {
            let fields = if word == "pair" { 2 } else { 0 };
            default_text(alloc, &subtype(alloc, word)?, fields)
        }
        "few" => few_text(alloc, word.parse::<i32>()?),
        "range" => range_text(alloc, false, word.parse::<u32>()?),
        "reverse_range" => range_text(alloc, true, word.parse::<u32>()?),
        _ => bail!("there is no call {kind}"),
    }
}

/// The answer of `default SUBTYPE`, `few COUNT`, `range LITERALS`, `reverse_range LITERALS`, `constrained SUBTYPE RANGE` or `others RANGE RANGE`.
pub fn answer(alloc: Global, words: &str) -> anyhow::Result<String> {
    let words: Vec<&str> = words.split(' ').collect(alloc)?;
    match words.as_slice() {
        [kind, word] => answer_of(alloc, kind, word),
        [kind, word, bounds] => {
            if *kind == "constrained" {
                return constrained_text(alloc, &subtype(alloc, word)?, range(bounds)?);
            }
            others_text(alloc, range(word)?, range(bounds)?)
        }
        _ => bail!("there are other arguments"),
    }
}
