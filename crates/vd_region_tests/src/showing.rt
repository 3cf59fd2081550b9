//! Values and stops as texts.

use std::alloc::{AllocError, Global};
use vd_composites::{Bounds, Value};
use vd_evaluator::EvaluateEnd;
use vd_values::{Scalar, StopKind};

/// A scalar value: an integer, `#` and the position of a literal, or femtoseconds.
fn scalar(alloc: Global, scalar: Scalar) -> Result<String, AllocError> {
    match scalar {
        Scalar::Integer(number) => format!(in alloc; "{number}"),
        Scalar::Literal(position) => format!(in alloc; "#{position}"),
        Scalar::Time(time) => format!(in alloc; "{time} fs"),
    }
}

/// The bounds of an array.
fn bounds(alloc: Global, bounds: Bounds) -> Result<String, AllocError> {
    let Bounds { left, right, down } = bounds;
    if down {
        format!(in alloc; "{left} downto {right}:")
    } else {
        format!(in alloc; "{left} to {right}:")
    }
}

/// Adds the positions of elements behind a text.
fn add_positions(alloc: Global, positions: &[i64], text: &mut String) -> Result<(), AllocError> {
    for position in positions {
        let one = format!(in alloc; " {position}")?;
        text.push_str(&one)?;
    }
    Ok(())
}

/// An array: its bounds, a colon, and the positions of its elements.
fn array(alloc: Global, own: Bounds, value: &Value) -> Result<String, AllocError> {
    let mut text = bounds(alloc, own)?;
    match value.positions(alloc) {
        Ok(positions) => add_positions(alloc, &positions, &mut text)?,
        Err(_) => text.push_str(" ..")?,
    }
    Ok(text)
}

/// A value.
fn value(alloc: Global, value: &Value) -> Result<String, AllocError> {
    match (value.as_scalar(), value.bounds()) {
        (Some(own), _) => scalar(alloc, own),
        (None, Some(own)) => array(alloc, own, value),
        (None, None) => String::from_str(alloc, "record"),
    }
}

/// The word of a stop.
fn word(kind: StopKind) -> &'static str {
    match kind {
        StopKind::Range => "stop range",
        StopKind::Index => "stop index",
        StopKind::Length => "stop length",
        StopKind::Overflow => "stop overflow",
        StopKind::DivideByZero => "stop division",
        _ => "stop",
    }
}

/// What an expression comes to.
pub fn answer(alloc: Global, found: &Result<Value, EvaluateEnd>) -> Result<String, AllocError> {
    match found {
        Ok(own) => value(alloc, own),
        Err(EvaluateEnd::Stop(kind)) => String::from_str(alloc, word(*kind)),
        Err(EvaluateEnd::NotTaken) => String::from_str(alloc, "not taken"),
        Err(EvaluateEnd::Memory) => Err(AllocError),
    }
}
