//! Values and stops as the table of the operators writes them.

use anyhow::bail;
use std::alloc::Global;
use vd_composites::{Bounds, Items, Value};
use vd_values::{Scalar, StopKind};

/// What a line gives as a result.
#[derive(Drop)]
pub enum Given {
    Something(Value),
    Stop(StopKind),
}

/// A scalar value: `i5`, `t5` or `l5`.
fn scalar(text: &str) -> anyhow::Result<Scalar> {
    if let Some(digits) = text.strip_prefix('i') {
        return Ok(Scalar::Integer(digits.parse::<i32>()?));
    }
    if let Some(digits) = text.strip_prefix('t') {
        return Ok(Scalar::Time(digits.parse::<u64>()?));
    }
    if let Some(digits) = text.strip_prefix('l') {
        return Ok(Scalar::Literal(digits.parse::<u32>()?));
    }
    bail!("there is no value {text}");
}

/// The elements of an array: `l1,l0`.
fn items(alloc: Global, elements: &str) -> anyhow::Result<Items> {
    let mut items = Items::new(alloc);
    if !elements.is_empty() {
        for element in elements.split(',') {
            items.push_scalar(scalar(element)?)?;
        }
    }
    Ok(items)
}

/// An array: `3:4:u:l1,l0`.
fn array(alloc: Global, text: &str) -> anyhow::Result<Value> {
    let Some(elements) = text.split(':').nth(3) else {
        bail!("there is no array {text}");
    };
    let bounds = range(text)?;
    match items(alloc, elements)?.array(alloc, bounds) {
        Ok(value) => Ok(value),
        Err(_) => bail!("the array {text} has other bounds"),
    }
}

/// A range: `3:4:u` or `4:3:d`.
pub fn range(text: &str) -> anyhow::Result<Bounds> {
    let mut parts = text.split(':');
    let (Some(left), Some(right), Some(direction)) = (parts.next(), parts.next(), parts.next())
    else {
        bail!("there is no range {text}");
    };
    Ok(Bounds {
        left: left.parse::<i64>()?,
        right: right.parse::<i64>()?,
        down: direction == "d",
    })
}

/// The kind of a stop.
fn stop(text: &str) -> anyhow::Result<StopKind> {
    match text {
        "Range" => Ok(StopKind::Range),
        "Index" => Ok(StopKind::Index),
        "Length" => Ok(StopKind::Length),
        "Overflow" => Ok(StopKind::Overflow),
        "DivideByZero" => Ok(StopKind::DivideByZero),
        _ => bail!("there is no stop {text}"),
    }
}

/// A value or a stop.
pub fn wanted(alloc: Global, text: &str) -> anyhow::Result<Given> {
    if let Some(kind) = text.strip_prefix("stop ") {
        return Ok(Given::Stop(stop(kind)?));
    }
    if let Some(rest) = text.strip_prefix('a') {
        return Ok(Given::Something(array(alloc, rest)?));
    }
    Ok(Given::Something(Value::scalar(alloc, scalar(text)?)?))
}
