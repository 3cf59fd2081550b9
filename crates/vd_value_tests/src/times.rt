//! Sums, differences, products and quotients of times.

use anyhow::bail;
use std::alloc::{AllocError, Global};
use vd_values::{StopKind, time_add, time_div, time_scale, time_sub};

/// A time, or what stopped a call.
fn shown(alloc: Global, found: Result<u64, StopKind>) -> Result<String, AllocError> {
    match found {
        Ok(time) => format!(in alloc; "{time}"),
        Err(kind) => format!(in alloc; "stop {kind:?}"),
    }
}

const LAST: u64 = 9223372036854775807;

/// What an operator gives of two times.
fn of_times(operator: &str, left: u64, right: u64) -> anyhow::Result<Result<u64, StopKind>> {
    if left > LAST || right > LAST {
        bail!("there is no such time");
    }
    match operator {
        "+" => Ok(time_add(left, right)),
        "-" => Ok(time_sub(left, right)),
        _ => bail!("there is no operator {operator}"),
    }
}

/// What an operator gives of a time and a number.
fn of_number(operator: &str, left: u64, right: i32) -> anyhow::Result<Result<u64, StopKind>> {
    if left > LAST {
        bail!("there is no such time");
    }
    match operator {
        "*" => Ok(time_scale(left, right)),
        _ => Ok(time_div(left, right)),
    }
}

/// What an operator gives of a time and a number or another time.
fn given(operator: &str, left: u64, right: &str) -> anyhow::Result<Result<u64, StopKind>> {
    match operator {
        "*" | "/" => of_number(operator, left, right.parse::<i32>()?),
        _ => of_times(operator, left, right.parse::<u64>()?),
    }
}

/// The answer of `OPERATOR TIME TIME` or `OPERATOR TIME NUMBER`.
pub fn answer(alloc: Global, words: &str) -> anyhow::Result<String> {
    let words: Vec<&str> = words.split(' ').collect(alloc)?;
    let [operator, left, right] = words.as_slice() else {
        bail!("an operator has two operands");
    };
    Ok(shown(alloc, given(operator, left.parse::<u64>()?, right)?)?)
}
