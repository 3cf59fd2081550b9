//! What the operators on INTEGER give.

use anyhow::bail;
use std::alloc::{AllocError, Global};
use vd_integers::{
    integer_absolute, integer_add, integer_divide, integer_modulus, integer_multiply,
    integer_negate, integer_power, integer_remainder, integer_subtract,
};
use vd_values::StopKind;

/// A number, or what stopped a call.
fn shown(alloc: Global, found: Result<i32, StopKind>) -> Result<String, AllocError> {
    match found {
        Ok(number) => format!(in alloc; "{number}"),
        Err(kind) => format!(in alloc; "stop {kind:?}"),
    }
}

/// What an operator gives of two numbers.
fn of_pair(operator: &str, left: i32, right: i32) -> anyhow::Result<Result<i32, StopKind>> {
    if left < -2147483647 || right < -2147483647 {
        bail!("INTEGER has no such value");
    }
    match operator {
        "+" => Ok(integer_add(left, right)),
        "-" => Ok(integer_subtract(left, right)),
        "*" => Ok(integer_multiply(left, right)),
        "/" => Ok(integer_divide(left, right)),
        "rem" => Ok(integer_remainder(left, right)),
        "mod" => Ok(integer_modulus(left, right)),
        "**" => Ok(integer_power(left, right)),
        _ => bail!("there is no operator {operator}"),
    }
}

/// What an operator gives of one number.
fn of_one(operator: &str, number: i32) -> anyhow::Result<Result<i32, StopKind>> {
    if number < -2147483647 {
        bail!("INTEGER has no such value");
    }
    match operator {
        "-" => Ok(integer_negate(number)),
        "abs" => Ok(integer_absolute(number)),
        _ => bail!("there is no operator {operator}"),
    }
}

/// What an operator gives of the numbers behind it.
fn given(words: &[&str]) -> anyhow::Result<Result<i32, StopKind>> {
    match words {
        [operator, number] => of_one(operator, number.parse::<i32>()?),
        [operator, left, right] => of_pair(operator, left.parse::<i32>()?, right.parse::<i32>()?),
        _ => bail!("an operator has one operand or two"),
    }
}

/// The answer of `OPERATOR NUMBER` or `OPERATOR LEFT RIGHT`.
pub fn answer(alloc: Global, words: &str) -> anyhow::Result<String> {
    let words: Vec<&str> = words.split(' ').collect(alloc)?;
    Ok(shown(alloc, given(&words)?)?)
}
