//! The matching operators and the condition operator.

ghost use Rattle.std.specs.Prelude.{◌≡◌, Some, None, Result, Ok, Err};
ghost use Rattle.vd_composites.specs.Answers.{Answers, Ends};
ghost use Rattle.vd_vectors.specs.Logics.{logic_value};
ghost use Rattle.vd_vectors.specs.Matching.{condition as condition_value, match_arrays as arrays_match, match_by_shapes, matches as matches_value, matching};
ghost use Rattle.vd_composites.specs.Answers.{Found};

use crate::lists::match_lists;
use crate::logics::{LogicType, as_logic, as_logics, of_logic, of_truth};
use std::alloc::Global;
use vd_composites::{Value, ValueEnd};
use vd_values::{Logic, StopKind, logic_not};

/// The match of two arrays.
fn match_arrays(
    alloc: Global,
    of: LogicType,
    left: &Value,
    right: &Value,
) -> Result<Logic, ValueEnd>
    ensures { Found result (arrays_match of left.now right.now) }
{
    let l = as_logics(alloc, of, left)?;
    let r = as_logics(alloc, of, right)?;
    if l.len() != r.len() {
        return Err(ValueEnd::Stop(StopKind::Length));
    }
    Ok(match_lists(&l, &r))
}

/// The match of two scalars.
fn match_scalars(of: LogicType, left: &Value, right: &Value) -> Result<Logic, ValueEnd>
    ensures { Found result (match_by_shapes of None None left.now right.now) }
{
    let l = match as_logic(of, left) {
        Ok(l) => l,
        Err(kind) => return Err(ValueEnd::Stop(kind)),
    };
    match as_logic(of, right) {
        Ok(r) => Ok(vd_values::matches(l, r)),
        Err(kind) => Err(ValueEnd::Stop(kind)),
    }
}

/// The match of two values.
fn match_values(
    alloc: Global,
    of: LogicType,
    left: &Value,
    right: &Value,
) -> Result<Logic, ValueEnd>
    ensures { Found result (matching of left.now right.now) }
{
    match (left.bounds(), right.bounds()) {
        (Some(_), Some(_)) => match_arrays(alloc, of, left, right),
        (None, None) => match_scalars(of, left, right),
        _ => Err(ValueEnd::Stop(StopKind::Range)),
    }
}

/// The operator `?=`, and `?/=` where it isn't asked for equality.
pub fn matches(
    alloc: Global,
    equal: bool,
    of: LogicType,
    left: &Value,
    right: &Value,
) -> Result<Value, ValueEnd>
    ensures { Answers result (matches_value equal of left.now right.now) }
{
    let found = match_values(alloc, of, left, right)?;
    let value = if equal { found } else { logic_not(found) };
    of_logic(alloc, of, value)
}

/// The operator `??`.
pub fn condition(alloc: Global, of: LogicType, value: &Value) -> Result<Value, ValueEnd>
    ensures { Answers result (condition_value of value.now) }
{
    match as_logic(of, value) {
        Ok(scalar) => of_truth(alloc, vd_values::condition(scalar)),
        Err(kind) => Err(ValueEnd::Stop(kind)),
    }
}
