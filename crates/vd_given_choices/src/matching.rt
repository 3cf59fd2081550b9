//! Whether values match.

ghost use Rattle.std.specs.List.{list_any};
ghost use Rattle.std.specs.Prelude.{◌≡◌, ◌++◌, ◌||◌, IfOk, OnOk};
ghost use Rattle.vd_meaning.specs.Facets.{ByMatching};
ghost use Rattle.vd_meaning.specs.Statements.{is_one as is_one_of};
ghost use Rattle.vd_value_rules.specs.Choices.{any_matches, match as match_of};

use std::alloc::{AllocError, Global};
use vd_composites::{Value, ValueEnd};
use vd_values::Logic;
use vd_vectors::logics::of_logic;
use vd_vectors::{LogicType, matches};

/// Whether a value is the '1' of a logical type.
fn is_one(alloc: Global, of: LogicType, value: &Value) -> Result<bool, AllocError>
    ensures { IfOk result (λ answer. answer ≡ is_one_of of value.now) }
{
    match of_logic(alloc, of, Logic::One) {
        Ok(one) => Ok(value.equals(&one)),
        Err(_) => Err(AllocError),
    }
}

/// Whether one value matches another. Values that `?=` stops at don't.
fn is_match(alloc: Global, of: LogicType, left: &Value, right: &Value) -> Result<bool, AllocError>
    ensures { IfOk result (λ answer. answer ≡ match_of (ByMatching of) left.now right.now) }
{
    match matches(alloc, true, of, left, right) {
        Ok(value) => is_one(alloc, of, &value),
        Err(ValueEnd::Stop(_)) => Ok(false),
        Err(ValueEnd::Memory) => Err(AllocError),
    }
}

/// Whether one of some values matches another one.
fn is_matched(
    alloc: Global,
    of: LogicType,
    before: &[Value],
    value: &Value,
) -> Result<bool, AllocError>
    ensures { IfOk result (λ answer. answer ≡ list_any (λ w. match_of (ByMatching of) w value.now) before.now) }
{
    for earlier in before {
        if is_match(alloc, of, earlier, value)? {
            return Ok(true);
        }
    }
    Ok(false)
}

/// Whether one of two tests holds.
fn either(one: bool, other: bool) -> bool
    ensures { result ≡ (one || other) }
{
    one || other
}

/// Whether one of some values matches an earlier one. They join the earlier ones.
pub(crate) fn add_matching(
    alloc: Global,
    of: LogicType,
    before: &mut Vec<Value>,
    values: Vec<Value>,
) -> Result<bool, AllocError>
    ensures matches { IfOk result (λ answer. answer ≡ any_matches (ByMatching of) before.old.items values.items) }
    ensures joined { OnOk result (before.new.items ≡ before.old.items ++ values.items) }
{
    let mut found = false;
    for value in values {
        let matched = is_matched(alloc, of, before, &value)?;
        found = either(found, matched);
        before.push(value)?;
    }
    Ok(found)
}
