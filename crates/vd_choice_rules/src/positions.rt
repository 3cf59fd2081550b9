//! The elements of choices.

ghost use Rattle.std.specs.Prelude.{◌≡◌, ◌==◌, IfOk, length, map, not};
ghost use Rattle.vd_choice_rules.specs.Texts.{is_other_length, items_where, leaves_in, text_in};
ghost use Rattle.vd_composites.specs.Scalars.{position_of};

use std::alloc::{AllocError, Global};
use vd_given_choices::Choice;
use vd_plain_values::answers::scalar_position;
use vd_values::Scalar;

/// The scalar values that a choice is made of, where it is locally static and doesn't stop.
fn leaves_of(alloc: Global, choice: &Choice) -> Result<Option<Vec<Scalar>>, AllocError>
    ensures { IfOk result (λ found. items_where found ≡ leaves_in choice.now) }
{
    if !choice.is_static {
        return Ok(None);
    }
    match &choice.value {
        Some(value) => {
            let scalars = value.leaves(alloc)?;
            Ok(Some(scalars))
        }
        None => Ok(None),
    }
}

/// Whether there aren't so many scalar values.
fn differs(scalars: &[Scalar], count: u128) -> bool
    ensures { result ≡ not (length scalars.now == count) }
{
    scalars.len() as u128 != count
}

/// Whether a choice has another length than so many elements.
pub(crate) fn has_other_length(
    alloc: Global,
    count: u128,
    choice: &Choice,
) -> Result<bool, AllocError>
    ensures { IfOk result (λ answer. answer ≡ is_other_length count (leaves_in choice.now)) }
{
    match leaves_of(alloc, choice)? {
        Some(scalars) => Ok(differs(&scalars, count)),
        None => Ok(false),
    }
}

/// The positions of some scalar values.
fn positions_of(alloc: Global, scalars: &[Scalar]) -> Result<Vec<i64>, AllocError>
    ensures { IfOk result (λ found. found.items ≡ map position_of scalars.now) }
{
    let mut positions = Vec::with_capacity(alloc, scalars.len())?;
    for scalar in scalars {
        let position = scalar_position(*scalar)?;
        positions.push(position)?;
    }
    Ok(positions)
}

/// The positions of the elements of a choice that has so many.
pub(crate) fn text_of(
    alloc: Global,
    count: u128,
    choice: &Choice,
) -> Result<Option<Vec<i64>>, AllocError>
    ensures { IfOk result (λ found. items_where found ≡ text_in count choice.now) }
{
    let Some(scalars) = leaves_of(alloc, choice)? else {
        return Ok(None);
    };
    if differs(&scalars, count) {
        return Ok(None);
    }
    let positions = positions_of(alloc, &scalars)?;
    Ok(Some(positions))
}
