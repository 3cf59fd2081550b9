//! Arrays from their elements in order.

ghost use Rattle.std.specs.Prelude.{◌≡◌};
ghost use Rattle.vd_composites.specs.Aggregates.{bounds_with_others as with_others};
ghost use Rattle.vd_composites.specs.Answers.{Answers, Found};
ghost use Rattle.vd_composites.specs.Composites.{items_of};
ghost use Rattle.vd_subtypes.specs.Positional.{fit_each_head, positional_by};

use crate::heads::{SubtypeHead, fit};
use std::alloc::Global;
use vd_composites::{Bounds, Items, ScalarSubtype, Value, ValueEnd};
use vd_values::StopKind;

/// Values made values of a subtype with this head, from the left.
fn fit_each(alloc: Global, head: SubtypeHead, values: &[Value]) -> Result<Items, ValueEnd>
    ensures { Found result (fit_each_head head (items_of values.now)) }
{
    let mut items = Items::new(alloc);
    for value in values {
        let made = match fit(alloc, head, value) {
            Ok(made) => made,
            Err(end) => return Err(end),
        };
        if items.push(&made).is_err() {
            return Err(ValueEnd::Memory);
        }
    }
    Ok(items)
}

/// The array of some elements, each made one of the element subtype, as a literal in quotation marks and a positional aggregate without `others` give it.
pub fn positional_array(
    alloc: Global,
    index: ScalarSubtype,
    element: SubtypeHead,
    values: &[Value],
) -> Result<Value, ValueEnd>
    ensures { Answers result (positional_by index element (items_of values.now)) }
{
    let items = fit_each(alloc, element, values)?;
    items.array_on(alloc, index)
}

/// The bounds of an aggregate with `others`, whose bounds are known, and in which the other choices lie.
pub fn bounds_with_others(known: Bounds, choices: &[Bounds]) -> Result<Bounds, StopKind>
    ensures { result ≡ with_others known choices.now }
{
    for choice in choices {
        if !known.covers(*choice) {
            return Err(StopKind::Index);
        }
    }
    Ok(known)
}
