//! Arrays with other elements.

ghost use Rattle.std.specs.Prelude.{◌≡◌, IfOk};
ghost use Rattle.vd_composites.specs.Composites.{Array as ArrayOf};
ghost use Rattle.vd_composites.specs.Composites.{items_of};
ghost use Rattle.vd_static_values.specs.Levels.{closed as closed_levels, lists_in, regrouped as grouped_again};

use crate::elements::array_of;
use std::alloc::{AllocError, Global};
use vd_composites::{Bounds, Items, Value};

/// Values one after the other.
fn gathered(alloc: Global, values: &[Value]) -> Result<Items, AllocError>
    ensures { IfOk result (λ items. items ≡ items_of values.now) }
{
    let mut items = Items::new(alloc);
    for value in values {
        items.push(value)?;
    }
    Ok(items)
}

/// An array with these bounds and elements.
fn array_with(alloc: Global, bounds: Bounds, values: &[Value]) -> Result<Value, AllocError>
    ensures { IfOk result (λ made. made ≡ ArrayOf bounds (items_of values.now)) }
{
    let items = gathered(alloc, values)?;
    array_of(alloc, bounds, &items)
}

/// Some arrays with other elements, which are as many.
fn regrouped(alloc: Global, arrays: &[Value], elements: &[Value]) -> Result<Vec<Value>, AllocError>
    ensures { IfOk result (λ made. made.items ≡ grouped_again arrays.now elements.now) }
{
    let mut made: Vec<Value> = Vec::new(alloc);
    let mut left = elements;
    for array in arrays {
        let Some(bounds) = array.bounds() else {
            return Err(AllocError);
        };
        let Ok(length) = usize::try_from(bounds.length()) else {
            return Err(AllocError);
        };
        if length > left.len() {
            return Err(AllocError);
        }
        let (own, rest) = left.split_at(length);
        let again = array_with(alloc, bounds, own)?;
        made.push(again)?;
        left = rest;
    }
    Ok(made)
}

/// The arrays of all levels, the outermost first, with these elements in the innermost.
pub(crate) fn closed(
    alloc: Global,
    outer: Vec<Vec<Value>>,
    inner: Vec<Value>,
) -> Result<Vec<Value>, AllocError>
    ensures { IfOk result (λ made. made.items ≡ closed_levels (lists_in outer.items) inner.items) }
{
    let mut outer = outer;
    let mut values = inner;
    while let Some(arrays) = outer.pop() {
        values = regrouped(alloc, &arrays, &values)?;
    }
    Ok(values)
}
