//! The elements of arrays, as values of their own. An element stands behind all those before it, and so arrays are halved again and again: it takes
//! as many steps as there are scalars in the arrays, times the logarithm of their length.

ghost use Rattle.std.specs.Prelude.{◌≡◌, ◌++◌, ◌<◌, ◌≤◌, IfOk, Ok, OnOk};
ghost use Rattle.vd_composites.specs.Composites.{count, items_in, listed};
ghost use Rattle.vd_composites.specs.Composites.{Array as ArrayOf};
ghost use Rattle.vd_composites.specs.Parts.{AtIndex, AtSlice, part};
ghost use Rattle.vd_composites.specs.Ranges.{length_of};
ghost use Rattle.vd_static_values.specs.Levels.{AddsElements, AreHalves, AreSized, HaveElements, IsCounted, IsSized, elements_of, up};

use std::alloc::{AllocError, Global};
use vd_composites::{Bounds, Items, Value};

/// Both halves of an array.
#[derive(Drop)]
struct Halves {
    first: Value,
    second: Value,
}

/// The range from one number up to another.
fn ascending(left: i64, right: i64) -> Bounds
    ensures { result ≡ up left right }
{
    Bounds {
        left,
        right,
        down: false,
    }
}

/// An array with these bounds, where they give as many elements.
pub(crate) fn array_of(alloc: Global, bounds: Bounds, items: &Items) -> Result<Value, AllocError>
    ensures is { IfOk result (λ made. made ≡ ArrayOf bounds items.now) }
    ensures sized { OnOk result (count items.now ≡ length_of bounds) }
{
    match items.array(alloc, bounds) {
        Ok(made) => Ok(made),
        Err(_) => Err(AllocError),
    }
}

/// The elements of an array under bounds that begin with 0.
fn counted(alloc: Global, array: &Value) -> Result<Value, AllocError>
    ensures { IfOk result (λ made. IsCounted array.now made) }
{
    let Some(bounds) = array.bounds() else {
        return Err(AllocError);
    };
    let Ok(length) = i64::try_from(bounds.length()) else {
        return Err(AllocError);
    };
    let mut items = Items::new(alloc);
    items.push_parts(array)?;
    array_of(alloc, ascending(0, length - 1), &items)
}

/// The elements of some arrays, each array under bounds that begin with 0.
fn all_counted(alloc: Global, arrays: &[Value]) -> Result<Vec<Value>, AllocError>
    ensures own { OnOk result (AreSized arrays.now) }
    ensures same { IfOk result (λ made. HaveElements arrays.now made.items) }
{
    let mut made: Vec<Value> = Vec::new(alloc);
    for array in arrays {
        let again = counted(alloc, array)?;
        made.push(again)?;
    }
    Ok(made)
}

/// A number in the middle of two, of which the second one is greater.
fn middle_of(low: u64, high: u64) -> u64
    requires { low < high }
    ensures low { low ≤ result }
    ensures high { result < high }
{
    low + (high - low) / 2
}

/// A slice of an array that has one.
fn slice_of(alloc: Global, array: &Value, range: Bounds) -> Result<Value, AllocError>
    ensures { IfOk result (λ made. part (AtSlice range) array.now ≡ Ok made) }
{
    match array.slice(alloc, range) {
        Ok(made) => Ok(made),
        Err(_) => Err(AllocError),
    }
}

/// Both halves of an array whose bounds ascend from a number that isn't negative, where it has two elements or more.
fn halves_of(alloc: Global, array: &Value) -> Result<Option<Halves>, AllocError>
    requires { IsSized array.now }
    ensures { IfOk result (λ halves. AreHalves halves array.now) }
{
    let Some(bounds) = array.bounds() else {
        return Ok(None);
    };
    if bounds.down || bounds.left < 0 || bounds.right <= bounds.left {
        return Ok(None);
    }
    let middle = middle_of(bounds.left as u64, bounds.right as u64);
    let (Ok(end), Ok(begin)) = (i64::try_from(middle), i64::try_from(middle + 1)) else {
        return Err(AllocError);
    };
    let first = slice_of(alloc, array, ascending(bounds.left, end))?;
    let second = slice_of(alloc, array, ascending(begin, bounds.right))?;
    Ok(Some(Halves { first, second }))
}

/// Adds both halves of an array, or itself where it isn't halved.
fn add_halves(alloc: Global, array: &Value, made: &mut Vec<Value>) -> Result<(), AllocError>
    requires { IsSized array.now }
    ensures { OnOk result (AddsElements made.old.items made.new.items array.now) }
{
    match halves_of(alloc, array)? {
        Some(halves) => {
            let Halves { first, second } = halves;
            made.push(first)?;
            made.push(second)?;
        }
        None => {
            let copy = array.duplicate(alloc)?;
            made.push(copy)?;
        }
    }
    Ok(())
}

/// The halves of some arrays.
fn halved(alloc: Global, arrays: &[Value]) -> Result<Vec<Value>, AllocError>
    requires { AreSized arrays.now }
    ensures { IfOk result (λ made. HaveElements arrays.now made.items) }
{
    let mut made: Vec<Value> = Vec::new(alloc);
    for array in arrays {
        add_halves(alloc, array, &mut made)?;
    }
    Ok(made)
}

/// The first element of an array that has one.
fn first_of(alloc: Global, array: &Value, bounds: Bounds) -> Result<Value, AllocError>
    ensures { IfOk result (λ made. part (AtIndex bounds.left) array.now ≡ Ok made) }
{
    match array.element(alloc, bounds.left) {
        Ok(made) => Ok(made),
        Err(_) => Err(AllocError),
    }
}

/// Adds the element of an array that has one element or none.
fn add_single(alloc: Global, array: &Value, made: &mut Vec<Value>) -> Result<(), AllocError>
    requires { IsSized array.now }
    ensures { OnOk result (made.new.items ≡ made.old.items ++ listed (items_in array.now)) }
{
    let Some(bounds) = array.bounds() else {
        return Err(AllocError);
    };
    let length = bounds.length();
    if length > 1 {
        return Err(AllocError);
    }
    if length == 1 {
        let element = first_of(alloc, array, bounds)?;
        made.push(element)?;
    }
    Ok(())
}

/// The elements of arrays that have one element or none each.
fn singles(alloc: Global, arrays: &[Value]) -> Result<Vec<Value>, AllocError>
    requires { AreSized arrays.now }
    ensures { IfOk result (λ made. made.items ≡ elements_of arrays.now) }
{
    let mut made: Vec<Value> = Vec::new(alloc);
    for array in arrays {
        add_single(alloc, array, &mut made)?;
    }
    Ok(made)
}

/// The length of the longest array.
fn longest(arrays: &[Value]) -> u128 {
    let mut most: u128 = 0;
    for array in arrays {
        if let Some(bounds) = array.bounds() {
            most = most.max(bounds.length());
        }
    }
    most
}

/// The elements of some arrays, from the left.
pub(crate) fn all_elements(alloc: Global, arrays: &[Value]) -> Result<Vec<Value>, AllocError>
    ensures sized { OnOk result (AreSized arrays.now) }
    ensures elements { IfOk result (λ made. made.items ≡ elements_of arrays.now) }
{
    let mut pieces = all_counted(alloc, arrays)?;
    let mut most = longest(arrays);
    while most > 1 {
        pieces = halved(alloc, &pieces)?;
        most -= most / 2;
    }
    singles(alloc, &pieces)
}
