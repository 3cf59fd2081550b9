//! Concatenation.

ghost use Rattle.vd_composites.specs.Answers.{Answers};
ghost use Rattle.vd_subtypes.specs.Operands.{Adds, concatenated, elements_by};

use crate::heads::{SubtypeHead, fit};
use std::alloc::Global;
use vd_composites::{Items, ScalarSubtype, Value, ValueEnd};
use vd_values::StopKind;

/// What an operand of `&` is.
#[derive(Clone, Copy, PartialEq, Eq, Debug)]
pub enum OperandKind {
    WholeArray,
    OneElement,
}

/// Adds the elements of an array.
fn add_array(items: &mut Items, operand: &Value) -> Result<(), ValueEnd>
    ensures { Adds result items.old items.new (elements_by (SubtypeHead.Record 0) OperandKind.WholeArray operand.now) }
{
    if operand.bounds().is_none() {
        return Err(ValueEnd::Stop(StopKind::Range));
    }
    match items.push_parts(operand) {
        Ok(()) => Ok(()),
        Err(_) => Err(ValueEnd::Memory),
    }
}

/// Adds an operand that is an element.
fn add_element(
    alloc: Global,
    element: SubtypeHead,
    items: &mut Items,
    operand: &Value,
) -> Result<(), ValueEnd>
    ensures { Adds result items.old items.new (elements_by element OperandKind.OneElement operand.now) }
{
    let made = fit(alloc, element, operand)?;
    match items.push(&made) {
        Ok(()) => Ok(()),
        Err(_) => Err(ValueEnd::Memory),
    }
}

/// Adds the elements of an operand.
fn add_operand(
    alloc: Global,
    element: SubtypeHead,
    kind: OperandKind,
    items: &mut Items,
    operand: &Value,
) -> Result<(), ValueEnd>
    ensures { Adds result items.old items.new (elements_by element kind operand.now) }
{
    match kind {
        OperandKind::WholeArray => add_array(items, operand),
        OperandKind::OneElement => add_element(alloc, element, items, operand),
    }
}

/// The operator `&` of an array type with an index of this subtype.
pub fn concatenate(
    alloc: Global,
    index: ScalarSubtype,
    element: SubtypeHead,
    kinds: (OperandKind, OperandKind),
    left: &Value,
    right: &Value,
) -> Result<Value, ValueEnd>
    ensures { Answers result (concatenated index element kinds.0 kinds.1 left.now right.now) }
{
    let mut items = Items::new(alloc);
    add_operand(alloc, element, kinds.0, &mut items, left)?;
    add_operand(alloc, element, kinds.1, &mut items, right)?;
    items.array_on(alloc, index)
}
