//! Operators, and lists in brackets. (IEEE 1076, operators; aggregates; primaries.)

ghost use Rattle.std.specs.Prelude.{IfOk, List};
ghost use Rattle.vd_forest.specs.Forest.{Forest};
ghost use Rattle.vd_value_rules.specs.declared.forms.IndicatedForm.{IndicatedForm};
ghost use Rattle.vd_meaning.specs.Kinds.{Brackets, Operator};
ghost use Rattle.vd_static_values.specs.declared.entries.Ground.{Ground as GroundOf};
ghost use Rattle.vd_static_names.specs.Known.{HasSubtypes};
ghost use Rattle.vd_static_parts.specs.Made.{IsMade, IsSound};

use std::alloc::{AllocError, Global};
use vd_operations::tables::followed;
use vd_resolved::Resolved;
use vd_static_names::calls::calls_known;
use vd_static_names::values::unless_stopped;
use vd_static_parts::brackets::{bracketed_known, bracketed_value};
use vd_static_parts::calls::call_value;
use vd_static_parts::nodes::expression;
use vd_static_parts::numbers::number_or;
use vd_static_parts::parts::{known_of, operands};
use vd_static_values::{Ground, Node};

/// An operator with its operands.
pub fn operator<'a>(
    alloc: Global,
    ground: &Ground<'_>,
    node: Resolved,
    text: &'a [u8],
    parts: &[Node<'a>],
) -> Result<Node<'a>, AllocError>
    requires subtypes { HasSubtypes ground.now }
    ensures sound { (subtypes : List (Forest IndicatedForm)) → IfOk result (IsSound subtypes) }
    ensures node { IfOk result (IsMade Operator ground.now node text.now parts.now) }
{
    let number = followed(ground.declarations, number_or(node.declaration));
    let known = calls_known(ground, number).both(known_of(parts));
    if !known.is_local {
        return Ok(expression(alloc, node, text, None, known));
    }
    let operands = operands(alloc, parts)?;
    let value = call_value(alloc, ground, number, &operands)?;
    let known = unless_stopped(known, value.is_some());
    Ok(expression(alloc, node, text, value, known))
}

/// A list in brackets: one expression alone, or an aggregate.
pub fn brackets<'a>(
    alloc: Global,
    node: Resolved,
    text: &'a [u8],
    parts: &[Node<'a>],
) -> Result<Node<'a>, AllocError>
    ensures sound { (subtypes : List (Forest IndicatedForm)) → IfOk result (IsSound subtypes) }
    ensures node { (g : GroundOf) → IfOk result (IsMade Brackets g node text.now parts.now) }
{
    let value = bracketed_value(alloc, parts)?;
    Ok(expression(alloc, node, text, value, bracketed_known(parts)))
}
