//! Literals. (IEEE 1076, literals; static expressions.)

ghost use Rattle.std.specs.Prelude.{◌≡◌, IfOk, List};
ghost use Rattle.vd_environments.specs.Environments.{Env, all_bounds};
ghost use Rattle.vd_forest.specs.Forest.{Forest};
ghost use Rattle.vd_value_rules.specs.Indicated.{static_of};
ghost use Rattle.vd_value_rules.specs.declared.forms.IndicatedForm.{IndicatedForm};
ghost use Rattle.vd_meaning.specs.Kinds.{CharacterLiteral, NumberLiteral, StringLiteral, TimeLiteral};
ghost use Rattle.vd_meaning.specs.Meanings.{string_value as value_of_string};
ghost use Rattle.vd_meaning.specs.Names.{number_or};
ghost use Rattle.vd_static_values.specs.Entries.{IsFound, IsGround};
ghost use Rattle.vd_static_values.specs.declared.entries.Ground.{Ground as AnyGround};
ghost use Rattle.vd_static_values.specs.declared.nodes.Node.{Node as AnyNode};
ghost use Rattle.vd_static_names.specs.Known.{HasSubtypes};
ghost use Rattle.vd_static_parts.specs.Made.{IsMade, IsSound};

use crate::firsts::first_piece;
use std::alloc::{AllocError, Global};
use vd_composites::Value;
use vd_declarations::TypeId;
use vd_resolved::Resolved;
use vd_static_names::firsts::literal;
use vd_static_names::grounds::{bounds_of, subtype_of};
use vd_static_names::values::unless_stopped;
use vd_static_parts::nodes::{expression, with_name};
use vd_static_parts::numbers::mark_number;
use vd_static_parts::parts::text_of;
use vd_static_values::{Ground, Node, integer, physical, string};
use vd_value_rules::StaticSort;

// ---- characters and strings

/// A character literal.
pub fn character_literal<'a>(
    alloc: Global,
    ground: &Ground<'_>,
    node: Resolved,
    text: &'a [u8],
) -> Result<Node<'a>, AllocError>
    requires { HasSubtypes ground.now }
    ensures sound { IfOk result (IsSound ground.now.subtypes.now) }
    ensures node { (parts : List AnyNode) → IfOk result (IsMade CharacterLiteral ground.now node text.now parts) }
{
    let name = literal(alloc, ground, node.position, node.mark)?;
    Ok(expression(alloc, node, text, name.value, name.known))
}

/// The value of a string or bit string literal.
fn string_value(
    alloc: Global,
    ground: &Ground<'_>,
    node: &Resolved,
    text: &[u8],
) -> Result<Option<Value>, AllocError>
    requires { HasSubtypes ground.now }
    ensures { (e : Env) → IsGround ground.now e → IfOk result (λ v. IsFound v (value_of_string node.now text.now e)) }
{
    match node.mark {
        Some(mark) => string(
            alloc,
            &ground.subtypes.cursor(subtype_of(ground, mark.number())),
            text,
        ),
        None => Ok(None),
    }
}

/// How static all bounds of a type are.
fn bounds_known(ground: &Ground<'_>, mark: Option<TypeId>) -> StaticSort
    ensures { (e : Env) → IsGround ground.now e → static_of result ≡ all_bounds (e.denotes (number_or mark)).make }
{
    bounds_of(ground, mark_number(mark))
}

/// A string or bit string literal.
pub fn string_literal<'a>(
    alloc: Global,
    ground: &Ground<'_>,
    node: Resolved,
    text: &'a [u8],
) -> Result<Node<'a>, AllocError>
    requires { HasSubtypes ground.now }
    ensures sound { IfOk result (IsSound ground.now.subtypes.now) }
    ensures node { (parts : List AnyNode) → IfOk result (IsMade StringLiteral ground.now node text.now parts) }
{
    let value = string_value(alloc, ground, &node, text)?;
    let known = unless_stopped(bounds_known(ground, node.mark), value.is_some());
    let name = first_piece(alloc, ground, &node)?;
    Ok(with_name(expression(alloc, node, text, value, known), name))
}

// ---- numbers

/// A decimal number. One that INTEGER does not have, which the rules of the lexis refuse, is answered as want of memory.
pub fn number_literal<'a>(
    alloc: Global,
    node: Resolved,
    text: &'a [u8],
) -> Result<Node<'a>, AllocError>
    ensures sound { (subtypes : List (Forest IndicatedForm)) → IfOk result (IsSound subtypes) }
    ensures node { (g : AnyGround) (parts : List AnyNode) → IfOk result (IsMade NumberLiteral g node text.now parts) }
{
    let value = integer(alloc, text)?;
    Ok(expression(alloc, node, text, value, StaticSort::always()))
}

/// A physical literal: a number and a unit.
pub fn time_literal<'a>(
    alloc: Global,
    node: Resolved,
    text: &'a [u8],
    parts: &[Node<'a>],
) -> Result<Node<'a>, AllocError>
    ensures sound { (subtypes : List (Forest IndicatedForm)) → IfOk result (IsSound subtypes) }
    ensures node { (g : AnyGround) → IfOk result (IsMade TimeLiteral g node text.now parts.now) }
{
    let value = physical(alloc, text_of(parts, 0), text_of(parts, 1))?;
    let known = unless_stopped(StaticSort::always(), value.is_some());
    Ok(expression(alloc, node, text, value, known))
}
