//! Attributes and qualified expressions as pieces of names. (IEEE 1076, attribute names; qualified expressions.)

ghost use Rattle.std.specs.Prelude.{IfOk, List};
ghost use Rattle.vd_forest.specs.Forest.{Forest};
ghost use Rattle.vd_value_rules.specs.declared.forms.IndicatedForm.{IndicatedForm};
ghost use Rattle.vd_meaning.specs.Kinds;
ghost use Rattle.vd_static_values.specs.declared.entries.Ground.{Ground as AnyGround};
ghost use Rattle.vd_static_values.specs.declared.nodes.Node.{Node as AnyNode};
ghost use Rattle.vd_static_names.specs.Known.{HasSubtypes};
ghost use Rattle.vd_static_parts.specs.Made.{IsMade, IsSound};

use std::alloc::{AllocError, Global};
use vd_resolved::Resolved;
use vd_static_parts::brackets::{bracketed_known, bracketed_value};
use vd_static_parts::nodes::piece;
use vd_static_parts::numbers::number_or;
use vd_static_parts::parts::text_of;
use vd_static_parts::qualified;
use vd_static_values::{Ground, Node, Piece};

/// An attribute.
pub fn attribute_piece<'a>(
    alloc: Global,
    node: Resolved,
    text: &'a [u8],
    parts: &[Node<'a>],
) -> Result<Node<'a>, AllocError>
    ensures sound { (subtypes : List (Forest IndicatedForm)) → IfOk result (IsSound subtypes) }
    ensures node { (g : AnyGround) → IfOk result (IsMade Kinds.AttributePiece g node text.now parts.now) }
{
    let attribute = Piece::Attribute {
        name: text_of(parts, 0),
        mark: node.mark,
    };
    Ok(piece(alloc, node, text, attribute))
}

/// The attribute `range`.
pub fn range_piece<'a>(
    alloc: Global,
    node: Resolved,
    text: &'a [u8],
) -> Result<Node<'a>, AllocError>
    ensures sound { (subtypes : List (Forest IndicatedForm)) → IfOk result (IsSound subtypes) }
    ensures node { (g : AnyGround) (parts : List AnyNode) → IfOk result (IsMade Kinds.RangePiece g node text.now parts) }
{
    let attribute = Piece::RangeAttribute { mark: node.mark };
    Ok(piece(alloc, node, text, attribute))
}

/// A qualified expression: the mark in front of it gives the subtype.
pub fn qualification_piece<'a>(
    alloc: Global,
    ground: &Ground<'_>,
    node: Resolved,
    text: &'a [u8],
    parts: &[Node<'a>],
) -> Result<Node<'a>, AllocError>
    requires subtypes { HasSubtypes ground.now }
    ensures sound { IfOk result (IsSound ground.now.subtypes.now) }
    ensures node { IfOk result (IsMade Kinds.QualificationPiece ground.now node text.now parts.now) }
{
    let value = bracketed_value(alloc, parts)?;
    let known = bracketed_known(parts);
    let name = qualified(alloc, ground, number_or(node.declaration), &value, known)?;
    Ok(piece(alloc, node, text, Piece::Own(name)))
}
