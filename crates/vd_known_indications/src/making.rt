//! Nodes, by their kinds.

ghost use Rattle.std.specs.Prelude.{◌≡◌, IfOk};
ghost use Rattle.std.specs.List.{All};
ghost use Rattle.vd_static_names.specs.Jumps.{AreJumps};
ghost use Rattle.vd_meaning.specs.Kinds.{kind as kind_in};
ghost use Rattle.vd_known_indications.specs.Kinds.{IsMadeAs};
ghost use Rattle.vd_known_indications.specs.declared.kinds.NodeKind.TheVariants as code;
ghost use Rattle.vd_static_names.specs.Known.{HasSubtypes};
ghost use Rattle.vd_static_parts.specs.Made.{IsMade, IsSound};

use crate::kinds::{Leaf, Listing, NodeKind, PieceKind, RangeKind, kind_of};
use std::alloc::{AllocError, Global};
use vd_resolved::Resolved;
use vd_static_names::FieldTable;
use vd_static_nodes::choices::{any_choice, choice_list};
use vd_static_nodes::elements::{association, open_actual, others_association};
use vd_static_nodes::expressions::{brackets, operator};
use vd_static_nodes::marks::{mark_name, open_index};
use vd_static_nodes::ranges::{constraint, limits, limits_of_mark};
use vd_static_nodes::{
    arguments_piece, attribute_piece, character_literal, number_literal, qualification_piece,
    range_piece, selection_piece, string_literal, time_literal, whole_name, word,
};
use vd_static_parts::nodes::{absent, plain};
use vd_static_values::{Ground, Node};

/// A word or a literal.
fn leaf<'a>(
    kind: Leaf,
    alloc: Global,
    ground: &Ground<'_>,
    node: Resolved,
    text: &'a [u8],
    parts: &[Node<'a>],
) -> Result<Node<'a>, AllocError>
    requires subtypes { HasSubtypes ground.now }
    requires sound { All (IsSound ground.now.subtypes.now) parts.now }
    ensures sound { IfOk result (IsSound ground.now.subtypes.now) }
    ensures made { IfOk result (IsMadeAs (code.Leaf kind) ground.now node text.now parts.now) }
{
    match kind {
        Leaf::Word => word(alloc, ground, node, text),
        Leaf::CharacterLiteral => character_literal(alloc, ground, node, text),
        Leaf::StringLiteral => string_literal(alloc, ground, node, text),
        Leaf::NumberLiteral => number_literal(alloc, node, text),
        Leaf::TimeLiteral => time_literal(alloc, node, text, parts),
    }
}

/// An operator, a list in brackets, or what stands in one.
fn listing<'a>(
    kind: Listing,
    alloc: Global,
    ground: &Ground<'_>,
    node: Resolved,
    text: &'a [u8],
    parts: &[Node<'a>],
) -> Result<Node<'a>, AllocError>
    requires subtypes { HasSubtypes ground.now }
    requires sound { All (IsSound ground.now.subtypes.now) parts.now }
    ensures sound { IfOk result (IsSound ground.now.subtypes.now) }
    ensures made { IfOk result (IsMadeAs (code.Listing kind) ground.now node text.now parts.now) }
{
    match kind {
        Listing::Operator => operator(alloc, ground, node, text, parts),
        Listing::Brackets => brackets(alloc, node, text, parts),
        Listing::Association => association(alloc, parts),
        Listing::OthersAssociation => others_association(alloc, parts),
        Listing::Choices => choice_list(alloc, node, text, parts),
        Listing::Others => any_choice(alloc, node, text),
        Listing::Open => open_actual(alloc, node, text),
    }
}

/// A range, or what stands for one.
fn range<'a>(
    kind: RangeKind,
    alloc: Global,
    ground: &Ground<'_>,
    node: Resolved,
    text: &'a [u8],
    parts: &[Node<'a>],
) -> Result<Node<'a>, AllocError>
    requires subtypes { HasSubtypes ground.now }
    requires sound { All (IsSound ground.now.subtypes.now) parts.now }
    ensures sound { IfOk result (IsSound ground.now.subtypes.now) }
    ensures made { IfOk result (IsMadeAs (code.Range kind) ground.now node text.now parts.now) }
{
    match kind {
        RangeKind::Ascending => limits(alloc, node, text, parts, false),
        RangeKind::Descending => limits(alloc, node, text, parts, true),
        RangeKind::OfMark => limits_of_mark(alloc, ground, node, text, parts),
        RangeKind::OpenIndex => open_index(alloc, parts),
        RangeKind::MarkName => mark_name(alloc, node, text, parts),
        RangeKind::Constraint => constraint(alloc, node, text, parts),
    }
}

/// A name or one of its pieces.
fn piece<'a>(
    kind: PieceKind,
    alloc: Global,
    ground: &Ground<'_>,
    fields: &mut FieldTable,
    node: Resolved,
    text: &'a [u8],
    parts: &[Node<'a>],
) -> Result<Node<'a>, AllocError>
    requires subtypes { HasSubtypes ground.now }
    requires fields { AreJumps fields.old.jumps.items ground.now.subtypes.now }
    requires sound { All (IsSound ground.now.subtypes.now) parts.now }
    ensures sound { IfOk result (IsSound ground.now.subtypes.now) }
    ensures made { IfOk result (IsMadeAs (code.Piece kind) ground.now node text.now parts.now) }
    ensures fields { AreJumps fields.new.jumps.items ground.now.subtypes.now }
{
    match kind {
        PieceKind::WholeName => whole_name(alloc, ground, fields, node, text, parts),
        PieceKind::Selection => selection_piece(alloc, ground, node, text),
        PieceKind::Arguments => arguments_piece(alloc, ground, node, text, parts),
        PieceKind::Attribute => attribute_piece(alloc, node, text, parts),
        PieceKind::Range => range_piece(alloc, node, text),
        PieceKind::Qualification => qualification_piece(alloc, ground, node, text, parts),
    }
}

/// A node of a kind.
fn node_as<'a>(
    kind: NodeKind,
    alloc: Global,
    ground: &Ground<'_>,
    fields: &mut FieldTable,
    node: Resolved,
    text: &'a [u8],
    parts: &[Node<'a>],
) -> Result<Node<'a>, AllocError>
    requires subtypes { HasSubtypes ground.now }
    requires fields { AreJumps fields.old.jumps.items ground.now.subtypes.now }
    requires sound { All (IsSound ground.now.subtypes.now) parts.now }
    ensures sound { IfOk result (IsSound ground.now.subtypes.now) }
    ensures made { IfOk result (IsMadeAs kind ground.now node text.now parts.now) }
    ensures fields { AreJumps fields.new.jumps.items ground.now.subtypes.now }
{
    match kind {
        NodeKind::Absent => Ok(absent(alloc)),
        NodeKind::Plain => Ok(plain(alloc, node, text)),
        NodeKind::Silent => Ok(plain(alloc, node, &[])),
        NodeKind::Leaf(kind) => leaf(kind, alloc, ground, node, text, parts),
        NodeKind::Listing(kind) => listing(kind, alloc, ground, node, text, parts),
        NodeKind::Range(kind) => range(kind, alloc, ground, node, text, parts),
        NodeKind::Piece(kind) => piece(kind, alloc, ground, fields, node, text, parts),
    }
}

/// A node.
pub(crate) fn node_of<'a>(
    alloc: Global,
    ground: &Ground<'_>,
    fields: &mut FieldTable,
    node: Resolved,
    text: &'a [u8],
    parts: &[Node<'a>],
) -> Result<Node<'a>, AllocError>
    requires subtypes { HasSubtypes ground.now }
    requires fields { AreJumps fields.old.jumps.items ground.now.subtypes.now }
    requires sound { All (IsSound ground.now.subtypes.now) parts.now }
    ensures sound { IfOk result (IsSound ground.now.subtypes.now) }
    ensures made { IfOk result (IsMade (kind_in node.form) ground.now node text.now parts.now) }
    ensures fields { AreJumps fields.new.jumps.items ground.now.subtypes.now }
{
    node_as(kind_of(node.form), alloc, ground, fields, node, text, parts)
}
