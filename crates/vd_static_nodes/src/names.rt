//! Names with all their pieces. (IEEE 1076, names.)

ghost use Rattle.std.specs.Prelude.{◌≡◌, All, IfOk, List, drop};
ghost use Rattle.vd_environments.specs.Environments.{Env};
ghost use Rattle.vd_static_names.specs.Jumps.{AreJumps};
ghost use Rattle.vd_meaning.specs.Facets.{Meaning};
ghost use Rattle.vd_meaning.specs.Kinds;
ghost use Rattle.vd_meaning.specs.Meanings.{named_by};
ghost use Rattle.vd_meaning.specs.Names.{Named};
ghost use Rattle.vd_static_values.specs.Entries.{IsGround};
ghost use Rattle.vd_static_values.specs.Names.{IsName};
ghost use Rattle.vd_static_values.specs.Nodes.{AreArguments, AreNodes, IsPiece};
ghost use Rattle.vd_static_names.specs.Known.{HasSubtypes, IsWithin};
ghost use Rattle.vd_static_parts.specs.Made.{IsMade, IsSound, IsSoundBracketed, IsSoundPiece};

use crate::parts::first_name;
use std::alloc::{AllocError, Global};
use vd_resolved::Resolved;
use vd_static_names::FieldTable;
use vd_static_names::copies::again;
use vd_static_names::steps::{element, field_by_table, slice};
use vd_static_names::values::no_name;
use vd_static_parts::nodes::named;
use vd_static_parts::{attributed, range_of, type_attribute_piece};
use vd_static_values::{Arguments, Bracketed, Ground, KnownName, Node, Piece};

/// A name with a list in brackets: the argument of an attribute of a type, or what the list is by itself.
fn with_arguments(
    alloc: Global,
    ground: &Ground<'_>,
    name: KnownName,
    arguments: &Arguments,
) -> Result<KnownName, AllocError>
    requires within { IsWithin ground.now.subtypes.now name }
    requires sound { IsSoundBracketed ground.now.subtypes.now arguments.now.otherwise }
    ensures within { IfOk result (IsWithin ground.now.subtypes.now) }
    ensures named { (e : Env) (p : Named) (f : Named → Named) → IsName ground.now.subtypes.now e name p → AreArguments ground.now.subtypes.now e arguments.now f
        → IfOk result (λ x. IsName ground.now.subtypes.now e x (f p)) }
{
    if name.callee.is_some() {
        return type_attribute_piece(alloc, ground, &name, &arguments.value, arguments.known);
    }
    match &arguments.otherwise {
        Bracketed::Own(own) => again(alloc, own),
        Bracketed::Element => Ok(element(name, ground.subtypes, arguments.known)),
        Bracketed::Slice(bounds) => Ok(slice(name, ground.subtypes, *bounds, arguments.known)),
    }
}

/// A name with a further piece.
fn apply(
    alloc: Global,
    ground: &Ground<'_>,
    fields: &mut FieldTable,
    name: KnownName,
    piece: &Piece<'_>,
) -> Result<KnownName, AllocError>
    requires subtypes { HasSubtypes ground.now }
    requires within { IsWithin ground.now.subtypes.now name }
    requires sound { IsSoundPiece ground.now.subtypes.now piece.now }
    requires fields { AreJumps fields.old.jumps.items ground.now.subtypes.now }
    ensures within { IfOk result (IsWithin ground.now.subtypes.now) }
    ensures named { (e : Env) (p : Named) (f : Named → Named) → IsGround ground.now e → IsName ground.now.subtypes.now e name p
        → IsPiece ground.now.subtypes.now e piece.now f → IfOk result (λ x. IsName ground.now.subtypes.now e x (f p)) }
    ensures fields { AreJumps fields.new.jumps.items ground.now.subtypes.now }
{
    match piece {
        Piece::NoPiece => Ok(no_name()),
        Piece::Field(number) => field_by_table(name, ground.subtypes, fields, *number),
        Piece::Own(own) => again(alloc, own),
        Piece::Attribute {
            name: attribute,
            mark,
        } => attributed(alloc, ground, name, attribute, *mark),
        Piece::RangeAttribute { mark } => Ok(range_of(ground, &name, *mark)),
        Piece::Arguments(arguments) => with_arguments(alloc, ground, name, arguments),
    }
}

/// A name with further pieces, one behind the other.
fn with_pieces(
    alloc: Global,
    ground: &Ground<'_>,
    fields: &mut FieldTable,
    first: KnownName,
    pieces: &[Node<'_>],
) -> Result<KnownName, AllocError>
    requires subtypes { HasSubtypes ground.now }
    requires within { IsWithin ground.now.subtypes.now first }
    requires sound { All (IsSound ground.now.subtypes.now) pieces.now }
    requires fields { AreJumps fields.old.jumps.items ground.now.subtypes.now }
    ensures within { IfOk result (IsWithin ground.now.subtypes.now) }
    ensures named { (e : Env) (p : Named) (ms : List Meaning) → IsGround ground.now e → IsName ground.now.subtypes.now e first p
        → AreNodes ground.now.subtypes.now e pieces.now ms → IfOk result (λ x. IsName ground.now.subtypes.now e x (named_by p ms)) }
    ensures fields { AreJumps fields.new.jumps.items ground.now.subtypes.now }
{
    let mut name = first;
    for node in pieces {
        name = apply(alloc, ground, fields, name, &node.piece)?;
    }
    Ok(name)
}

/// The parts behind the first one.
fn behind_first<'p, 'a>(parts: &'p [Node<'a>]) -> &'p [Node<'a>]
    ensures { result.now ≡ drop 1 parts.now }
{
    match parts {
        [_, rest @ ..] => rest,
        [] => &[],
    }
}

/// A whole name: the name of the first part, with the others as its pieces.
pub fn whole_name<'a>(
    alloc: Global,
    ground: &Ground<'_>,
    fields: &mut FieldTable,
    node: Resolved,
    text: &'a [u8],
    parts: &[Node<'a>],
) -> Result<Node<'a>, AllocError>
    requires subtypes { HasSubtypes ground.now }
    requires sound { All (IsSound ground.now.subtypes.now) parts.now }
    requires fields { AreJumps fields.old.jumps.items ground.now.subtypes.now }
    ensures sound { IfOk result (IsSound ground.now.subtypes.now) }
    ensures node { IfOk result (IsMade Kinds.WholeName ground.now node text.now parts.now) }
    ensures fields { AreJumps fields.new.jumps.items ground.now.subtypes.now }
{
    let first = first_name(alloc, parts)?;
    let name = with_pieces(alloc, ground, fields, first, behind_first(parts))?;
    named(alloc, node, text, name)
}
