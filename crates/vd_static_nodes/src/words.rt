//! Identifiers, and selected names. (IEEE 1076, names: simple and selected names.)

ghost use Rattle.std.specs.Prelude.{IfOk, List};
ghost use Rattle.vd_environments.specs.Environments.{Env};
ghost use Rattle.vd_meaning.specs.Kinds.{SelectionPiece, Word};
ghost use Rattle.vd_meaning.specs.Meanings.{selection_piece as piece_selected};
ghost use Rattle.vd_meaning.specs.Tables.{role_of as role_in};
ghost use Rattle.vd_static_values.specs.Entries.{IsGround, table_of};
ghost use Rattle.vd_static_values.specs.Nodes.{IsPiece};
ghost use Rattle.vd_static_values.specs.declared.nodes.Node.{Node as AnyNode};
ghost use Rattle.vd_static_names.specs.Known.{HasSubtypes};
ghost use Rattle.vd_static_parts.specs.Made.{IsMade, IsSound, IsSoundPiece};

use crate::firsts::first_piece;
use std::alloc::{AllocError, Global};
use vd_operations::{Role, role_of};
use vd_resolved::Resolved;
use vd_static_parts::nodes::{piece, plain, with_name};
use vd_static_values::{Ground, Node, Piece};

/// An identifier.
pub fn word<'a>(
    alloc: Global,
    ground: &Ground<'_>,
    node: Resolved,
    text: &'a [u8],
) -> Result<Node<'a>, AllocError>
    requires { HasSubtypes ground.now }
    ensures sound { IfOk result (IsSound ground.now.subtypes.now) }
    ensures node { (parts : List AnyNode) → IfOk result (IsMade Word ground.now node text.now parts) }
{
    let name = first_piece(alloc, ground, &node)?;
    Ok(with_name(plain(alloc, node, text), name))
}

/// What a selected name makes of what stands in front of it.
fn selected<'a>(
    alloc: Global,
    ground: &Ground<'_>,
    node: &Resolved,
) -> Result<Piece<'a>, AllocError>
    requires { HasSubtypes ground.now }
    ensures sound { IfOk result (IsSoundPiece ground.now.subtypes.now) }
    ensures piece { (e : Env) → IsGround ground.now e
        → IfOk result (λ x. IsPiece ground.now.subtypes.now e x (piece_selected (role_in (table_of ground.now) node.now.declaration) (table_of ground.now) node.now)) }
{
    match role_of(ground.declarations, node.declaration) {
        Role::Element => Ok(Piece::Field(node.position)),
        _ => {
            let name = first_piece(alloc, ground, node)?;
            Ok(Piece::Own(name))
        }
    }
}

/// A selected name, as a piece behind what stands in front of it: an element of a record, or a declaration.
pub fn selection_piece<'a>(
    alloc: Global,
    ground: &Ground<'_>,
    node: Resolved,
    text: &'a [u8],
) -> Result<Node<'a>, AllocError>
    requires { HasSubtypes ground.now }
    ensures sound { IfOk result (IsSound ground.now.subtypes.now) }
    ensures node { (parts : List AnyNode) → IfOk result (IsMade SelectionPiece ground.now node text.now parts) }
{
    let made = selected(alloc, ground, &node)?;
    Ok(piece(alloc, node, text, made))
}
