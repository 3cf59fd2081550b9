//! Expressions by what they name.

ghost use Rattle.std.specs.Prelude.{◌≡◌};
ghost use Rattle.vd_operations.specs.Roles.{read_role};
ghost use Rattle.vd_meaning.specs.Names.{number_or as number_of};
ghost use Rattle.vd_meaning.specs.Tables.{followed as function_followed, role_of as role_in};
ghost use Rattle.vd_known_lengths.specs.Extents.{CanSee, IsExtent, IsPiece, IsPieceWithin, IsWithin, Sees};
ghost use Rattle.vd_value_rules.specs.Declaring.{result_in};
ghost use Rattle.vd_value_rules.specs.Designs.{Design};
ghost use Rattle.vd_value_rules.specs.Knowledge.{Known, at_mark};
ghost use Rattle.vd_value_rules.specs.Lengths.{first_shaped, selection_shaped, shaped_as, shaped_by};

use crate::extents::{Extent, of_subtype};
use crate::over::{Over, of_declaration, of_result, of_type};
use crate::pieces::Piece;
use vd_declarations::{DeclId, TypeId};
use vd_operations::tables::followed;
use vd_operations::{Role, role_of};
use vd_resolved::Resolved;
use vd_static_values::NameSubtype;

/// An expression of a type, with a length.
pub(crate) fn typed(over: &Over<'_, '_>, mark: Option<TypeId>, length: Option<u128>) -> Extent
    requires { CanSee over.now }
    ensures within { IsWithin over.now.ground.subtypes.now result }
    ensures is { (d : Design) (k : Known) → Sees over.now d k → IsExtent over.now.ground.subtypes.now result (shaped_as (at_mark mark k.choosing) length) }
{
    Extent {
        subtype: NameSubtype::Stored(of_type(over, mark)),
        length,
        is_callee: false,
    }
}

/// What has the subtype of an object or a mark.
pub(crate) fn declared(over: &Over<'_, '_>, declaration: Option<DeclId>) -> Extent
    requires { CanSee over.now }
    ensures within { IsWithin over.now.ground.subtypes.now result }
    ensures is { (d : Design) (k : Known) → Sees over.now d k → IsExtent over.now.ground.subtypes.now result (shaped_by (at_mark declaration k.choosing)) }
{
    let number = of_declaration(over, declaration);
    of_subtype(over.ground.subtypes, NameSubtype::Stored(number))
}

/// The number of a declaration, or 0.
pub(crate) fn number_or(declaration: Option<DeclId>) -> u32
    ensures { result ≡ number_of declaration }
{
    match declaration {
        Some(declaration) => declaration.number(),
        None => 0,
    }
}

/// A call.
pub(crate) fn called(over: &Over<'_, '_>, declaration: Option<DeclId>) -> Extent
    requires { CanSee over.now }
    ensures within { IsWithin over.now.ground.subtypes.now result }
    ensures is { (d : Design) (k : Known) → Sees over.now d k
        → IsExtent over.now.ground.subtypes.now result (shaped_by (result_in d (function_followed d.table (number_of declaration)) k.choosing)) }
{
    let function = followed(over.ground.declarations, number_or(declaration));
    let number = of_result(over, function);
    of_subtype(over.ground.subtypes, NameSubtype::Stored(number))
}

/// A name that is one identifier, by what it names.
fn by_role(role: Role, over: &Over<'_, '_>, node: Resolved) -> Extent
    requires { CanSee over.now }
    ensures within { IsWithin over.now.ground.subtypes.now result }
    ensures is { (d : Design) (k : Known) → Sees over.now d k → IsExtent over.now.ground.subtypes.now result (first_shaped (read_role role) d k node) }
{
    match role {
        Role::Constant => declared(over, node.declaration),
        Role::Variable => declared(over, node.declaration),
        Role::Signal => declared(over, node.declaration),
        Role::Mark => declared(over, node.declaration),
        Role::Function => called(over, node.declaration),
        Role::Literal => typed(over, node.mark, None),
        Role::Element => typed(over, node.mark, None),
        Role::Nothing => typed(over, node.mark, None),
    }
}

/// A name that is one identifier.
pub(crate) fn first_of_name(over: &Over<'_, '_>, node: Resolved) -> Extent
    requires { CanSee over.now }
    ensures within { IsWithin over.now.ground.subtypes.now result }
    ensures is { (d : Design) (k : Known) → Sees over.now d k
        → IsExtent over.now.ground.subtypes.now result (first_shaped (role_in d.table node.declaration) d k node) }
{
    let role = role_of(over.ground.declarations, node.declaration);
    by_role(role, over, node)
}

/// A selection, by what it names.
fn selected_by_role(role: Role, over: &Over<'_, '_>, node: Resolved) -> Piece
    requires { CanSee over.now }
    ensures within { IsPieceWithin over.now.ground.subtypes.now result }
    ensures is { (d : Design) (k : Known) → Sees over.now d k → IsPiece over.now.ground.subtypes.now result (selection_shaped (read_role role) d k node) }
{
    match role {
        Role::Element => Piece::Field(node.position),
        _ => Piece::Own(by_role(role, over, node)),
    }
}

/// A selection: the element of a record, or a declaration.
pub(crate) fn selected(over: &Over<'_, '_>, node: Resolved) -> Piece
    requires { CanSee over.now }
    ensures within { IsPieceWithin over.now.ground.subtypes.now result }
    ensures is { (d : Design) (k : Known) → Sees over.now d k
        → IsPiece over.now.ground.subtypes.now result (selection_shaped (role_in d.table node.declaration) d k node) }
{
    let role = role_of(over.ground.declarations, node.declaration);
    selected_by_role(role, over, node)
}
