//! Lists in brackets behind a name, and attributes.

ghost use Rattle.std.specs.Prelude.{◌≡◌, IfOk, List};
ghost use Rattle.vd_environments.specs.Environments.{Env};
ghost use Rattle.vd_operations.specs.Roles.{read_role};
ghost use Rattle.vd_forest.specs.Forest.{Forest};
ghost use Rattle.vd_value_rules.specs.declared.forms.IndicatedForm.{IndicatedForm};
ghost use Rattle.vd_static_names.specs.Jumps.{AreJumps};
ghost use Rattle.vd_meaning.specs.Facets.{Meaning, nth};
ghost use Rattle.vd_meaning.specs.Meanings.{meanings};
ghost use Rattle.vd_meaning.specs.Names.{attribute_named as attribute_meant};
ghost use Rattle.vd_known_lengths.specs.Extents.{CanSee, IsBracketed, IsBracketedWithin, IsExtent, IsPiece, IsPieceWithin, IsWithin, Sees};
ghost use Rattle.vd_static_values.specs.Senses.{IsSense};
ghost use Rattle.vd_value_rules.specs.Designs.{Design};
ghost use Rattle.vd_value_rules.specs.Knowledge.{Known};
ghost use Rattle.vd_value_rules.specs.Lengths.{Shaped, Shaping, arguments_shaped, attribute_shaped, brackets_shaped, indexed_shaped, is_function_of_type, nth_shaping};

use crate::declared::{called, typed};
use crate::extents::Extent;
use crate::over::Over;
use crate::pieces::{Bracketed, Piece};
use std::alloc::{AllocError, Global};
use vd_forest::Cursor;
use vd_known_indications::indications::early_range;
use vd_known_indications::known_node;
use vd_operations::{Role, role_of};
use vd_resolved::Resolved;
use vd_static_names::FieldTable;
use vd_static_parts::named::{NameAttribute, attribute_named};
use vd_static_values::{Ranging, Sense};

/// An index, or a range.
fn indexed(sense: &Sense<'_>) -> Bracketed
    ensures within { (store : List (Forest IndicatedForm)) → IsBracketedWithin store result }
    ensures is { (subtypes store : List (Forest IndicatedForm)) (e : Env) (m : Meaning) (p : Shaped) → IsSense subtypes e sense.now m
        → IsBracketed store result p (indexed_shaped m e p) }
{
    match sense.range {
        Ranging::NoRange => Bracketed::Element,
        Ranging::Range(_) => Bracketed::Slice(early_range(sense), sense.known),
    }
}

/// An index, or a range, by its tree.
fn indexed_by(
    alloc: Global,
    over: &Over<'_, '_>,
    fields: &mut FieldTable,
    parts: &Cursor<'_, Resolved>,
) -> Result<Bracketed, AllocError>
    requires sees { CanSee over.now }
    requires fields { AreJumps fields.old.jumps.items over.now.ground.subtypes.now }
    ensures within { IfOk result (IsBracketedWithin over.now.ground.subtypes.now) }
    ensures is { IfOk result (λ x. (d : Design) (k : Known) (p : Shaped) → Sees over.now d k
        → IsBracketed over.now.ground.subtypes.now x p (indexed_shaped (nth 0 (meanings d.table parts.now)) k.env p)) }
    ensures fields { AreJumps fields.new.jumps.items over.now.ground.subtypes.now }
{
    let node = known_node(alloc, &over.ground, fields, parts)?;
    Ok(indexed(&node.sense))
}

/// A list in brackets behind what isn't an attribute of a type, by what is named.
fn bracketed_by_role(
    role: Role,
    alloc: Global,
    over: &Over<'_, '_>,
    fields: &mut FieldTable,
    node: Resolved,
    parts: &Cursor<'_, Resolved>,
    operand: Option<u128>,
) -> Result<Bracketed, AllocError>
    requires sees { CanSee over.now }
    requires fields { AreJumps fields.old.jumps.items over.now.ground.subtypes.now }
    ensures within { IfOk result (IsBracketedWithin over.now.ground.subtypes.now) }
    ensures is { IfOk result (λ x. (d : Design) (k : Known) (ss : List Shaping) (p : Shaped) → Sees over.now d k
        → (nth_shaping 0 ss).shaped.length ≡ operand
        → IsBracketed over.now.ground.subtypes.now x p (brackets_shaped (read_role role) d k node (nth 0 (meanings d.table parts.now)) ss p)) }
    ensures fields { AreJumps fields.new.jumps.items over.now.ground.subtypes.now }
{
    match role {
        Role::Function => Ok(Bracketed::Own(called(over, node.declaration))),
        Role::Mark => Ok(Bracketed::Own(typed(over, node.mark, operand))),
        _ => indexed_by(alloc, over, fields, parts),
    }
}

/// A list in brackets. What isn't the arguments of a call or a conversion is evaluated, once for each list in brackets round it.
pub(crate) fn arguments(
    alloc: Global,
    over: &Over<'_, '_>,
    fields: &mut FieldTable,
    node: Resolved,
    parts: &Cursor<'_, Resolved>,
    operand: Option<u128>,
) -> Result<Piece, AllocError>
    requires sees { CanSee over.now }
    requires fields { AreJumps fields.old.jumps.items over.now.ground.subtypes.now }
    ensures within { IfOk result (IsPieceWithin over.now.ground.subtypes.now) }
    ensures is { IfOk result (λ x. (d : Design) (k : Known) (ss : List Shaping) → Sees over.now d k
        → (nth_shaping 0 ss).shaped.length ≡ operand
        → IsPiece over.now.ground.subtypes.now x (arguments_shaped d k node (nth 0 (meanings d.table parts.now)) ss)) }
    ensures fields { AreJumps fields.new.jumps.items over.now.ground.subtypes.now }
{
    let role = role_of(over.ground.declarations, node.declaration);
    let called = typed(over, node.mark, None);
    let brackets = bracketed_by_role(role, alloc, over, fields, node, parts, operand)?;
    Ok(Piece::Arguments(called, brackets))
}

/// Whether it is an attribute of a type with an argument.
fn is_of_type(name: &[u8]) -> bool
    ensures { is_function_of_type (attribute_meant name.now) ≡ result }
{
    matches!(attribute_named(name), NameAttribute::OfType(_))
}

/// An attribute.
pub(crate) fn attribute(
    alloc: Global,
    over: &Over<'_, '_>,
    fields: &mut FieldTable,
    node: Resolved,
    parts: &Cursor<'_, Resolved>,
) -> Result<Extent, AllocError>
    requires sees { CanSee over.now }
    requires fields { AreJumps fields.old.jumps.items over.now.ground.subtypes.now }
    ensures within { IfOk result (IsWithin over.now.ground.subtypes.now) }
    ensures is { IfOk result (λ x. (d : Design) (k : Known) → Sees over.now d k
        → IsExtent over.now.ground.subtypes.now x (attribute_shaped k node (nth 0 (meanings d.table parts.now)).text)) }
    ensures fields { AreJumps fields.new.jumps.items over.now.ground.subtypes.now }
{
    let name = known_node(alloc, &over.ground, fields, parts)?;
    let extent = typed(over, node.mark, None);
    Ok(Extent {
        subtype: extent.subtype,
        length: extent.length,
        is_callee: is_of_type(name.sense.text),
    })
}
