//! The entity of an architecture, and that of an instance.

ghost use Rattle.std.specs.Prelude.{◌≡◌, IfOk, OnOk};
ghost use Rattle.vd_forest.specs.Forest.{nothing, more};
ghost use Rattle.vd_forest.specs.Store.{Extends};
ghost use Rattle.vd_naming.specs.Paths.{refused_path};
ghost use Rattle.vd_naming.specs.Ports.{instance_entity as instance_entity_step};
ghost use Rattle.vd_naming.specs.Units.{no_unit, entity_word as entity_word_step};
ghost use Rattle.vd_name_entering.specs.Made.{IsMade};

use crate::pieces::last_text;
use std::alloc::{AllocError, Global};
use vd_bytes::{Place, Refused};
use vd_declarations::DeclId;
use vd_forest::{Opened, Store};
use vd_forms::Form;
use vd_name_entering::{Made, add_node, fitting_name, unit_named};
use vd_name_rows::{At, Names, Sort, Word};
use vd_naming::Fit;
use vd_resolved::Resolved;

/// What is refused where there is no entity of a name, given what unit has it.
fn refused_entity(entity: &Option<DeclId>, unit: &Option<DeclId>, place: Place) -> Option<Refused>
    ensures { result ≡ refused_path entity.now (no_unit unit.now) place }
{
    if entity.is_some() {
        return None;
    }
    let rule = if unit.is_some() { 307 } else { 302 };
    Some(Refused { place, rule })
}

/// The name of an entity in front of the architecture.
pub fn entity_word(
    alloc: Global,
    names: &Names,
    at: &mut At<'_>,
    node: &Opened<'_, Form>,
    out: &mut Store<Resolved>,
) -> Result<Made, AllocError>
    ensures is { IfOk result (λ made. IsMade out.new names.now made
        (entity_word_step at.old names.now node.now.form node.now.text.now node.now.place)) }
    ensures at { OnOk result (at.new ≡ (entity_word_step at.old names.now node.now.form node.now.text.now node.now.place).at) }
    ensures extends { Extends out.old out.new }
{
    let entity = unit_named(alloc, names, Sort::Entity, node.text)?;
    let unit = unit_named(alloc, names, Sort::Any, node.text)?;
    let first = refused_entity(&entity, &unit, node.place);
    let tree = add_node(node, entity, None, 0, out)?;
    at.named = entity;
    Ok(Made { tree, first })
}

/// The entity of an instance. Its simple name is kept, with the place of the whole name.
pub fn instance_entity<'a>(
    alloc: Global,
    names: &Names,
    at: &mut At<'a>,
    node: &Opened<'a, Form>,
    out: &mut Store<Resolved>,
) -> Result<Made, AllocError>
    ensures is { IfOk result (λ made. IsMade out.new names.now made
        (instance_entity_step at.old names.now node.now.place (more node.now.form node.now.text.now node.now.place node.now.parts nothing))) }
    ensures at { OnOk result (at.new
        ≡ (instance_entity_step at.old names.now node.now.place (more node.now.form node.now.text.now node.now.place node.now.parts nothing)).at) }
    ensures extends { Extends out.old out.new }
{
    at.word = Word {
        form: Form::Name,
        text: last_text(&node.parts),
    };
    at.word_place = node.place;
    let found = fitting_name(alloc, names, at, Fit::Entity, node, out)?;
    at.named = found.named;
    at.mark = found.mark;
    Ok(Made {
        tree: found.tree,
        first: found.first,
    })
}
