//! An instance of an entity, in memory.

ghost use Rattle.std.specs.Prelude.{◌≡◌, IfOk, slice_index_or};
ghost use Rattle.vd_instance_rules.specs.Instances.{IsInstance, entity_at, port_map_at};
ghost use Rattle.vd_meaning.specs.Tables.{Table, no_declaration};
ghost use Rattle.vd_port_modes.specs.Source.{design_in};
ghost use Rattle.vd_value_rules.specs.Actuals.{generic_actuals_of};
ghost use Rattle.vd_value_rules.specs.Choices.{place_or as label_or};

use std::alloc::{AllocError, Global};
use vd_bytes::Place;
use vd_declarations::{DeclId, Declaration};
use vd_forest::{Cursor, Opened};
use vd_operations::declaration_of;
use vd_port_associations::numbers::NumberSet;
use vd_port_facts::PortFacts;
use vd_port_modes::Interfaces;
use vd_resolved::Resolved;

/// An instance of an entity, in a design.
#[derive(Drop)]
pub struct Instance<'i, 't> {
    pub interfaces: &'i Interfaces<'t>,
    pub facts: &'i PortFacts<'t>,
    pub entity: DeclId,
    /// The generics of the entity.
    pub generics: NumberSet,
    /// The parts of the instance, among them the actuals of the generics.
    pub parts: Cursor<'t, Resolved>,
    /// Where refusals of the instance as a whole stand.
    pub place: Place,
}

/// The entity of an instance with these parts; the first declaration of all where there is none.
fn entity_of(parts: &Cursor<'_, Resolved>) -> DeclId
    ensures { (t : Table) → result ≡ entity_at t parts.now }
{
    match declaration_of(parts) {
        Some(entity) => entity,
        None => DeclId::of(0),
    }
}

/// The label, where there is one, or else the place of the instance.
fn place_or(label: Option<Place>, place: Place) -> Place
    ensures { result ≡ label_or label place }
{
    match label {
        Some(label) => label,
        None => place,
    }
}

/// The generics of a declaration.
fn generics_of(declarations: &[Declaration], id: DeclId) -> &[DeclId]
    ensures { result.now ≡ (slice_index_or declarations.now id no_declaration).generics }
{
    match declarations.get(id.number() as usize) {
        Some(declaration) => declaration.generics.as_slice(),
        None => &[],
    }
}

/// The instance that a node is, behind a label or without one.
pub(crate) fn instance_of<'i, 't>(
    alloc: Global,
    interfaces: &'i Interfaces<'t>,
    facts: &'i PortFacts<'t>,
    label: Option<Place>,
    node: &Opened<'t, Resolved>,
) -> Result<Instance<'i, 't>, AllocError>
    requires same { facts.now ≡ interfaces.now }
    ensures is { IfOk result (λ x. IsInstance x) }
    ensures source { IfOk result (λ x. x.interfaces.now ≡ interfaces.now) }
    ensures map { IfOk result (λ x. port_map_at x ≡ record {
      entity = entity_at (design_in interfaces.now).table node.now.parts;
      generic_actuals = generic_actuals_of (design_in interfaces.now) node.now.parts;
      place = label_or label node.now.place;
    }) }
{
    let entity = entity_of(&node.parts);
    let generics = NumberSet::of(alloc, generics_of(interfaces.declarations(), entity))?;
    Ok(Instance {
        interfaces,
        facts,
        entity,
        generics,
        parts: node.parts.fork(),
        place: place_or(label, node.place),
    })
}
