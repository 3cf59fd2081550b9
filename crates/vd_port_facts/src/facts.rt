//! What instances ask of a design.

ghost use Rattle.std.specs.Prelude.{◌≡◌, IfOk, List, None, ℕ, nat_eq};
ghost use Rattle.std.specs.HashMap.{get};
ghost use Rattle.vd_meaning.specs.Hierarchies.{entity_in};
ghost use Rattle.vd_port_facts.specs.Tables.{generics_found, ports_found};
ghost use Rattle.vd_port_lists.specs.Named.{value_named};
ghost use Rattle.vd_port_modes.specs.Source.{design_in};
ghost use Rattle.vd_value_rules.specs.Actuals.{generic_actuals_of, has_default as has_a_default, named_in_ports, named_with_defaults};
ghost use Rattle.vd_value_rules.specs.Designs.{port_of};

use crate::actuals::Actuals;
use crate::entities::{ListedEntity, entities_by_name, listed_entities};
use crate::lefts::all_lefts;
use crate::needs::needed;
use crate::ports::{ListedPorts, listed_ports, ports_by_number};
use indexmap::IndexMap;
use std::alloc::{AllocError, Global};
use std::collections::HashMap;
use std::marker::Model;
use vd_declarations::{DeclId, Declarations};
use vd_forest::Cursor;
use vd_operations::tables::name_of;
use vd_resolved::{Resolved, Tree};
use vd_trees::Revision;

/// The ports and the generics of entities, in tables. Contracts see the tree that they were made of, and its revision.
#[derive(Drop)]
pub struct PortFacts<'t> {
    revision: Revision,
    tree: &'t Tree,
    ports: Vec<ListedPorts>,
    places: HashMap<u32, usize>,
    entities: Vec<ListedEntity>,
    named: IndexMap<Vec<u8>, usize>,
}

impl<'t> Model for PortFacts<'t> {
    ghost use Rattle.std.specs.Prelude.{nat_eq};
    ghost use Rattle.std.specs.HashMap.{get};
    ghost use Rattle.vd_port_facts.specs.Tables.{AreFacts};
    ghost use Rattle.vd_port_lists.specs.Named.{value_named};
    ghost use Rattle.vd_port_modes.specs.Code.{coded_source};
    ghost use Rattle.vd_port_modes.specs.Source.{Source};

    ghost Value = { Source };

    ghost coded = { coded_source };

    ghost view = { λ a. record { revision = a.revision; tree = a.tree.now } };

    ghost invariant = { λ a. AreFacts a.revision a.tree.now (λ n. get nat_eq a.places n) a.ports.items (λ name. value_named a.named.entries (λ key. key.items) name) a.entities.items };
}

/// Where a port is listed.
fn place_of(places: &HashMap<u32, usize>, port: DeclId) -> Option<usize>
    ensures { result ≡ get nat_eq places.now port }
{
    places.get(&port.number()).copied()
}

/// Where the entity of a name is listed.
fn entity_named(named: &IndexMap<Vec<u8>, usize>, name: &[u8]) -> Option<usize>
    ensures { result ≡ value_named named.now.entries (λ key. key.items) name.now }
{
    named.get(name).copied()
}

/// Whether the ports at a place have a default.
fn default_found(ports: &[ListedPorts], place: Option<usize>) -> bool
    ensures { result ≡ (ports_found ports.now place).has_default }
{
    match place {
        Some(place) => match ports.get(place) {
            Some(found) => found.has_default,
            None => false,
        },
        None => false,
    }
}

/// What the subtype of the ports at a place names.
fn names_found(ports: &[ListedPorts], place: Option<usize>) -> &[DeclId]
    ensures { result.now ≡ (ports_found ports.now place).named }
{
    match place {
        Some(place) => match ports.get(place) {
            Some(found) => found.named.as_slice(),
            None => &[],
        },
        None => &[],
    }
}

/// The generics of the entity at a place, as they are declared together.
fn objects_found(entities: &[ListedEntity], place: Option<usize>) -> &[Declarations]
    ensures { result.now ≡ (generics_found entities.now place).objects }
{
    match place {
        Some(place) => match entities.get(place) {
            Some(found) => found.generics.objects.as_slice(),
            None => &[],
        },
        None => &[],
    }
}

/// What the defaults of the generics of the entity at a place name.
fn defaults_found(entities: &[ListedEntity], place: Option<usize>) -> &[Declarations]
    ensures { result.now ≡ (generics_found entities.now place).defaults }
{
    match place {
        Some(place) => match entities.get(place) {
            Some(found) => found.generics.defaults.as_slice(),
            None => &[],
        },
        None => &[],
    }
}

impl<'t> PortFacts<'t> {
    /// Those of a design.
    pub fn of(
        alloc: Global,
        revision: Revision,
        tree: &'t Tree,
    ) -> Result<PortFacts<'t>, AllocError>
        ensures { IfOk result (λ facts. facts ≡ record { revision = revision; tree = tree.now }) }
    {
        let ports = listed_ports(alloc, revision, tree)?;
        let places = ports_by_number(alloc, &ports)?;
        let entities = listed_entities(alloc, revision, tree)?;
        let named = entities_by_name(alloc, &entities)?;
        Ok(PortFacts {
            revision,
            tree,
            ports,
            places,
            entities,
            named,
        })
    }

    /// Whether a port has a default.
    pub fn has_default(&self, port: DeclId) -> bool
        ensures { result ≡ has_a_default (design_in self.now) port }
    {
        let place = place_of(&self.places, port);
        default_found(&self.ports, place)
    }

    /// What the subtype of a port names, with the defaults of generics that an instance leaves out.
    pub fn needed_names(
        &self,
        alloc: Global,
        entity: DeclId,
        parts: &Cursor<'_, Resolved>,
        port: DeclId,
    ) -> Result<Vec<DeclId>, AllocError>
        ensures { IfOk result (λ names. names.items ≡ named_with_defaults
            (entity_in None (design_in self.now).units.units ((design_in self.now).table.declared entity).name)
            (generic_actuals_of (design_in self.now) parts.now) (named_in_ports (port_of (design_in self.now) port))) }
    {
        let place = place_of(&self.places, port);
        let names = names_found(&self.ports, place);
        let name = name_of(self.tree.declarations(), entity.number());
        let found = entity_named(&self.named, name);
        let objects = objects_found(&self.entities, found);
        let defaults = defaults_found(&self.entities, found);
        let actuals = Actuals::of(alloc, parts)?;
        let lefts = all_lefts(alloc, &actuals, objects)?;
        let needs = needed(alloc, &lefts, defaults, names)?;
        Ok(needs)
    }
}
