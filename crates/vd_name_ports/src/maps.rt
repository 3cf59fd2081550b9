//! Port maps.

ghost use Rattle.std.specs.Prelude.{◌≡◌, List, Some, IfOk, OnOk};
ghost use Rattle.std.specs.List.{list_any};
ghost use Rattle.vd_forest.specs.Forest.{Forest};
ghost use Rattle.vd_forest.specs.Store.{Extends};
ghost use Rattle.vd_resolved.specs.declared.node.Resolved.{Resolved};
ghost use Rattle.vd_naming.specs.Ports.{among_ports as place_among_ports, no_map, with_trees as trees_too, missing_port as missing_among, map_of_known, port_map as port_map_step};
ghost use Rattle.vd_name_entering.specs.Made.{IsMade};
ghost use Rattle.vd_name_ports.specs.Maps.{seen_map, IsMapped, lacks_actual};

use crate::actuals::formal_at;
use crate::associations::with_tree;
use crate::conversions::among_ports;
use crate::elements::{Mapped, none_mapped};
use crate::instance::Instance;
use std::alloc::{AllocError, Global};
use vd_bytes::Refused;
use vd_declarations::DeclId;
use vd_forest::{Cursor, Opened, Store};
use vd_forms::Form;
use vd_name_entering::{Made, add_node, unresolved_node};
use vd_name_maps::given::Given;
use vd_name_rows::{At, Names};
use vd_naming::broken_if;
use vd_resolved::Resolved;
use vd_walks::lesser;

/// The elements of a map.
fn with_trees(
    alloc: Global,
    instance: &Instance<'_, '_>,
    parts: &Cursor<'_, Form>,
    out: &mut Store<Resolved>,
) -> Result<Mapped, AllocError>
    requires ports { instance.now.among.now ≡ place_among_ports instance.now.entity instance.now.at.now instance.now.names.now }
    ensures is { IfOk result (λ made. IsMapped out.new made
        (trees_too instance.now.entity instance.now.at.now instance.now.names.now 0 parts.now no_map)) }
    ensures extends { Extends out.old out.new }
{
    let mut mapped = none_mapped(alloc);
    let mut number = 0usize;
    let mut left = parts.fork();
    while let Some(node) = left.open() {
        mapped = with_tree(alloc, instance, number, &left, &node, mapped, out)?;
        let Some(next) = number.checked_add(1) else {
            return Err(AllocError);
        };
        number = next;
        left = node.next;
    }
    Ok(mapped)
}

/// Whether a port has no actual that needs one.
fn lacks(names: &Names, given: &Given, port: DeclId) -> bool
    ensures { result ≡ lacks_actual names.now given.now port }
{
    formal_at(names, port).is_needed && !given.has(port)
}

/// Whether one of some ports has no actual that needs one.
fn any_lacks(names: &Names, given: &Given, ports: &[DeclId]) -> bool
    ensures { result ≡ list_any (lacks_actual names.now given.now) ports.now }
{
    for port in ports {
        if lacks(names, given, *port) {
            return true;
        }
    }
    false
}

/// What is refused of a map that has no actual for one of some ports, where each of its elements is for a port.
fn missing_port(instance: &Instance<'_, '_>, ports: &[DeclId], mapped: &Mapped) -> Option<Refused>
    ensures { (store : List (Forest Resolved)) → result
        ≡ missing_among instance.now.at.now instance.now.names.now ports.now (seen_map store mapped.now) }
{
    let lacking = mapped.is_known && any_lacks(instance.names, &mapped.given, ports);
    let at = instance.at;
    broken_if(lacking, 310, at.label_place)
}

/// The port map of an entity.
fn map_of(
    alloc: Global,
    instance: &Instance<'_, '_>,
    node: &Opened<'_, Form>,
    out: &mut Store<Resolved>,
) -> Result<Made, AllocError>
    requires ports { instance.now.among.now ≡ place_among_ports instance.now.entity instance.now.at.now instance.now.names.now }
    ensures is { IfOk result (λ made. IsMade out.new instance.now.names.now made
        (map_of_known (Some instance.now.entity) instance.now.at.now instance.now.names.now
        node.now.form node.now.text.now node.now.place node.now.parts)) }
    ensures extends { Extends out.old out.new }
{
    let mapped = with_trees(alloc, instance, &node.parts, out)?;
    let ports = instance.names.parameters_of(instance.entity);
    let missing = missing_port(instance, ports, &mapped);
    let parts = out.turn(mapped.trees, 0)?;
    let tree = add_node(node, None, None, parts, out)?;
    Ok(Made {
        tree,
        first: lesser(mapped.first, missing),
    })
}

/// The port map of the entity that was named last. Where it isn't known, nothing is named in the map.
pub fn port_map(
    alloc: Global,
    names: &Names,
    at: &At<'_>,
    node: &Opened<'_, Form>,
    out: &mut Store<Resolved>,
) -> Result<Made, AllocError>
    ensures is { IfOk result (λ made. IsMade out.new names.now made
        (port_map_step at.now names.now node.now.form node.now.text.now node.now.place node.now.parts)) }
    ensures at { OnOk result ((port_map_step at.now names.now node.now.form node.now.text.now node.now.place node.now.parts).at ≡ at.now) }
    ensures extends { Extends out.old out.new }
{
    let Some(entity) = at.named else {
        let tree = unresolved_node(alloc, node, out)?;
        return Ok(Made { tree, first: None });
    };
    let among = among_ports(alloc, names, entity, at)?;
    let instance = Instance {
        names,
        at,
        among: &among,
        entity,
    };
    map_of(alloc, &instance, node, out)
}
