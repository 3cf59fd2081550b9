//! Elements of a port map: by the name of the port, by a conversion of it, and by its place.

ghost use Rattle.std.specs.Prelude.{◌≡◌, ◌≤◌, None, IfOk, length};
ghost use Rattle.vd_forest.specs.Forest.{nothing, more, parts_of, next_of, with_next};
ghost use Rattle.vd_forest.specs.Store.{at, Extends};
ghost use Rattle.vd_regions.specs.Scopes.{declaration_at};
ghost use Rattle.vd_naming.specs.Ports.{among_ports, converted as conversion_read, named_front as front_with, placed as placed_element, place_of_next, associated_with as associated_value, by_conversion as converted_element, associated as associated_element, named_from_here as behind_name, front as front_there, with_tree as tree_too};
ghost use Rattle.vd_name_ports.specs.Maps.{seen_map, IsMapped};
ghost use Rattle.vd_name_ports.specs.Fronts.{by_front};

use crate::actuals::{actual, formal_at};
use crate::conversions::{converted, converted_type, not_back};
use crate::elements::{Mapped, named_from_here, with_element, with_other};
use crate::fronts::{Front, front_of};
use crate::instance::Instance;
use std::alloc::{AllocError, Global};
use vd_bytes::Refused;
use vd_declarations::{DeclId, TypeId};
use vd_forest::{Cursor, Opened, Store};
use vd_forms::Form;
use vd_name_expressions::{Read, mark_of};
use vd_name_maps::{association_node, named_front};
use vd_resolved::Resolved;
use vd_walks::lesser;

/// The port that an element by place is for. None stands behind an association.
fn port_at(is_named: bool, ports: &[DeclId], number: usize) -> Option<DeclId>
    ensures { result ≡ place_of_next is_named number ports.now }
{
    if is_named {
        return None;
    }
    ports.get(number).copied()
}

/// An element by place, which is the first of some trees.
fn placed(
    alloc: Global,
    instance: &Instance<'_, '_>,
    port: &Option<DeclId>,
    trees: &Cursor<'_, Form>,
    node: &Opened<'_, Form>,
    mapped: Mapped,
    out: &mut Store<Resolved>,
) -> Result<Mapped, AllocError>
    requires first { trees.now ≡ more node.now.form node.now.text.now node.now.place node.now.parts node.now.next }
    requires mapped_in { mapped.trees ≤ length out.old }
    ensures is { IfOk result (λ made. IsMapped out.new made
        (placed_element port.now instance.now.at.now instance.now.names.now node.now.form node.now.place
        (more node.now.form node.now.text.now node.now.place node.now.parts nothing) (seen_map out.old mapped))) }
    ensures extends { Extends out.old out.new }
{
    match port {
        None => with_other(alloc, instance, node, mapped, out),
        Some(port) => {
            let mark = instance.names.mark_of(*port);
            let read = actual(alloc, instance, *port, &mark, node.place, trees, out)?;
            with_element(mapped, *port, node.place, read, out)
        }
    }
}

/// An association whose actual has this type, with these trees in front of `=>`, of which something may be refused.
fn associated_with(
    alloc: Global,
    instance: &Instance<'_, '_>,
    port: DeclId,
    mark: &Option<TypeId>,
    node: &Opened<'_, Form>,
    inside: Read,
    mapped: Mapped,
    out: &mut Store<Resolved>,
) -> Result<Mapped, AllocError>
    requires inside_in { inside.tree ≤ length out.old }
    requires mapped_in { mapped.trees ≤ length out.old }
    ensures is { IfOk result (λ made. IsMapped out.new made
        (associated_value port mark.now instance.now.at.now instance.now.names.now node.now.place node.now.parts (with_next (next_of node.now.parts) nothing)
        (at out.old inside.tree) inside.first (seen_map out.old mapped))) }
    ensures extends { Extends out.old out.new }
{
    let value = node.parts.next();
    let read = actual(alloc, instance, port, mark, node.place, &value, out)?;
    let tree = association_node(node.place, &node.parts, inside.tree, read.tree, out)?;
    let whole = Read {
        tree,
        first: lesser(inside.first, read.first),
    };
    with_element(mapped, port, node.place, whole, out)
}

/// An association by the name of a port.
fn by_name(
    alloc: Global,
    instance: &Instance<'_, '_>,
    port: DeclId,
    node: &Opened<'_, Form>,
    mapped: Mapped,
    out: &mut Store<Resolved>,
) -> Result<Mapped, AllocError>
    requires mapped_in { mapped.trees ≤ length out.old }
    ensures is { IfOk result (λ made. IsMapped out.new made
        (associated_value port (declaration_at instance.now.names.now.scopes port).mark instance.now.at.now instance.now.names.now node.now.place node.now.parts
        (with_next (next_of node.now.parts) nothing) (front_with port (parts_of node.now.parts)) None (seen_map out.old mapped))) }
    ensures extends { Extends out.old out.new }
{
    let mark = instance.names.mark_of(port);
    let tree = named_front(alloc, port, &node.parts.parts(), out)?;
    let inside = Read { tree, first: None };
    associated_with(alloc, instance, port, &mark, node, inside, mapped, out)
}

/// An association by a conversion of a port.
fn by_conversion(
    alloc: Global,
    instance: &Instance<'_, '_>,
    port: DeclId,
    node: &Opened<'_, Form>,
    mapped: Mapped,
    out: &mut Store<Resolved>,
) -> Result<Mapped, AllocError>
    requires ports { instance.now.among.now ≡ among_ports instance.now.entity instance.now.at.now instance.now.names.now }
    requires mapped_in { mapped.trees ≤ length out.old }
    ensures is { IfOk result (λ made. IsMapped out.new made
        (converted_element port instance.now.at.now instance.now.names.now node.now.place node.now.parts (with_next (next_of node.now.parts) nothing)
        (conversion_read instance.now.entity instance.now.at.now instance.now.names.now (with_next (parts_of node.now.parts) nothing)) (seen_map out.old mapped))) }
    ensures extends { Extends out.old out.new }
{
    let read = converted(alloc, instance, &node.parts.parts(), out)?;
    let conversion = mark_of(&out.cursor(read.tree));
    let own = instance.names.mark_of(port);
    let mode = formal_at(instance.names, port).mode;
    let mark = converted_type(mode, &conversion, &own);
    let back = not_back(alloc, instance, port, &conversion, &own, &node.parts.next())?;
    let inside = Read {
        tree: read.tree,
        first: lesser(read.first, back),
    };
    associated_with(alloc, instance, port, &mark, node, inside, mapped, out)
}

/// An association, by what stands in front of `=>`.
fn associated(
    alloc: Global,
    instance: &Instance<'_, '_>,
    front: Front,
    node: &Opened<'_, Form>,
    mapped: Mapped,
    out: &mut Store<Resolved>,
) -> Result<Mapped, AllocError>
    requires ports { instance.now.among.now ≡ among_ports instance.now.entity instance.now.at.now instance.now.names.now }
    requires mapped_in { mapped.trees ≤ length out.old }
    ensures is { IfOk result (λ made. IsMapped out.new made
        (by_front front instance.now.entity instance.now.at.now instance.now.names.now node.now.place node.now.parts
        (with_next (next_of node.now.parts) nothing) (more node.now.form node.now.text.now node.now.place node.now.parts nothing) (seen_map out.old mapped))) }
    ensures extends { Extends out.old out.new }
{
    match front {
        Front::Port(port) => by_name(alloc, instance, port, node, mapped, out),
        Front::Conversion(port) => by_conversion(alloc, instance, port, node, mapped, out),
        Front::Other => with_other(alloc, instance, node, mapped, out),
    }
}

/// An association, behind which none stands for a place.
fn association(
    alloc: Global,
    instance: &Instance<'_, '_>,
    node: &Opened<'_, Form>,
    mapped: Mapped,
    out: &mut Store<Resolved>,
) -> Result<Mapped, AllocError>
    requires ports { instance.now.among.now ≡ among_ports instance.now.entity instance.now.at.now instance.now.names.now }
    requires mapped_in { mapped.trees ≤ length out.old }
    ensures is { IfOk result (λ made. IsMapped out.new made
        (associated_element (front_there instance.now.names.now instance.now.entity (parts_of node.now.parts)) instance.now.entity instance.now.at.now
        instance.now.names.now node.now.place node.now.parts (with_next (next_of node.now.parts) nothing)
        (more node.now.form node.now.text.now node.now.place node.now.parts nothing) (behind_name (seen_map out.old mapped)))) }
    ensures extends { Extends out.old out.new }
{
    let found = front_of(alloc, instance.names, instance.entity, &node.parts.parts())?;
    let named = named_from_here(mapped);
    associated(alloc, instance, found, node, named, out)
}

/// An element, which is the first of some trees and has this number.
pub(crate) fn with_tree(
    alloc: Global,
    instance: &Instance<'_, '_>,
    number: usize,
    trees: &Cursor<'_, Form>,
    node: &Opened<'_, Form>,
    mapped: Mapped,
    out: &mut Store<Resolved>,
) -> Result<Mapped, AllocError>
    requires first { trees.now ≡ more node.now.form node.now.text.now node.now.place node.now.parts node.now.next }
    requires ports { instance.now.among.now ≡ among_ports instance.now.entity instance.now.at.now instance.now.names.now }
    requires mapped_in { mapped.trees ≤ length out.old }
    ensures is { IfOk result (λ made. IsMapped out.new made
        (tree_too instance.now.entity instance.now.at.now instance.now.names.now number node.now.form node.now.place node.now.parts
        (more node.now.form node.now.text.now node.now.place node.now.parts nothing) (seen_map out.old mapped))) }
    ensures extends { Extends out.old out.new }
{
    match node.form {
        Form::Association => association(alloc, instance, node, mapped, out),
        Form::OthersAssociation => with_other(alloc, instance, node, mapped, out),
        _ => {
            let ports = instance.names.parameters_of(instance.entity);
            let port = port_at(mapped.is_named, ports, number);
            placed(alloc, instance, &port, trees, node, mapped, out)
        }
    }
}
