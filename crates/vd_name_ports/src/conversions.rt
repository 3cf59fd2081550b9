//! Conversions of ports in front of `=>`: the ports are looked up first in them, and they tell the type of the actual or of its operand.

ghost use Rattle.std.specs.Prelude.{◌≡◌, ℕ, List, ◌&&◌, if◌then◌else◌, IfOk};
ghost use Rattle.vd_bytes.specs.declared.places.Place.{Place};
ghost use Rattle.vd_forest.specs.Forest.{Forest, nothing, more, with_next};
ghost use Rattle.vd_forest.specs.Store.{Extends};
ghost use Rattle.vd_resolved.specs.declared.node.Resolved.{Resolved};
ghost use Rattle.vd_naming.specs.Ports.{value_as as value_of_type, among_ports as place_among_ports, converted as conversion_read, converted_type as type_by_mode, operand_type as type_of_operand, signal_type as type_of_signal, other_types as are_other_types, goes_both_ways as both_ways, not_back as refused_back};
ghost use Rattle.vd_name_expressions.specs.Reads.{IsRead};

use crate::actuals::{formal_at, value_as};
use crate::instance::Instance;
use std::alloc::{AllocError, Global};
use vd_bytes::Refused;
use vd_declarations::{DeclId, TypeId};
use vd_forest::{Cursor, Store};
use vd_forms::Form;
use vd_name_entering::region_inside;
use vd_name_expressions::expression_reading::read_first;
use vd_name_expressions::marks::first_place;
use vd_name_expressions::{Read, mark_of};
use vd_name_rows::{At, Names};
use vd_naming::broken_if;
use vd_overloads::Wanted;
use vd_resolved::Resolved;
use vd_trees::Revision;

/// A place where the ports of an entity are looked up first.
pub fn among_ports<'a>(
    alloc: Global,
    names: &Names,
    entity: DeclId,
    at: &At<'a>,
) -> Result<At<'a>, AllocError>
    ensures { IfOk result (λ among. among ≡ place_among_ports entity at.now names.now) }
{
    let mut among = at.again(alloc)?;
    among.ports = region_inside(names, Some(entity));
    Ok(among)
}

/// The first tree as a conversion of a port.
pub fn converted(
    alloc: Global,
    instance: &Instance<'_, '_>,
    trees: &Cursor<'_, Form>,
    out: &mut Store<Resolved>,
) -> Result<Read, AllocError>
    requires ports { instance.now.among.now ≡ place_among_ports instance.now.entity instance.now.at.now instance.now.names.now }
    ensures is { IfOk result (λ read. IsRead out.new read
        (conversion_read instance.now.entity instance.now.at.now instance.now.names.now (with_next trees.now nothing))) }
    ensures extends { Extends out.old out.new }
{
    let read = read_first(
        alloc,
        instance.names,
        instance.among,
        &Wanted::Free,
        trees,
        out,
    )?;
    Ok(read)
}

/// The type that the actual has of a port whose name is converted: that of the conversion where the port is an `out`, and else its own.
pub(crate) fn converted_type(
    mode: Form,
    conversion: &Option<TypeId>,
    own: &Option<TypeId>,
) -> Option<TypeId>
    ensures { result ≡ type_by_mode mode conversion.now own.now }
{
    match mode {
        Form::Out => *conversion,
        _ => *own,
    }
}

/// The type of the argument of the last piece of a name, where this is a conversion or a call, and else the name's own.
fn type_behind(
    own: &Option<TypeId>,
    piece: &Resolved,
    parts: &Cursor<'_, Resolved>,
) -> Option<TypeId>
    ensures { (text : List ℕ) (place : Place) → result ≡ type_of_operand own.now (more piece.now text place parts.now nothing) }
{
    match piece.form {
        Form::Arguments => match piece.declaration {
            Some(_) => mark_of(parts),
            None => *own,
        },
        _ => *own,
    }
}

/// The same of all pieces of a name.
fn operand_type(own: &Option<TypeId>, pieces: &Cursor<'_, Resolved>) -> Option<TypeId>
    ensures { result ≡ type_of_operand own.now pieces.now }
{
    let mut left = pieces.fork();
    while let Some(piece) = left.open() {
        if piece.next.open().is_none() {
            return type_behind(own, &piece.form, &piece.parts);
        }
        left = piece.next;
    }
    *own
}

/// The type of the signal that an actual is.
fn signal_type(tree: &Cursor<'_, Resolved>) -> Option<TypeId>
    ensures { result ≡ type_of_signal tree.now }
{
    let Some(first) = tree.open() else {
        return None;
    };
    match first.form.form {
        Form::Name => operand_type(&first.form.mark, &first.parts),
        _ => first.form.mark,
    }
}

/// Whether they are two types.
fn other_types(one: &Option<TypeId>, other: &Option<TypeId>) -> bool
    ensures { result ≡ are_other_types one.now other.now }
{
    match one {
        None => false,
        Some(one) => match other {
            None => false,
            Some(other) => one.number() != other.number(),
        },
    }
}

/// Whether a conversion of a port of this mode goes both ways.
fn goes_both_ways(revision: Revision, mode: Form) -> bool
    ensures { result ≡ both_ways revision mode }
{
    match revision {
        Revision::V1993 => matches!(mode, Form::InOut),
        Revision::V2019 => false,
    }
}

/// Whether a conversion of this type isn't to the type of the signal that is the first tree, which is read as what a port of this type is given.
fn goes_elsewhere(
    alloc: Global,
    instance: &Instance<'_, '_>,
    conversion: &Option<TypeId>,
    own: &Option<TypeId>,
    value: &Cursor<'_, Form>,
) -> Result<bool, AllocError>
    ensures { IfOk result (λ elsewhere. elsewhere
        ≡ are_other_types conversion.now (type_of_signal (value_of_type own.now instance.now.at.now instance.now.names.now (with_next value.now nothing)).tree)) }
{
    let mut scratch = Store::new(alloc);
    let read = value_as(alloc, instance, own, value, &mut scratch)?;
    let signal = signal_type(&scratch.cursor(read.tree));
    Ok(other_types(conversion, &signal))
}

/// What is refused of a conversion of this type of a port that goes both ways.
pub(crate) fn not_back(
    alloc: Global,
    instance: &Instance<'_, '_>,
    port: DeclId,
    conversion: &Option<TypeId>,
    own: &Option<TypeId>,
    value: &Cursor<'_, Form>,
) -> Result<Option<Refused>, AllocError>
    ensures { IfOk result (λ first. first
        ≡ refused_back port instance.now.at.now instance.now.names.now conversion.now own.now (with_next value.now nothing)) }
{
    let at = instance.at;
    if !goes_both_ways(at.revision, formal_at(instance.names, port).mode) {
        return Ok(None);
    }
    let elsewhere = goes_elsewhere(alloc, instance, conversion, own, value)?;
    Ok(broken_if(elsewhere, 305, first_place(value)))
}
