//! What stands in front of `=>`: a port, or a conversion of one.

ghost use Rattle.std.specs.Prelude.{◌≡◌, ℕ, List, Some, IfOk};
ghost use Rattle.std.specs.Option.{option_copied};
ghost use Rattle.vd_bytes.specs.declared.places.Place.{Place};
ghost use Rattle.vd_forest.specs.Forest.{nothing, more};
ghost use Rattle.vd_naming.specs.Ports.{OfPort, Converted, port_named, name_alone as only_name, last_argument as argument_of_last, front_of_name as front_of_pieces, front as front_there};
ghost use Rattle.vd_name_ports.specs.Fronts.{known_front};

use std::alloc::{AllocError, Global};
use vd_declarations::DeclId;
use vd_forest::Cursor;
use vd_forms::Form;
use vd_name_entering::region_inside;
use vd_name_rows::Names;
use vd_visible::lists::simple_name;
use vd_visible::port_in;

/// What stands in front of `=>`, where there is a port of its name.
#[derive(Clone, Copy)]
pub enum Front {
    /// A port.
    Port(DeclId),
    /// A port in brackets behind something else.
    Conversion(DeclId),
    Other,
}

/// The port of this name that an entity has.
fn port_called(
    alloc: Global,
    names: &Names,
    entity: DeclId,
    name: &[u8],
) -> Result<Option<DeclId>, AllocError>
    ensures { IfOk result (λ port. port ≡ port_named names.now entity (Some name.now)) }
{
    let inside = region_inside(names, Some(entity));
    port_in(alloc, names.regions(), inside, name)
}

/// The name that is the only tree.
fn name_alone<'a>(trees: &Cursor<'a, Form>) -> Option<&'a [u8]>
    ensures { option_copied result ≡ only_name trees.now }
{
    let first = trees.open()?;
    if first.next.open().is_some() {
        return None;
    }
    simple_name(first.form, &first.parts)
}

/// The name that is the argument of the last piece of a name, where this is one in brackets.
fn argument_of<'a>(form: Form, parts: &Cursor<'a, Form>) -> Option<&'a [u8]>
    ensures { (text : List ℕ) (place : Place) → option_copied result ≡ argument_of_last (more form text place parts.now nothing) }
{
    match form {
        Form::Arguments => name_alone(parts),
        _ => None,
    }
}

/// The name that is the argument of the last of some pieces.
#[tactic(auto, using(crate::proofs::FrontLemmas::not_last))]
fn last_argument<'a>(pieces: &Cursor<'a, Form>) -> Option<&'a [u8]>
    ensures { option_copied result ≡ argument_of_last pieces.now }
{
    let mut left = pieces.fork();
    while let Some(piece) = left.open() {
        if piece.next.open().is_none() {
            return argument_of(piece.form, &piece.parts);
        }
        left = piece.next;
    }
    None
}

/// The port that is the argument of the last of some pieces.
fn port_converted(
    alloc: Global,
    names: &Names,
    entity: DeclId,
    pieces: &Cursor<'_, Form>,
) -> Result<Option<DeclId>, AllocError>
    ensures { IfOk result (λ port. port ≡ port_named names.now entity (argument_of_last pieces.now)) }
{
    match last_argument(pieces) {
        None => Ok(None),
        Some(name) => port_called(alloc, names, entity, name),
    }
}

/// A port in front of `=>`, where it is known.
fn of_port(port: &Option<DeclId>) -> Front
    ensures { result ≡ known_front (OfPort port.now) }
{
    match port {
        Some(id) => Front::Port(*id),
        None => Front::Other,
    }
}

/// A conversion of a port, where this is known.
fn of_conversion(port: &Option<DeclId>) -> Front
    ensures { result ≡ known_front (Converted port.now) }
{
    match port {
        Some(id) => Front::Conversion(*id),
        None => Front::Other,
    }
}

/// What the pieces of a name are. A port with anything behind it is no whole port.
fn front_of_name(
    alloc: Global,
    names: &Names,
    entity: DeclId,
    pieces: &Cursor<'_, Form>,
) -> Result<Front, AllocError>
    ensures { IfOk result (λ found. found ≡ known_front (front_of_pieces names.now entity pieces.now)) }
{
    let Some(first) = pieces.open() else {
        return Ok(Front::Other);
    };
    let port = port_called(alloc, names, entity, first.text)?;
    if first.next.open().is_none() {
        return Ok(of_port(&port));
    }
    if port.is_some() {
        return Ok(Front::Other);
    }
    let inner = port_converted(alloc, names, entity, &first.next)?;
    Ok(of_conversion(&inner))
}

/// What stands in front of `=>`.
pub fn front_of(
    alloc: Global,
    names: &Names,
    entity: DeclId,
    choices: &Cursor<'_, Form>,
) -> Result<Front, AllocError>
    ensures { IfOk result (λ found. found ≡ known_front (front_there names.now entity choices.now)) }
{
    let Some(first) = choices.open() else {
        return Ok(Front::Other);
    };
    match first.form {
        Form::Name => match first.next.open() {
            None => front_of_name(alloc, names, entity, &first.parts),
            Some(_) => Ok(Front::Other),
        },
        _ => Ok(Front::Other),
    }
}
