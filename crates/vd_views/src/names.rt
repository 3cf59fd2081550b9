//! Names of elements of ports with a view.
#![tactic(auto, using(vd_forest::proofs::StoreLemmas::growing))]

ghost use Rattle.std.specs.Prelude.{◌≡◌, ◌≤◌, IfOk, IfSome, length};
ghost use Rattle.vd_forest.specs.Store.{Extends};

use crate::leaves::Step;
use crate::ports::{Ports, ViewPort};
use crate::trees::selections;
use crate::views::{ElementMode, Views};
use std::alloc::AllocError;
use vd_bytes::Place;
use vd_declarations::DeclId;
use vd_forest::{Opened, Store};
use vd_forms::Form;
use vd_notes::word;
use vd_resolved::Resolved;

/// The port for an element, and the pieces of a name behind that element.
#[derive(Clone, Copy)]
struct PortAndRest {
    number: u32,
    rest: u32,
}

/// Where a step leads from an element of a view: to a port, or into a view.
#[derive(Clone, Copy)]
pub(crate) enum Reached {
    Port(u32),
    /// A view, of whose elements the first has this number.
    Inside { view: u32, first: u32 },
}

/// Where the step to the element at a place of a view leads, where the first element of the view has this number.
fn step(views: &Views<'_, '_>, view: u32, first: u32, place: u32) -> Option<Reached> {
    let element = views.element(view, place)?;
    let number = first.saturating_add(element.first);
    match element.mode {
        ElementMode::Plain(_) => Some(Reached::Port(number)),
        ElementMode::ByView { view, .. } => Some(Reached::Inside {
            view,
            first: number,
        }),
    }
}

/// Where some steps from a port lead, and how many of them led there.
#[derive(Clone, Copy)]
pub(crate) struct Route {
    pub(crate) reached: Reached,
    pub(crate) used: usize,
}

/// Where some steps from a port lead. There may be more of them than lead to a port with a mode.
pub(crate) fn follow(views: &Views<'_, '_>, port: ViewPort, path: &[Step]) -> Option<Route> {
    let mut view = port.view;
    let mut first = port.first;
    let mut used: usize = 0;
    for one in path {
        used = used.saturating_add(1);
        match step(views, view, first, one.position)? {
            Reached::Port(number) => {
                return Some(Route {
                    reached: Reached::Port(number),
                    used,
                });
            }
            Reached::Inside {
                view: inner,
                first: number,
            } => {
                view = inner;
                first = number;
            }
        }
    }
    Some(Route {
        reached: Reached::Inside { view, first },
        used,
    })
}

/// Whether a piece of a name may be that of a port.
fn is_object(form: Form) -> bool {
    matches!(form, Form::Identifier | Form::Selection)
}

/// The port with a view that a piece of a name is.
fn port_at(out: &Store<Resolved>, ports: &Ports<'_>, piece: u32) -> Option<ViewPort>
    requires { piece ≤ length out.now }
{
    match out.head(piece) {
        Some(head) if is_object(head.form.form) => ports.port(head.form.declaration),
        _ => None,
    }
}

/// The piece of a name that is a port with a view, with those behind it.
fn head_of(out: &Store<Resolved>, ports: &Ports<'_>, pieces: u32) -> u32
    requires { pieces ≤ length out.now }
    ensures { result ≤ length out.now }
{
    let mut left = pieces;
    while left > 0 {
        if port_at(out, ports, left).is_some() {
            return left;
        }
        left = out.after(left);
    }
    0
}

/// The place of the element to which a piece of a name leads.
fn position_at(out: &Store<Resolved>, piece: u32) -> Option<u32>
    requires { piece ≤ length out.now }
{
    match out.head(piece) {
        Some(head) if matches!(head.form.form, Form::Selection) => Some(head.form.position),
        _ => None,
    }
}

/// The port for the element of a port to which pieces of a name lead, and the pieces behind it.
fn eaten(
    out: &Store<Resolved>,
    views: &Views<'_, '_>,
    port: ViewPort,
    pieces: u32,
) -> Option<PortAndRest>
    requires { pieces ≤ length out.now }
    ensures { IfSome result (λ eaten. eaten.rest ≤ length out.now) }
{
    let mut view = port.view;
    let mut first = port.first;
    let mut left = pieces;
    while left > 0 {
        let position = position_at(out, left)?;
        left = out.after(left);
        match step(views, view, first, position)? {
            Reached::Port(number) => {
                return Some(PortAndRest { number, rest: left });
            }
            Reached::Inside {
                view: inner,
                first: number,
            } => {
                view = inner;
                first = number;
            }
        }
    }
    None
}

/// The word of a port that takes the place of another, in front of other pieces of a name.
pub(crate) fn port_word(
    out: &mut Store<Resolved>,
    ports: &Ports<'_>,
    number: u32,
    place: Place,
    rest: u32,
) -> Result<u32, AllocError>
    requires { rest ≤ length out.old }
    ensures within { IfOk result (λ made. made ≤ length out.new) }
    ensures extends { Extends out.old out.new }
{
    match ports.element(number) {
        Some(port) => {
            let name = port.name.as_slice();
            let made = word(out, name, Some(DeclId::of(number)), port.mark, place, rest)?;
            Ok(made)
        }
        None => Ok(rest),
    }
}

/// The name of a port that takes the place of another, and steps from it, with the type of the last one.
pub(crate) fn port_name(
    out: &mut Store<Resolved>,
    views: &Views<'_, '_>,
    ports: &Ports<'_>,
    number: u32,
    path: &[Step],
    form: Resolved,
    place: Place,
) -> Result<u32, AllocError>
    ensures within { IfOk result (λ made. made ≤ length out.new) }
    ensures extends { Extends out.old out.new }
{
    let rest = selections(out, views, path, place)?;
    let pieces = port_word(out, ports, number, place, rest)?;
    let made = out.add(form, &[], place, pieces, 0)?;
    Ok(made)
}

/// The pieces of a name, where those of an element of a port with a view are the port that takes its place.
fn pieces_of(
    out: &mut Store<Resolved>,
    views: &Views<'_, '_>,
    ports: &Ports<'_>,
    pieces: u32,
) -> Result<u32, AllocError>
    requires { pieces ≤ length out.old }
    ensures within { IfOk result (λ made. made ≤ length out.new) }
    ensures extends { Extends out.old out.new }
{
    let found = head_of(out, ports, pieces);
    let Some(port) = port_at(out, ports, found) else {
        return Ok(pieces);
    };
    let Some(head) = out.head(found) else {
        return Ok(pieces);
    };
    let (place, next) = (head.place, head.next);
    match eaten(out, views, port, next) {
        Some(eaten) => port_word(out, ports, eaten.number, place, eaten.rest),
        None => Ok(pieces),
    }
}

/// A name whose pieces are walked.
pub(crate) fn name(
    out: &mut Store<Resolved>,
    views: &Views<'_, '_>,
    ports: &Ports<'_>,
    node: &Opened<'_, Resolved>,
    pieces: u32,
) -> Result<u32, AllocError>
    requires { pieces ≤ length out.old }
    ensures within { IfOk result (λ made. made ≤ length out.new) }
    ensures extends { Extends out.old out.new }
{
    let pieces = pieces_of(out, views, ports, pieces)?;
    let made = out.add(node.form, node.text, node.place, pieces, 0)?;
    Ok(made)
}
