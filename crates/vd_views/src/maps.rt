//! Elements of port maps for ports with a view.
#![tactic(auto, using(vd_forest::proofs::StoreLemmas::growing))]

ghost use Rattle.std.specs.Prelude.{◌≤◌, IfOk, length};
ghost use Rattle.vd_forest.specs.Store.{Extends};

use crate::leaves::{Leaf, Step, leaves};
use crate::names::{Reached, follow, port_name};
use crate::ports::{Ports, ViewPort};
use crate::trees::{behind, parts_at, plain, selections};
use crate::views::Views;
use std::alloc::{AllocError, Global};
use vd_bytes::Place;
use vd_declarations::{DeclId, TypeId};
use vd_forest::{Opened, Store};
use vd_forms::Form;
use vd_notes::number_at;
use vd_resolved::Resolved;

/// An element of a port map that is made: the port for an element of the formal, and steps from there.
#[derive(Clone, Copy)]
struct Formal<'p> {
    number: u32,
    path: &'p [Step],
    place: Place,
}

/// What stands for a port with a view: another one, or the name of a signal.
#[derive(Clone, Copy)]
enum Actual {
    OfPort(ViewPort),
    OfSignal,
}

/// The port with a view that is named whole in front of `=>`.
fn formal_of(ports: &Ports<'_>, node: &Opened<'_, Resolved>) -> Option<ViewPort> {
    let name = node.parts.parts().open()?;
    if !matches!(name.form.form, Form::Name) || name.parts.next().form().is_some() {
        return None;
    }
    let number = number_at(&name)?;
    ports.port(Some(DeclId::of(number)))
}

/// The form of the first tree.
fn form_at(out: &Store<Resolved>, number: u32) -> Form
    requires { number ≤ length out.now }
{
    match out.head(number) {
        Some(head) => head.form.form,
        None => Form::Absent,
    }
}

/// What the first piece of a name means, where it has no other.
fn whole(out: &Store<Resolved>, pieces: u32) -> Option<DeclId>
    requires { pieces ≤ length out.now }
{
    match out.head(pieces) {
        Some(head) if head.next == 0 => head.form.declaration,
        _ => None,
    }
}

/// What the actual of an element of a map is.
fn actual_of(out: &Store<Resolved>, ports: &Ports<'_>, actual: u32) -> Option<Actual>
    requires { actual ≤ length out.now }
{
    if !matches!(form_at(out, actual), Form::Name) {
        return None;
    }
    match ports.port(whole(out, parts_at(out, actual))) {
        Some(port) => Some(Actual::OfPort(port)),
        None => Some(Actual::OfSignal),
    }
}

/// The type of the element to which steps lead.
fn mark_of(views: &Views<'_, '_>, path: &[Step]) -> Option<TypeId> {
    let step = path.last()?;
    let field = views.field(step.field)?;
    field.mark
}

/// The name of a whole port in front of `=>`.
fn whole_name(
    out: &mut Store<Resolved>,
    ports: &Ports<'_>,
    number: u32,
    place: Place,
) -> Result<u32, AllocError>
    ensures within { IfOk result (λ made. made ≤ length out.new) }
    ensures extends { Extends out.old out.new }
{
    let text = match ports.element(number) {
        Some(port) => port.name.as_slice(),
        None => &[],
    };
    let word = out.add(plain(Form::Identifier), text, place, 0, 0)?;
    let form = Resolved {
        declaration: Some(DeclId::of(number)),
        ..plain(Form::Name)
    };
    let made = out.add(form, &[], place, word, 0)?;
    Ok(made)
}

/// The name of a port, or of an element of it, in front of `=>`.
fn formal_name(
    out: &mut Store<Resolved>,
    views: &Views<'_, '_>,
    ports: &Ports<'_>,
    formal: Formal<'_>,
) -> Result<u32, AllocError>
    ensures within { IfOk result (λ made. made ≤ length out.new) }
    ensures extends { Extends out.old out.new }
{
    match mark_of(views, formal.path) {
        Some(mark) => {
            let mark = Some(mark);
            name_of(
                out,
                views,
                ports,
                formal.number,
                formal.path,
                mark,
                formal.place,
            )
        }
        None => whole_name(out, ports, formal.number, formal.place),
    }
}

/// The element of a map for a port, with this actual.
fn association(
    out: &mut Store<Resolved>,
    views: &Views<'_, '_>,
    ports: &Ports<'_>,
    formal: Formal<'_>,
    actual: u32,
) -> Result<u32, AllocError>
    requires { actual ≤ length out.old }
    ensures within { IfOk result (λ made. made ≤ length out.new) }
    ensures extends { Extends out.old out.new }
{
    let name = formal_name(out, views, ports, formal)?;
    let place = formal.place;
    let choices = out.add(plain(Form::AssociationChoices), &[], place, name, actual)?;
    let made = out.add(plain(Form::Association), &[], place, choices, 0)?;
    Ok(made)
}

/// The name of the element of a signal to which steps lead.
fn element_of(
    out: &mut Store<Resolved>,
    views: &Views<'_, '_>,
    signal: u32,
    path: &[Step],
) -> Result<u32, AllocError>
    requires { signal ≤ length out.old }
    ensures within { IfOk result (λ made. made ≤ length out.new) }
    ensures extends { Extends out.old out.new }
{
    let Some(head) = out.head(signal) else {
        return Ok(0);
    };
    let (form, place, pieces) = (head.form, head.place, head.parts);
    let steps = selections(out, views, path, place)?;
    let turned = out.turn(pieces, 0)?;
    let pieces = out.turn(turned, steps)?;
    let form = Resolved {
        mark: mark_of(views, path),
        ..form
    };
    let made = out.add(form, &[], place, pieces, 0)?;
    Ok(made)
}

/// The name of a port, and of the element of it to which steps lead.
fn name_of(
    out: &mut Store<Resolved>,
    views: &Views<'_, '_>,
    ports: &Ports<'_>,
    number: u32,
    path: &[Step],
    mark: Option<TypeId>,
    place: Place,
) -> Result<u32, AllocError>
    ensures within { IfOk result (λ made. made ≤ length out.new) }
    ensures extends { Extends out.old out.new }
{
    let form = Resolved {
        mark,
        ..plain(Form::Name)
    };
    port_name(out, views, ports, number, path, form, place)
}

/// An element of a map for each element of a view, of which the first is this port, where one element of the formal stands for all of them.
fn each_inside(
    alloc: Global,
    out: &mut Store<Resolved>,
    views: &Views<'_, '_>,
    ports: &Ports<'_>,
    formal: Formal<'_>,
    view: u32,
    first: u32,
    place: Place,
) -> Result<u32, AllocError>
    ensures within { IfOk result (λ made. made ≤ length out.new) }
    ensures extends { Extends out.old out.new }
{
    let elements = leaves(alloc, views, view, false)?;
    let mut number = first;
    let mut made = 0;
    for element in &elements {
        let path = element.path.as_slice();
        let mark = mark_of(views, path);
        let actual = name_of(out, views, ports, number, &[], mark, place)?;
        let one = Formal { path, ..formal };
        let tree = association(out, views, ports, one, actual)?;
        made = out.turn(tree, made)?;
        number = number.saturating_add(1);
    }
    let all = out.turn(made, 0)?;
    Ok(all)
}

/// The elements of a map for an element of the formal, where the actual is a port with a view.
fn with_port(
    alloc: Global,
    out: &mut Store<Resolved>,
    views: &Views<'_, '_>,
    ports: &Ports<'_>,
    formal: Formal<'_>,
    port: ViewPort,
    path: &[Step],
    place: Place,
) -> Result<u32, AllocError>
    ensures within { IfOk result (λ made. made ≤ length out.new) }
    ensures extends { Extends out.old out.new }
{
    let Some(route) = follow(views, port, path) else {
        return Ok(0);
    };
    match route.reached {
        Reached::Port(number) => {
            let mark = mark_of(views, path);
            let rest = path.get(route.used..).unwrap_or(&[]);
            let actual = name_of(out, views, ports, number, rest, mark, place)?;
            association(out, views, ports, formal, actual)
        }
        Reached::Inside { view, first } => {
            each_inside(alloc, out, views, ports, formal, view, first, place)
        }
    }
}

/// The elements of a map for an element of the formal.
fn for_element(
    alloc: Global,
    out: &mut Store<Resolved>,
    views: &Views<'_, '_>,
    ports: &Ports<'_>,
    formal: Formal<'_>,
    actual: Actual,
    tree: u32,
    path: &[Step],
) -> Result<u32, AllocError>
    requires { tree ≤ length out.old }
    ensures within { IfOk result (λ made. made ≤ length out.new) }
    ensures extends { Extends out.old out.new }
{
    match actual {
        Actual::OfPort(port) => {
            with_port(alloc, out, views, ports, formal, port, path, formal.place)
        }
        Actual::OfSignal => {
            let actual = element_of(out, views, tree, path)?;
            association(out, views, ports, formal, actual)
        }
    }
}

/// The elements of a map for a port with a view, whose actual is this tree.
fn for_port(
    alloc: Global,
    out: &mut Store<Resolved>,
    views: &Views<'_, '_>,
    ports: &Ports<'_>,
    port: ViewPort,
    actual: Actual,
    tree: u32,
    place: Place,
) -> Result<u32, AllocError>
    requires { tree ≤ length out.old }
    ensures within { IfOk result (λ made. made ≤ length out.new) }
    ensures extends { Extends out.old out.new }
{
    let elements: Vec<Leaf> = leaves(alloc, views, port.view, port.is_converse)?;
    let mut number = port.first;
    let mut made = 0;
    for element in &elements {
        let formal = Formal {
            number,
            path: &[],
            place,
        };
        let path = element.path.as_slice();
        let one = for_element(alloc, out, views, ports, formal, actual, tree, path)?;
        made = out.turn(one, made)?;
        number = number.saturating_add(1);
    }
    let all = out.turn(made, 0)?;
    Ok(all)
}

/// An element of a map, whose parts are walked, in front of none. One for a port with a view becomes one for each of the ports that take its place.
pub(crate) fn element(
    alloc: Global,
    out: &mut Store<Resolved>,
    views: &Views<'_, '_>,
    ports: &Ports<'_>,
    node: &Opened<'_, Resolved>,
    parts: u32,
) -> Result<u32, AllocError>
    requires { parts ≤ length out.old }
    ensures within { IfOk result (λ made. made ≤ length out.new) }
    ensures extends { Extends out.old out.new }
{
    if let Some(port) = formal_of(ports, node) {
        let tree = behind(out, parts);
        if let Some(actual) = actual_of(out, ports, tree) {
            return for_port(alloc, out, views, ports, port, actual, tree, node.place);
        }
    }
    let made = out.add(node.form, node.text, node.place, parts, 0)?;
    Ok(made)
}
