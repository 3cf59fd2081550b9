//! Trees of names and ports.
#![tactic(auto, using(vd_forest::proofs::StoreLemmas::growing))]

ghost use Rattle.std.specs.Prelude.{◌≡◌, ◌≤◌, IfOk, length};
ghost use Rattle.vd_forest.specs.Store.{Extends};
ghost use Rattle.vd_views.specs.Modes.{word_of as word_for};

use crate::leaves::Step;
use crate::views::{Mode, Views};
use std::alloc::AllocError;
use vd_bytes::Place;
use vd_declarations::{DeclId, Declaration};
use vd_forest::{Opened, Store};
use vd_forms::Form;
use vd_notes::{absent, word};
use vd_resolved::Resolved;

/// A node that names nothing and has no type.
pub(crate) fn plain(form: Form) -> Resolved {
    Resolved {
        form,
        declaration: None,
        mark: None,
        position: 0,
    }
}

/// The trees behind the first one, where there is one.
pub(crate) fn behind(out: &Store<Resolved>, number: u32) -> u32
    requires { number ≤ length out.now }
    ensures { result ≤ length out.now }
{
    if number == 0 { 0 } else { out.after(number) }
}

/// The parts of the first tree, or none.
pub(crate) fn parts_at(out: &Store<Resolved>, number: u32) -> u32
    requires { number ≤ length out.now }
    ensures { result ≤ length out.now }
{
    match out.head(number) {
        Some(head) => head.parts,
        None => 0,
    }
}

/// The step to an element of a record, in front of other pieces of a name.
fn selection(
    out: &mut Store<Resolved>,
    step: Step,
    field: &Declaration,
    place: Place,
    next: u32,
) -> Result<u32, AllocError>
    requires { next ≤ length out.old }
    ensures within { IfOk result (λ made. made ≤ length out.new) }
    ensures extends { Extends out.old out.new }
{
    let name = field.name.as_slice();
    let word = out.add(plain(Form::Identifier), name, place, 0, 0)?;
    let node = Resolved {
        form: Form::Selection,
        declaration: Some(step.field),
        mark: field.mark,
        position: step.position,
    };
    let made = out.add(node, &[], place, word, next)?;
    Ok(made)
}

/// The same, where the element is declared.
fn selection_if(
    out: &mut Store<Resolved>,
    views: &Views<'_, '_>,
    step: Step,
    place: Place,
    next: u32,
) -> Result<u32, AllocError>
    requires { next ≤ length out.old }
    ensures within { IfOk result (λ made. made ≤ length out.new) }
    ensures extends { Extends out.old out.new }
{
    match views.field(step.field) {
        Some(field) => selection(out, step, field, place, next),
        None => Ok(next),
    }
}

/// The pieces of a name that are these steps.
pub(crate) fn selections(
    out: &mut Store<Resolved>,
    views: &Views<'_, '_>,
    path: &[Step],
    place: Place,
) -> Result<u32, AllocError>
    ensures within { IfOk result (λ made. made ≤ length out.new) }
    ensures extends { Extends out.old out.new }
{
    let mut made = 0;
    let mut left = path.len();
    while left > 0 {
        left -= 1;
        made = selection_if(out, views, path[left], place, made)?;
    }
    Ok(made)
}

/// The word of a mode.
fn word_of(mode: Mode) -> Form
    ensures { result ≡ word_for mode }
{
    match mode {
        Mode::In => Form::In,
        Mode::Out => Form::Out,
        Mode::InOut => Form::InOut,
    }
}

/// A copy of a subtype, with no default value behind it.
fn subtype_alone(
    out: &mut Store<Resolved>,
    subtype: &Opened<'_, Resolved>,
) -> Result<u32, AllocError>
    ensures within { IfOk result (λ made. made ≤ length out.new) }
    ensures extends { Extends out.old out.new }
{
    let parts = out.copy(&subtype.parts)?;
    let default = absent(out, subtype.place, 0)?;
    let made = out.add(subtype.form, subtype.text, subtype.place, parts, default)?;
    Ok(made)
}

/// The declaration of a port, in front of others.
pub(crate) fn port_tree(
    out: &mut Store<Resolved>,
    number: u32,
    port: &Declaration,
    mode: Mode,
    subtype: &Opened<'_, Resolved>,
    next: u32,
) -> Result<u32, AllocError>
    requires { next ≤ length out.old }
    ensures within { IfOk result (λ made. made ≤ length out.new) }
    ensures extends { Extends out.old out.new }
{
    let place = port.place;
    let subtype = subtype_alone(out, subtype)?;
    let mode = out.add(plain(word_of(mode)), &[], place, 0, subtype)?;
    let name = port.name.as_slice();
    let name = word(out, name, Some(DeclId::of(number)), None, place, 0)?;
    let names = out.add(plain(Form::IdentifierList), &[], place, name, mode)?;
    let parts = absent(out, place, names)?;
    let made = out.add(plain(Form::PortDeclaration), &[], place, parts, next)?;
    Ok(made)
}
