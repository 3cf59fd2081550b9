//! Nodes of the syntax that is written.
#![tactic(auto, using(vd_forest::proofs::StoreLemmas::growing))]

ghost use Rattle.std.specs.Prelude.{◌≡◌, ◌≤◌, IfOk, length};
ghost use Rattle.vd_forest.specs.Store.{Extends};

use std::alloc::AllocError;
use vd_bytes::Place;
use vd_forest::Store;
use vd_forms::Form;

/// What stands between the first and the last byte of a name.
fn inner(name: &[u8]) -> &[u8] {
    match name {
        [_, more @ .., _] => more,
        _ => name,
    }
}

/// The leaf that a name is written as: an operator symbol in quotation marks, a character literal in apostrophes, or an identifier.
pub(crate) fn leaf(
    out: &mut Store<Form>,
    name: &[u8],
    place: Place,
    next: u32,
) -> Result<u32, AllocError>
    requires { next ≤ length out.old }
    ensures within { IfOk result (λ made. made ≤ length out.new) }
    ensures extends { Extends out.old out.new }
{
    match name {
        [b'"', ..] => out.add(Form::Quoted, inner(name), place, 0, next),
        [b'\'', ..] => out.add(Form::Letter, inner(name), place, 0, next),
        _ => out.add(Form::Identifier, name, place, 0, next),
    }
}

/// An identifier.
pub(crate) fn identifier(
    out: &mut Store<Form>,
    name: &[u8],
    place: Place,
    next: u32,
) -> Result<u32, AllocError>
    requires { next ≤ length out.old }
    ensures within { IfOk result (λ made. made ≤ length out.new) }
    ensures extends { Extends out.old out.new }
{
    out.add(Form::Identifier, name, place, 0, next)
}

/// A name behind a point.
pub(crate) fn selection(
    out: &mut Store<Form>,
    name: &[u8],
    place: Place,
    next: u32,
) -> Result<u32, AllocError>
    requires { next ≤ length out.old }
    ensures within { IfOk result (λ made. made ≤ length out.new) }
    ensures extends { Extends out.old out.new }
{
    let inside = leaf(out, name, place, 0)?;
    out.add(Form::Selection, &[], place, inside, next)
}

/// An attribute behind an apostrophe.
pub(crate) fn attribute(
    out: &mut Store<Form>,
    name: &[u8],
    place: Place,
    next: u32,
) -> Result<u32, AllocError>
    requires { next ≤ length out.old }
    ensures within { IfOk result (λ made. made ≤ length out.new) }
    ensures extends { Extends out.old out.new }
{
    let inside = identifier(out, name, place, 0)?;
    out.add(Form::Attribute, &[], place, inside, next)
}

/// Brackets round a number.
pub(crate) fn number_in_brackets(
    out: &mut Store<Form>,
    digits: &[u8],
    place: Place,
) -> Result<u32, AllocError>
    ensures within { IfOk result (λ made. made ≤ length out.new) }
    ensures extends { Extends out.old out.new }
{
    let inside = out.add(Form::Number, digits, place, 0, 0)?;
    out.add(Form::Arguments, &[], place, inside, 0)
}
