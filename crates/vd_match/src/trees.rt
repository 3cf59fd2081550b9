//! Trees that are taken apart and put together.
#![tactic(auto, using(vd_forest::proofs::StoreLemmas::growing))]

ghost use Rattle.std.specs.Prelude.{◌≤◌, IfOk, length};
ghost use Rattle.vd_forest.specs.Store.{Extends};

use std::alloc::AllocError;
use vd_bytes::Place;
use vd_declarations::{DeclId, TypeId};
use vd_forest::Store;
use vd_forms::Form;
use vd_notes::{Note, Noted};
use vd_resolved::Resolved;

/// A node without a note.
pub(crate) fn node_of(form: Form, declaration: Option<DeclId>, mark: Option<TypeId>) -> Noted {
    Noted {
        node: Resolved {
            form,
            declaration,
            mark,
            position: 0,
        },
        note: Note::Nothing,
    }
}

/// A node that names nothing, has no type and no note.
pub(crate) fn bare(form: Form) -> Noted {
    node_of(form, None, None)
}

/// The trees behind the first one, where there is one.
pub(crate) fn behind(out: &Store<Noted>, number: u32) -> u32
    requires { number ≤ length out.now }
    ensures { result ≤ length out.now }
{
    if number == 0 { 0 } else { out.after(number) }
}

/// The parts of the first tree, or none.
pub(crate) fn parts_at(out: &Store<Noted>, number: u32) -> u32
    requires { number ≤ length out.now }
    ensures { result ≤ length out.now }
{
    match out.head(number) {
        Some(head) => head.parts,
        None => 0,
    }
}

/// The form of the first tree.
pub(crate) fn form_at(out: &Store<Noted>, number: u32) -> Form
    requires { number ≤ length out.now }
{
    match out.head(number) {
        Some(head) => head.form.node.form,
        None => Form::Absent,
    }
}

/// The type of the first tree.
pub(crate) fn type_at(out: &Store<Noted>, number: u32) -> Option<TypeId>
    requires { number ≤ length out.now }
{
    match out.head(number) {
        Some(head) => head.form.node.mark,
        None => None,
    }
}

/// The note of the first tree.
pub(crate) fn note_at(out: &Store<Noted>, number: u32) -> Note
    requires { number ≤ length out.now }
{
    match out.head(number) {
        Some(head) => head.form.note,
        None => Note::Nothing,
    }
}

/// The place of the first tree, or another where there is none.
pub(crate) fn place_or(out: &Store<Noted>, number: u32, other: Place) -> Place
    requires { number ≤ length out.now }
{
    match out.head(number) {
        Some(head) => head.place,
        None => other,
    }
}

/// A tree in front of others, where there is one.
pub(crate) fn in_front(out: &mut Store<Noted>, tree: u32, rest: u32) -> Result<u32, AllocError>
    requires tree_in { tree ≤ length out.old }
    requires rest_in { rest ≤ length out.old }
    ensures within { IfOk result (λ made. made ≤ length out.new) }
    ensures extends { Extends out.old out.new }
{
    if tree == 0 {
        return Ok(rest);
    }
    let made = out.relink(tree, rest)?;
    Ok(made)
}
