//! One declaration a name, no word that may be left out, and ends that say what ends.

ghost use Rattle.std.specs.Prelude.{◌≡◌, ◌≤◌, ◌<◌, IfOk, length};
ghost use Rattle.vd_forest.specs.Forest.{more, parts_of};
ghost use Rattle.vd_forest.specs.Store.{at, Holds, Extends};
ghost use Rattle.vd_statements.specs.Words.{changed, each_of, leaf, list_in, list_of, name_of, named, one_of, parts_with, plain, unit_along, unit_down};

use crate::slots::{Change, Slot, change_for, is_unit};
use std::alloc::AllocError;
use vd_bytes::Place;
use vd_declarations::{DeclId, Declaration};
use vd_forest::{Opened, Store};
use vd_forms::Form;
use vd_resolved::Resolved;
use vd_rewriting::Inheriting;

/// The pass over a design with these declarations.
#[derive(Clone, Copy, Drop)]
pub struct Words<'a> {
    pub declarations: &'a [Declaration],
}

/// A node that names nothing and has no type.
pub fn plain(form: Form) -> Resolved
    ensures { result ≡ plain form }
{
    Resolved {
        form,
        declaration: None,
        mark: None,
        position: 0,
    }
}

/// A tree of a word, or of what isn't there.
fn leaf(out: &mut Store<Resolved>, form: Form, place: Place, next: u32) -> Result<u32, AllocError>
    requires { next ≤ length out.old }
    ensures holds { IfOk result (λ made. Holds out.new made (leaf form place (at out.old next))) }
    ensures extends { Extends out.old out.new }
{
    out.add(plain(form), &[], place, 0, next)
}

/// The node as it is, with its rewritten parts.
fn kept(
    out: &mut Store<Resolved>,
    node: &Opened<'_, Resolved>,
    parts: u32,
    next: u32,
) -> Result<u32, AllocError>
    requires parts_in { parts ≤ length out.old }
    requires next_in { next ≤ length out.old }
    ensures holds { IfOk result (λ made. Holds out.new made
        (more node.now.form node.now.text.now node.now.place (at out.old parts) (at out.old next))) }
    ensures extends { Extends out.old out.new }
{
    out.add(node.form, node.text, node.place, parts, next)
}

/// The list of names, which is that many parts behind the first one.
fn list_at(out: &Store<Resolved>, count: u32, parts: u32) -> u32
    requires { parts ≤ length out.now }
    ensures within { result ≤ length out.now }
    ensures list { at out.now result ≡ list_in count (at out.now parts) }
{
    if count == 0 {
        return parts;
    }
    match out.head(parts) {
        Some(head) => head.next,
        None => 0,
    }
}

/// The parts of the first tree.
pub(crate) fn parts_at(out: &Store<Resolved>, number: u32) -> u32
    requires { number ≤ length out.now }
    ensures within { result ≤ length out.now }
    ensures parts { at out.now result ≡ parts_of (at out.now number) }
{
    match out.head(number) {
        Some(head) => head.parts,
        None => 0,
    }
}

/// The list with one name, and what stands behind it.
fn list_with(out: &mut Store<Resolved>, name: u32, list: u32) -> Result<u32, AllocError>
    requires name_in { name ≤ length out.old }
    requires list_in { list ≤ length out.old }
    ensures holds { IfOk result (λ made. Holds out.new made (list_of (at out.old name) (at out.old list))) }
    ensures extends { Extends out.old out.new }
{
    let Some(head) = out.head(list) else {
        return Ok(0);
    };
    let (form, place, next) = (head.form, head.place, head.next);
    out.add(form, &[], place, name, next)
}

/// The parts of a declaration with another list of names.
fn parts_with(
    out: &mut Store<Resolved>,
    count: u32,
    parts: u32,
    list: u32,
) -> Result<u32, AllocError>
    requires parts_in { parts ≤ length out.old }
    requires list_in { list ≤ length out.old }
    ensures holds { IfOk result (λ made. Holds out.new made (parts_with count (at out.old parts) (at out.old list))) }
    ensures extends { Extends out.old out.new }
{
    if count == 0 {
        return Ok(list);
    }
    out.relink(parts, list)
}

/// A declaration of the first of some names.
#[tactic(auto, using(vd_forest::proofs::StoreLemmas::growing))]
fn one(
    out: &mut Store<Resolved>,
    node: &Opened<'_, Resolved>,
    count: u32,
    parts: u32,
    name: u32,
    next: u32,
) -> Result<u32, AllocError>
    requires parts_in { parts ≤ length out.old }
    requires name_in { name ≤ length out.old }
    requires next_in { next ≤ length out.old }
    ensures holds { IfOk result (λ made. Holds out.new made
        (one_of node.now.form node.now.text.now node.now.place count (at out.old parts) (at out.old name) (at out.old next))) }
    ensures extends { Extends out.old out.new }
{
    let name = out.relink(name, 0)?;
    let list = list_at(out, count, parts);
    let names = list_with(out, name, list)?;
    let own = parts_with(out, count, parts, names)?;
    let made = out.add(node.form, node.text, node.place, own, next)?;
    Ok(made)
}

/// A declaration for each name of a list.
#[tactic(auto, using(crate::proofs::WordLemmas::naming))]
fn each(
    out: &mut Store<Resolved>,
    node: &Opened<'_, Resolved>,
    count: u32,
    parts: u32,
    next: u32,
) -> Result<u32, AllocError>
    requires parts_in { parts ≤ length out.old }
    requires next_in { next ≤ length out.old }
    ensures holds { IfOk result (λ made. Holds out.new made
        (each_of node.now.form node.now.text.now node.now.place count (at out.old parts) (at out.old next))) }
    ensures extends { Extends out.old out.new }
{
    let names = parts_at(out, list_at(out, count, parts));
    let mut left = out.turn(names, 0)?;
    let mut made = next;
    while left > 0 {
        let behind = out.node(left).next;
        made = one(out, node, count, parts, left, made)?;
        left = behind;
    }
    Ok(made)
}

impl<'a> Words<'a> {
    /// The name of a declaration.
    fn name(&self, number: DeclId) -> &'a [u8]
        ensures { result.now ≡ name_of self.now.declarations.now number }
    {
        match self.declarations.get(number.number() as usize) {
            Some(declaration) => declaration.name.as_slice(),
            None => &[],
        }
    }

    /// The name of the unit that ends here.
    fn named(
        &self,
        out: &mut Store<Resolved>,
        unit: Option<DeclId>,
        node: &Opened<'_, Resolved>,
        parts: u32,
        next: u32,
    ) -> Result<u32, AllocError>
        requires parts_in { parts ≤ length out.old }
        requires next_in { next ≤ length out.old }
        ensures holds { IfOk result (λ made. Holds out.new made
            (named self.now.declarations.now unit node.now.form node.now.text.now node.now.place (at out.old parts) (at out.old next))) }
        ensures extends { Extends out.old out.new }
    {
        match unit {
            Some(number) => {
                let name = self.name(number);
                out.add(plain(Form::Identifier), name, node.place, 0, next)
            }
            None => kept(out, node, parts, next),
        }
    }

    /// What a tree becomes with which this is done.
    fn changed(
        &self,
        out: &mut Store<Resolved>,
        change: Change,
        unit: Option<DeclId>,
        node: &Opened<'_, Resolved>,
        parts: u32,
        next: u32,
    ) -> Result<u32, AllocError>
        requires parts_in { parts ≤ length out.old }
        requires next_in { next ≤ length out.old }
        ensures holds { IfOk result (λ made. Holds out.new made
            (changed self.now.declarations.now change unit node.now.form node.now.text.now node.now.place (at out.old parts) (at out.old next))) }
        ensures extends { Extends out.old out.new }
    {
        match change {
            Change::Kept => kept(out, node, parts, next),
            Change::Left => leaf(out, Form::Absent, node.place, next),
            Change::Given(form) => {
                if matches!(node.form.form, Form::Absent) {
                    leaf(out, form, node.place, next)
                } else {
                    kept(out, node, parts, next)
                }
            }
            Change::Named => self.named(out, unit, node, parts, next),
            Change::Each(count) => each(out, node, count, parts, next),
        }
    }
}

/// The unit that ends among the parts of a node: that of its first part, or else the node itself.
fn unit_down(slot: Slot, node: &Resolved) -> Option<DeclId>
    ensures { result ≡ unit_down slot node.now }
{
    match node.form {
        Form::Closing => slot.unit,
        form if is_unit(form) => node.declaration,
        _ => None,
    }
}

/// The same behind a part of a node.
fn unit_along(slot: Slot, node: &Resolved) -> Option<DeclId>
    ensures { result ≡ unit_along slot node.now }
{
    match slot.round {
        Some(round) if slot.at == 0 && is_unit(round) => node.declaration.or(slot.unit),
        _ => slot.unit,
    }
}

impl<'a> Inheriting<Resolved, Resolved, Slot> for Words<'a> {
    ghost use Rattle.vd_statements.specs.Words.{words};

    ghost rules = { λ by. words by.declarations.now };

    fn down(&mut self, slot: Slot, node: &Opened<'_, Resolved>) -> Result<Slot, AllocError> {
        Ok(Slot {
            round: Some(node.form.form),
            at: 0,
            unit: unit_down(slot, &node.form),
        })
    }

    fn along(&mut self, slot: Slot, node: &Opened<'_, Resolved>) -> Result<Slot, AllocError> {
        Ok(Slot {
            round: slot.round,
            at: slot.at.saturating_add(1),
            unit: unit_along(slot, &node.form),
        })
    }

    fn make(
        &mut self,
        out: &mut Store<Resolved>,
        slot: Slot,
        node: &Opened<'_, Resolved>,
        parts: u32,
        next: u32,
    ) -> Result<u32, AllocError> {
        let change = change_for(slot.round, slot.at, node.form.form);
        let unit = slot.unit;
        self.changed(out, change, unit, node, parts, next)
    }
}
