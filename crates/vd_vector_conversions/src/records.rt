//! Aggregates of records, in which one element that stands for vectors of both flavours becomes an element for each of them.

ghost use Rattle.std.specs.Prelude.{◌≡◌, ◌≤◌, IfOk, length};
ghost use Rattle.vd_forest.specs.Store.{at, Extends};

use crate::facts::{Facts, declared_name, flavour_at};
use crate::flavours::is_vector;
use crate::marks::{Among, among_elements, among_with};
use crate::numbers::{number_marked, number_named};
use std::alloc::{AllocError, Global};
use vd_bytes::Place;
use vd_declarations::{Class, DeclId};
use vd_forest::{Cursor, Opened, Store};
use vd_forms::Form;
use vd_resolved::Resolved;
use vd_tours::{Entry, Touring, tour};

/// A node that is neither a name nor of a type.
fn plain(form: Form) -> Resolved {
    Resolved {
        form,
        declaration: None,
        mark: None,
        position: 0,
    }
}

/// Whether what some choices name is of both flavours.
fn are_mixed(facts: &Facts, choices: &Cursor<'_, Resolved>) -> bool {
    let mut among = Among::NoVectors;
    let mut rest = choices.fork();
    while let Some(choice) = rest.open() {
        among = among_with(
            among,
            flavour_at(facts, number_named(&choice.form.declaration)),
        );
        rest = choice.next;
    }
    matches!(among, Among::Both)
}

/// Puts an element in front of others, which stands for one choice, in front of its value.
#[tactic(auto, using(vd_forest::proofs::StoreLemmas::growing))]
fn element_of(
    out: &mut Store<Resolved>,
    choice: u32,
    value: u32,
    place: Place,
    next: u32,
) -> Result<u32, AllocError>
    requires choice_in { choice ≤ length out.old }
    requires value_in { value ≤ length out.old }
    requires next_in { next ≤ length out.old }
    ensures within { IfOk result (λ made. made ≤ length out.new) }
    ensures extends { Extends out.old out.new }
{
    let parts = out.add(plain(Form::AssociationChoices), &[], place, choice, value)?;
    let made = out.add(plain(Form::Association), &[], place, parts, next)?;
    Ok(made)
}

/// An element for each of some choices, which all have one value.
#[tactic(auto, using(vd_forest::proofs::StoreLemmas::growing))]
fn each_choice(
    out: &mut Store<Resolved>,
    choices: u32,
    value: u32,
    place: Place,
) -> Result<u32, AllocError>
    requires choices_in { choices ≤ length out.old }
    requires value_in { value ≤ length out.old }
    ensures within { IfOk result (λ made. made ≤ length out.new) }
    ensures extends { Extends out.old out.new }
{
    let mut left = choices;
    let mut made = 0;
    while left > 0 {
        let next = out.after(left);
        let choice = out.relink(left, 0)?;
        made = element_of(out, choice, value, place, made)?;
        left = next;
    }
    let turned = out.turn(made, 0)?;
    Ok(turned)
}

/// An element whose choices are of both flavours, as an element for each of them.
#[tactic(auto, using(vd_forest::proofs::StoreLemmas::growing))]
fn choices_apart(out: &mut Store<Resolved>, parts: u32, place: Place) -> Result<u32, AllocError>
    requires { parts ≤ length out.old }
    ensures within { IfOk result (λ made. made ≤ length out.new) }
    ensures extends { Extends out.old out.new }
{
    let (choices, value) = match out.head(parts) {
        Some(head) => (head.parts, head.next),
        None => (0, 0),
    };
    each_choice(out, choices, value, place)
}

/// Notes the elements of a record type that some choices name.
fn note_choices(covered: &mut [bool], choices: &Cursor<'_, Resolved>) {
    let mut rest = choices.fork();
    while let Some(choice) = rest.open() {
        let position = choice.form.position as usize;
        if position < covered.len() {
            covered[position] = true;
        }
        rest = choice.next;
    }
}

/// Notes the elements of a record type for which the elements of an aggregate stand by position or name.
fn note_covered(covered: &mut [bool], elements: &Cursor<'_, Resolved>) {
    let mut rest = elements.fork();
    let mut index = 0;
    while let Some(element) = rest.open() {
        match element.form.form {
            Form::Association => note_choices(covered, &element.parts.parts()),
            Form::OthersAssociation => {}
            _ => {
                if index < covered.len() {
                    covered[index] = true;
                    index += 1;
                }
            }
        }
        rest = element.next;
    }
}

/// Puts an element for a field in front of others.
#[tactic(auto, using(vd_forest::proofs::StoreLemmas::growing))]
fn add_field(
    facts: &Facts,
    out: &mut Store<Resolved>,
    field: DeclId,
    position: u32,
    value: u32,
    place: Place,
    next: u32,
) -> Result<u32, AllocError>
    requires value_in { value ≤ length out.old }
    requires next_in { next ≤ length out.old }
    ensures within { IfOk result (λ made. made ≤ length out.new) }
    ensures extends { Extends out.old out.new }
{
    let text = declared_name(facts, field.number());
    let word = out.add(plain(Form::Identifier), text, place, 0, 0)?;
    let name = Resolved {
        form: Form::Name,
        declaration: Some(field),
        mark: None,
        position,
    };
    let choice = out.add(name, &[], place, word, 0)?;
    element_of(out, choice, value, place, next)
}

/// Puts an element in front of others for each field that isn't covered, the last one first.
#[tactic(auto, using(vd_forest::proofs::StoreLemmas::growing))]
fn add_fields(
    facts: &Facts,
    out: &mut Store<Resolved>,
    fields: &[DeclId],
    covered: &[bool],
    value: u32,
    place: Place,
    rest: u32,
) -> Result<u32, AllocError>
    requires value_in { value ≤ length out.old }
    requires rest_in { rest ≤ length out.old }
    ensures within { IfOk result (λ made. made ≤ length out.new) }
    ensures extends { Extends out.old out.new }
{
    let mut made = rest;
    let mut position: u32 = 0;
    for (field, is_covered) in fields.iter().zip(covered.iter()) {
        if !*is_covered {
            made = add_field(facts, out, *field, position, value, place, made)?;
        }
        position = position.saturating_add(1);
    }
    Ok(made)
}

/// The elements of an aggregate, whose last one stands for all others, with one for each of these in its place.
#[tactic(auto, using(vd_forest::proofs::StoreLemmas::growing))]
fn others_apart(
    facts: &Facts,
    out: &mut Store<Resolved>,
    fields: &[DeclId],
    covered: &[bool],
    elements: u32,
    place: Place,
) -> Result<u32, AllocError>
    requires { elements ≤ length out.old }
    ensures within { IfOk result (λ made. made ≤ length out.new) }
    ensures extends { Extends out.old out.new }
{
    let turned = out.turn(elements, 0)?;
    let (value, rest) = match out.head(turned) {
        Some(head) => (head.parts, head.next),
        None => (0, 0),
    };
    let made = add_fields(facts, out, fields, covered, value, place, rest)?;
    let all = out.turn(made, 0)?;
    Ok(all)
}

/// The elements of a record type.
fn fields_of<'k>(facts: &'k Facts, node: &Resolved) -> &'k [DeclId] {
    let Some(of) = node.mark else {
        return &[];
    };
    match facts.declared.get(of.number() as usize) {
        Some(one) => match one.class {
            Class::RecordType => one.parameters.as_slice(),
            _ => &[],
        },
        None => &[],
    }
}

/// Whether the last element of an aggregate stands for all others, and they are vectors.
fn ends_with_vectors(elements: &Cursor<'_, Resolved>) -> bool {
    let mut rest = elements.fork();
    while let Some(element) = rest.open() {
        if element.form.form == Form::OthersAssociation {
            return match element.parts.form() {
                Some(value) => is_vector(number_marked(&value.mark)),
                None => false,
            };
        }
        rest = element.next;
    }
    false
}

/// The parts of an aggregate, in which no element stands for others that are vectors of both flavours.
#[tactic(auto, using(vd_forest::proofs::StoreLemmas::growing))]
fn elements_apart(
    alloc: Global,
    facts: &Facts,
    out: &mut Store<Resolved>,
    node: &Opened<'_, Resolved>,
    parts: u32,
) -> Result<u32, AllocError>
    requires { parts ≤ length out.old }
    ensures within { IfOk result (λ made. made ≤ length out.new) }
    ensures extends { Extends out.old out.new }
{
    if !ends_with_vectors(&node.parts) {
        return Ok(parts);
    }
    let fields = fields_of(facts, &node.form);
    if !matches!(among_elements(&facts.flavours, fields), Among::Both) {
        return Ok(parts);
    }
    let mut covered: Vec<bool> = vec![in alloc; false; fields.len()]?;
    note_covered(&mut covered, &node.parts);
    others_apart(facts, out, fields, &covered, parts, node.place)
}

/// The walk.
#[derive(Drop)]
struct Spreading<'k> {
    facts: &'k Facts,
}

impl<'a> Touring<'a, Resolved, Resolved> for Spreading<'_> {
    ghost knows = { λ _ _ _. Unit {0} };

    ghost Frame = { Unit {0} };

    ghost frame = { λ _. tt };

    ghost replaces = { λ _ _ _ _. Unit {0} };

    ghost becomes = { λ _ _ _ _ _. Unit {0} };

    fn enter(
        &mut self,
        _alloc: Global,
        _out: &mut Store<Resolved>,
        _node: &Opened<'a, Resolved>,
    ) -> Result<Entry, AllocError> {
        Ok(Entry::Inside)
    }

    #[tactic(auto, using(crate::proofs::SpreadingLemmas::left_anyhow, vd_forest::proofs::StoreLemmas::growing))]
    fn leave(
        &mut self,
        alloc: Global,
        out: &mut Store<Resolved>,
        node: &Opened<'a, Resolved>,
        parts: u32,
    ) -> Result<u32, AllocError> {
        match node.form.form {
            Form::Association => {
                if are_mixed(self.facts, &node.parts.parts()) {
                    return choices_apart(out, parts, node.place);
                }
                out.add(node.form, node.text, node.place, parts, 0)
            }
            Form::Aggregate | Form::Qualification => {
                let elements = elements_apart(alloc, self.facts, out, node, parts)?;
                out.add(node.form, node.text, node.place, elements, 0)
            }
            _ => out.add(node.form, node.text, node.place, parts, 0),
        }
    }
}

/// A text, in whose aggregates no element stands for vectors of both flavours.
#[tactic(auto, using(crate::proofs::SpreadingLemmas::at_start))]
pub fn spread(
    alloc: Global,
    facts: &Facts,
    from: &Cursor<'_, Resolved>,
    out: &mut Store<Resolved>,
) -> Result<u32, AllocError>
    ensures within { IfOk result (λ made. made ≤ length out.new) }
{
    let mut spreading = Spreading { facts };
    let made = tour(alloc, from, out, &mut spreading)?;
    Ok(made)
}
