//! The tree in which the two vector types meet in conversions alone.

ghost use Rattle.std.specs.Prelude.{◌≡◌, ◌≤◌, IfOk, length};
ghost use Rattle.vd_forest.specs.Store.{at, Holds, Extends};
ghost use Rattle.vd_vector_conversions.specs.Conversions.{bare_actual, brackets, conversion, converting, formal_converted, formal_made, formal_plain, head_declaration, node_flavour, node_made, object_name, object_mark, operator_declaration, retagged, tagged_declaration, wrapping, last_parts};

use crate::facts::{Facts, declared_mark, declared_name, flavour_numbered, twin_at};
use crate::flavours::{
    Flavour, differing, is_vector, or_else, or_flavour, retyped, same_number, type_name,
    type_number,
};
use crate::inside::{Inside, Want};
use crate::naturals::{Flavoured, stepped};
use crate::numbers::{declaration_numbered, mark_numbered, number_marked, number_named};
use crate::ports::formal_in;
use crate::sorts::{Sort, sort_of};
use crate::wants::{along, down, operands_flavour, wanted};
use std::alloc::AllocError;
use vd_bytes::Place;
use vd_forest::{Cursor, Opened, Store};
use vd_forms::Form;
use vd_resolved::Resolved;
use vd_rewriting::Inheriting;

/// The brackets of a conversion, round what is converted.
fn brackets(
    out: &mut Store<Resolved>,
    to: Flavour,
    place: Place,
    operand: u32,
) -> Result<u32, AllocError>
    requires { operand ≤ length out.old }
    ensures holds { IfOk result (λ made. Holds out.new made (brackets to place (at out.old operand))) }
    ensures extends { Extends out.old out.new }
{
    let node = Resolved {
        form: Form::Arguments,
        declaration: declaration_numbered(Some(type_number(to))),
        mark: mark_numbered(Some(type_number(to))),
        position: 0,
    };
    out.add(node, &[], place, operand, 0)
}

/// The name of a type, in front of further pieces.
fn mark_word(
    out: &mut Store<Resolved>,
    to: Flavour,
    place: Place,
    next: u32,
) -> Result<u32, AllocError>
    requires { next ≤ length out.old }
    ensures holds { IfOk result (λ made. Holds out.new made
        (Rattle.vd_vector_conversions.specs.Conversions.mark_word to place (at out.old next))) }
    ensures extends { Extends out.old out.new }
{
    let node = Resolved {
        form: Form::Identifier,
        declaration: declaration_numbered(Some(type_number(to))),
        mark: None,
        position: 0,
    };
    out.add(node, type_name(to).as_bytes(), place, 0, next)
}

/// A conversion to one of the two types.
#[tactic(auto, using(vd_notes::proofs::MakerLemmas::made_call, vd_forest::proofs::StoreLemmas::growing))]
fn conversion(
    out: &mut Store<Resolved>,
    to: Flavour,
    place: Place,
    operand: u32,
    next: u32,
) -> Result<u32, AllocError>
    requires operand_in { operand ≤ length out.old }
    requires next_in { next ≤ length out.old }
    ensures holds { IfOk result (λ made. Holds out.new made (conversion to place (at out.old operand) (at out.old next))) }
    ensures extends { Extends out.old out.new }
{
    let around = brackets(out, to, place, operand)?;
    let parts = mark_word(out, to, place, around)?;
    let node = Resolved {
        form: Form::Name,
        declaration: None,
        mark: mark_numbered(Some(type_number(to))),
        position: 0,
    };
    out.add(node, &[], place, parts, next)
}

/// The type of a port.
fn object_mark(facts: &Facts, port: u32) -> Option<u32>
    ensures { result ≡ object_mark facts.now port }
{
    match flavour_numbered(facts, port) {
        Some(flavour) => Some(type_number(flavour)),
        None => declared_mark(facts, port),
    }
}

/// The name of a port, as an expression.
#[tactic(auto, using(vd_notes::proofs::MakerLemmas::made_with_parts, vd_forest::proofs::StoreLemmas::growing))]
fn object_name(
    facts: &Facts,
    out: &mut Store<Resolved>,
    port: u32,
    place: Place,
) -> Result<u32, AllocError>
    ensures holds { IfOk result (λ made. Holds out.new made (object_name facts.now port place)) }
    ensures extends { Extends out.old out.new }
{
    let mark = object_mark(facts, port);
    let word = Resolved {
        form: Form::Identifier,
        declaration: declaration_numbered(Some(port)),
        mark: mark_numbered(mark),
        position: 0,
    };
    let text = declared_name(facts, port);
    let parts = out.add(word, text, place, 0, 0)?;
    let node = Resolved {
        form: Form::Name,
        declaration: None,
        mark: mark_numbered(mark),
        position: 0,
    };
    out.add(node, &[], place, parts, 0)
}

/// A formal without a conversion.
#[tactic(auto, using(vd_notes::proofs::MakerLemmas::made_with_parts, vd_forest::proofs::StoreLemmas::growing))]
fn formal_plain(
    facts: &Facts,
    out: &mut Store<Resolved>,
    port: u32,
    place: Place,
    next: u32,
) -> Result<u32, AllocError>
    requires { next ≤ length out.old }
    ensures holds { IfOk result (λ made. Holds out.new made (formal_plain facts.now port place (at out.old next))) }
    ensures extends { Extends out.old out.new }
{
    let word = Resolved {
        form: Form::Identifier,
        declaration: None,
        mark: None,
        position: 0,
    };
    let text = declared_name(facts, port);
    let parts = out.add(word, text, place, 0, 0)?;
    let node = Resolved {
        form: Form::Name,
        declaration: declaration_numbered(Some(port)),
        mark: None,
        position: 0,
    };
    out.add(node, &[], place, parts, next)
}

/// A formal in a conversion.
#[tactic(auto, using(vd_forest::proofs::StoreLemmas::growing))]
fn formal_converted(
    facts: &Facts,
    out: &mut Store<Resolved>,
    to: Flavour,
    port: u32,
    place: Place,
    next: u32,
) -> Result<u32, AllocError>
    requires { next ≤ length out.old }
    ensures holds { IfOk result (λ made. Holds out.new made (formal_converted facts.now to port place (at out.old next))) }
    ensures extends { Extends out.old out.new }
{
    let name = object_name(facts, out, port, place)?;
    let made = conversion(out, to, place, name, next)?;
    Ok(made)
}

/// A formal, in a conversion or without one.
fn formal_made(
    facts: &Facts,
    out: &mut Store<Resolved>,
    to: Option<Flavour>,
    node: &Opened<'_, Flavoured>,
    parts: u32,
    next: u32,
) -> Result<u32, AllocError>
    requires parts_in { parts ≤ length out.old }
    requires next_in { next ≤ length out.old }
    ensures holds { IfOk result (λ made. Holds out.new made
        (formal_made facts.now to node.now.form node.now.text.now node.now.place node.now.parts (at out.old parts) (at out.old next))) }
    ensures extends { Extends out.old out.new }
{
    let named = number_named(&node.form.node.declaration);
    let Some(port) = formal_in(named, &node.parts) else {
        return out.add(node.form.node, node.text, node.place, parts, next);
    };
    match to {
        Some(to) => formal_converted(facts, out, to, port, node.place, next),
        None => formal_plain(facts, out, port, node.place, next),
    }
}

/// The parts of the last tree.
fn last_parts(out: &Store<Resolved>, trees: u32) -> u32
    requires { trees ≤ length out.now }
    ensures within { result ≤ length out.now }
    ensures is { at out.now result ≡ last_parts (at out.now trees) }
{
    let mut number = trees;
    while let Some(tree) = out.head(number) {
        match out.head(tree.next) {
            None => return tree.parts,
            Some(_) => number = tree.next,
        }
    }
    0
}

/// An actual without the conversion that it has, or with another one.
fn bare_actual(
    out: &mut Store<Resolved>,
    to: Option<Flavour>,
    place: Place,
    parts: u32,
    next: u32,
) -> Result<u32, AllocError>
    requires parts_in { parts ≤ length out.old }
    requires next_in { next ≤ length out.old }
    ensures holds { IfOk result (λ made. Holds out.new made (bare_actual to place (at out.old parts) (at out.old next))) }
    ensures extends { Extends out.old out.new }
{
    let operand = last_parts(out, parts);
    match to {
        Some(to) => conversion(out, to, place, operand, next),
        None => out.relink(operand, next),
    }
}

/// The flavour of a vector where it stands.
fn node_flavour(facts: &Facts, want: Want, node: &Flavoured) -> Flavour
    ensures { result ≡ node_flavour facts.now want node.now }
{
    match want {
        Want::Piece { upto, whole } => {
            let stands = stepped(facts, upto, node).flavour;
            or_flavour(or_else(stands, whole), Flavour::Ulogic)
        }
        _ => or_flavour(or_else(node.flavour, wanted(facts, want)), Flavour::Ulogic),
    }
}

/// The flavour of brackets, or of what has none.
fn brackets_flavour(facts: &Facts, want: Want, node: &Flavoured) -> Flavour
    ensures { result ≡ Rattle.vd_vector_conversions.specs.Conversions.brackets_flavour facts.now want node.now }
{
    or_flavour(or_else(wanted(facts, want), node.flavour), Flavour::Ulogic)
}

/// The type of a node where it stands.
fn tagged_mark(facts: &Facts, want: Want, node: &Flavoured) -> Option<u32>
    ensures { result ≡ Rattle.vd_vector_conversions.specs.Conversions.tagged_mark facts.now want node.now }
{
    match sort_of(node.node.form) {
        Sort::Aggregated => retyped(
            number_marked(&node.node.mark),
            brackets_flavour(facts, want, node),
        ),
        _ => retyped(
            number_marked(&node.node.mark),
            node_flavour(facts, want, node),
        ),
    }
}

/// The operator that is called, by the flavour of its operands.
fn operator_declaration(
    facts: &Facts,
    want: Want,
    node: &Resolved,
    operands: &Cursor<'_, Flavoured>,
) -> Option<u32>
    ensures { result ≡ operator_declaration facts.now want node.now operands.now }
{
    match twin_at(facts, number_named(&node.declaration)) {
        None => number_named(&node.declaration),
        Some(twin) => match operands_flavour(facts, want, node, operands) {
            Flavour::Logic => Some(twin),
            Flavour::Ulogic => number_named(&node.declaration),
        },
    }
}

/// What a piece of a name names. In front of brackets that call an operator it is that operator.
fn head_declaration(facts: &Facts, named: Option<u32>, behind: Option<u32>) -> Option<u32>
    ensures { result ≡ head_declaration facts.now named behind }
{
    let twin = twin_at(facts, named);
    if same_number(twin, behind) {
        twin
    } else {
        named
    }
}

/// The declaration at the first tree's node.
fn declaration_at(out: &Store<Resolved>, trees: u32) -> Option<u32>
    requires { trees ≤ length out.now }
    ensures { result ≡ Rattle.vd_vector_conversions.specs.Conversions.first_named (at out.now trees) }
{
    match out.head(trees) {
        Some(first) => number_named(&first.form.declaration),
        None => None,
    }
}

/// What a node names where it stands.
fn tagged_declaration(
    facts: &Facts,
    want: Want,
    node: &Resolved,
    parts: &Cursor<'_, Flavoured>,
    behind: Option<u32>,
) -> Option<u32>
    ensures { result ≡ tagged_declaration facts.now want node.now parts.now behind }
{
    match sort_of(node.form) {
        Sort::Operator | Sort::Bracketed => operator_declaration(facts, want, node, parts),
        Sort::Named => head_declaration(facts, number_named(&node.declaration), behind),
        _ => number_named(&node.declaration),
    }
}

/// A node with its type and what it names where it stands.
fn retagged(
    facts: &Facts,
    want: Want,
    node: &Flavoured,
    parts: &Cursor<'_, Flavoured>,
    behind: Option<u32>,
) -> Resolved
    ensures { result ≡ retagged facts.now want node.now parts.now behind }
{
    Resolved {
        form: node.node.form,
        declaration: declaration_numbered(tagged_declaration(
            facts, want, &node.node, parts, behind,
        )),
        mark: mark_numbered(tagged_mark(facts, want, node)),
        position: node.node.position,
    }
}

/// The flavour to which a node is converted, where it is. What stands in brackets is converted there.
fn wrapping(facts: &Facts, want: Want, node: &Flavoured) -> Option<Flavour>
    ensures { result ≡ wrapping facts.now want node.now }
{
    if !is_vector(number_marked(&node.node.mark)) {
        return None;
    }
    match sort_of(node.node.form) {
        Sort::Aggregated => None,
        _ => differing(node.flavour, wanted(facts, want)),
    }
}

/// Makes a node, in a conversion where its place wants the other flavour.
#[tactic(auto, using(vd_forest::proofs::StoreLemmas::growing))]
fn node_made(
    facts: &Facts,
    out: &mut Store<Resolved>,
    want: Want,
    node: &Opened<'_, Flavoured>,
    parts: u32,
    next: u32,
) -> Result<u32, AllocError>
    requires parts_in { parts ≤ length out.old }
    requires next_in { next ≤ length out.old }
    ensures holds { IfOk result (λ made. Holds out.new made
        (node_made facts.now want node.now.form node.now.text.now node.now.place node.now.parts (at out.old parts) (at out.old next))) }
    ensures extends { Extends out.old out.new }
{
    let behind = declaration_at(out, next);
    let here = retagged(facts, want, &node.form, &node.parts, behind);
    match wrapping(facts, want, &node.form) {
        Some(to) => {
            let bare = out.add(here, node.text, node.place, parts, 0)?;
            let made = conversion(out, to, node.place, bare, next)?;
            Ok(made)
        }
        None => out.add(here, node.text, node.place, parts, next),
    }
}

/// Puts conversions where the two vector types meet.
#[derive(Drop)]
pub struct Converting<'k> {
    pub facts: &'k Facts,
}

impl Inheriting<Flavoured, Resolved, Inside> for Converting<'_> {
    ghost rules = { λ a. converting a.facts.now };

    fn down(&mut self, state: Inside, node: &Opened<'_, Flavoured>) -> Result<Inside, AllocError> {
        Ok(down(self.facts, state, &node.form, &node.parts))
    }

    fn along(&mut self, state: Inside, node: &Opened<'_, Flavoured>) -> Result<Inside, AllocError> {
        Ok(along(self.facts, state, &node.form))
    }

    fn make(
        &mut self,
        out: &mut Store<Resolved>,
        state: Inside,
        node: &Opened<'_, Flavoured>,
        parts: u32,
        next: u32,
    ) -> Result<u32, AllocError> {
        match state.want {
            Want::Formal(to) => formal_made(self.facts, out, to, node, parts, next),
            Want::Bare(to) => bare_actual(out, to, node.place, parts, next),
            want => node_made(self.facts, out, want, node, parts, next),
        }
    }
}
