//! Of which flavour an expression is by itself.

ghost use Rattle.std.specs.Prelude.{◌≡◌};
ghost use Rattle.vd_vector_conversions.specs.Naturals.{bracketed_flavour, bracketed_step, called_flavour, choice_flavour, first_declaration, flavour_of, flavoured, is_nothing, is_one_value, last_tree, name_flavour, natural, operand_flavour, own_step, part_flavour, start, stepped};

use crate::facts::{Facts, element_flavour, flavour_at, twin_at};
use crate::flavours::{Flavour, is_vector, or_else, same_number};
use crate::numbers::{number_marked, number_named};
use crate::sorts::{Sort, sort_of};
use std::alloc::AllocError;
use vd_forest::{Cursor, Opened, Store};
use vd_resolved::Resolved;
use vd_rewriting::Rewriting;

/// A node of a resolved tree. Of an expression: which flavour it has by itself, where it isn't one of both; of an element with what it stands for, that of
/// the declaration that it names.
#[derive(Clone, Copy, Debug)]
pub struct Flavoured {
    pub node: Resolved,
    pub flavour: Option<Flavour>,
}

/// What a name stands for up to one of its pieces: its type, and its flavour.
#[derive(Clone, Copy, Debug)]
pub struct Upto {
    pub mark: Option<u32>,
    pub flavour: Option<Flavour>,
}

/// Nothing yet.
pub fn start() -> Upto
    ensures { result ≡ start }
{
    Upto {
        mark: None,
        flavour: None,
    }
}

/// The flavour of the first tree.
pub fn flavour_of(trees: &Cursor<'_, Flavoured>) -> Option<Flavour>
    ensures { result ≡ flavour_of trees.now }
{
    let first = trees.open()?;
    first.form.flavour
}

/// The declaration at the first tree's node.
pub fn first_declaration(trees: &Cursor<'_, Flavoured>) -> Option<u32>
    ensures { result ≡ first_declaration trees.now }
{
    let first = trees.open()?;
    number_named(&first.form.node.declaration)
}

/// Whether there is no tree.
fn is_nothing(trees: &Cursor<'_, Flavoured>) -> bool
    ensures { result ≡ is_nothing trees.now }
{
    match trees.open() {
        None => true,
        Some(_) => false,
    }
}

/// The last tree.
pub fn last_tree<'a>(trees: &Cursor<'a, Flavoured>) -> Cursor<'a, Flavoured>
    ensures { result ≡ last_tree trees.now }
{
    let mut rest = trees.fork();
    while let Some(first) = rest.open() {
        if first.next.form().is_none() {
            return rest;
        }
        rest = first.next;
    }
    rest
}

/// The flavour of the first operand that has one.
pub fn operand_flavour(operands: &Cursor<'_, Flavoured>) -> Option<Flavour>
    ensures { result ≡ operand_flavour operands.now }
{
    or_else(flavour_of(operands), flavour_of(&operands.next()))
}

/// Whether there is one tree, and it is a value and no element with what it stands for.
pub fn is_one_value(trees: &Cursor<'_, Flavoured>) -> bool
    ensures { result ≡ is_one_value trees.now }
{
    let Some(first) = trees.open() else {
        return false;
    };
    match sort_of(first.form.node.form) {
        Sort::Element | Sort::Others => false,
        _ => is_nothing(&first.next),
    }
}

/// The flavour of one expression in brackets.
fn bracketed_flavour(trees: &Cursor<'_, Flavoured>) -> Option<Flavour>
    ensures { result ≡ bracketed_flavour trees.now }
{
    if is_one_value(trees) {
        flavour_of(trees)
    } else {
        None
    }
}

/// The flavour of what a call gives: an operator on both flavours gives that of its operands.
fn called_flavour(
    facts: &Facts,
    node: &Resolved,
    operands: &Cursor<'_, Flavoured>,
) -> Option<Flavour>
    ensures { result ≡ called_flavour facts.now node.now operands.now }
{
    match twin_at(facts, number_named(&node.declaration)) {
        None => flavour_at(facts, number_named(&node.declaration)),
        Some(_) => {
            if is_vector(number_marked(&node.mark)) {
                operand_flavour(operands)
            } else {
                None
            }
        }
    }
}

/// The flavour of what the first choice names.
fn choice_flavour(facts: &Facts, parts: &Cursor<'_, Flavoured>) -> Option<Flavour>
    ensures { result ≡ choice_flavour facts.now parts.now }
{
    flavour_at(facts, first_declaration(&parts.parts()))
}

/// What a piece stands for by itself.
fn own_step(node: &Flavoured) -> Upto
    ensures { result ≡ own_step node.now }
{
    Upto {
        mark: number_marked(&node.node.mark),
        flavour: node.flavour,
    }
}

/// The flavour of a slice, which is of the type that the name has so far, or of an element.
fn part_flavour(facts: &Facts, upto: Upto, mark: Option<u32>) -> Option<Flavour>
    ensures { result ≡ part_flavour facts.now upto mark }
{
    if same_number(mark, upto.mark) {
        upto.flavour
    } else {
        element_flavour(facts, upto.mark)
    }
}

/// A list in brackets behind a name: a call or a conversion, a slice, or an element.
fn bracketed_step(facts: &Facts, upto: Upto, node: &Flavoured) -> Upto
    ensures { result ≡ bracketed_step facts.now upto node.now }
{
    match number_named(&node.node.declaration) {
        Some(_) => own_step(node),
        None => Upto {
            mark: number_marked(&node.node.mark),
            flavour: part_flavour(facts, upto, number_marked(&node.node.mark)),
        },
    }
}

/// What a name stands for with one more piece.
pub fn stepped(facts: &Facts, upto: Upto, node: &Flavoured) -> Upto
    ensures { result ≡ stepped facts.now upto node.now }
{
    match sort_of(node.node.form) {
        Sort::Bracketed => bracketed_step(facts, upto, node),
        _ => own_step(node),
    }
}

/// The flavour of a name.
fn name_flavour(facts: &Facts, pieces: &Cursor<'_, Flavoured>) -> Option<Flavour>
    ensures { result ≡ name_flavour facts.now pieces.now }
{
    let mut upto = start();
    let mut rest = pieces.fork();
    while let Some(piece) = rest.open() {
        upto = stepped(facts, upto, &piece.form);
        rest = piece.next;
    }
    upto.flavour
}

/// The flavour of a node.
fn natural(facts: &Facts, node: &Resolved, parts: &Cursor<'_, Flavoured>) -> Option<Flavour>
    ensures { result ≡ natural facts.now node.now parts.now }
{
    match sort_of(node.form) {
        Sort::Whole => name_flavour(facts, parts),
        Sort::Named | Sort::Qualified => flavour_at(facts, number_named(&node.declaration)),
        Sort::Bracketed | Sort::Operator => called_flavour(facts, node, parts),
        Sort::Aggregated => bracketed_flavour(parts),
        Sort::Indicated => flavour_of(parts),
        Sort::Element => choice_flavour(facts, parts),
        Sort::Like(place) => flavour_of(&parts.skip(place)),
        _ => None,
    }
}

/// Gives each node its flavour.
#[derive(Drop)]
pub struct Flavouring<'k> {
    pub facts: &'k Facts,
}

impl Rewriting<Resolved, Flavoured> for Flavouring<'_> {
    ghost pass = { λ a. flavoured a.facts.now };

    fn make(
        &mut self,
        out: &mut Store<Flavoured>,
        node: &Opened<'_, Resolved>,
        parts: u32,
        next: u32,
    ) -> Result<u32, AllocError> {
        let flavour = natural(self.facts, &node.form, &out.cursor(parts));
        let made = Flavoured {
            node: node.form,
            flavour,
        };
        out.add(made, node.text, node.place, parts, next)
    }
}
