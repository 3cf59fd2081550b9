//! Which flavour the place of an expression wants.

ghost use Rattle.std.specs.Prelude.{◌≡◌};
ghost use Rattle.vd_vector_conversions.specs.Wants.{along, called_want, down, element_want, elements_want, formals_want, listed_want, operands_flavour, others_want, result_in, result_wanted, settled, settled_node, want_along, want_in, want_of, wanted, whole_wanted};

use crate::facts::{Facts, class_at, element_flavour, flavour_numbered, listed_flavour, twin_at};
use crate::flavours::{Flavour, is_vector, or_else, or_flavour};
use crate::inside::{Inside, Want};
use crate::naturals::{Flavoured, flavour_of, is_one_value, operand_flavour, start, stepped};
use crate::numbers::{number_marked, number_named};
use crate::ports::tied;
use crate::sorts::{Sort, sort_of};
use vd_declarations::Class;
use vd_forest::Cursor;
use vd_resolved::Resolved;

/// A vector of a flavour, or nothing.
pub fn want_of(flavour: Option<Flavour>) -> Want
    ensures { result ≡ want_of flavour }
{
    match flavour {
        Some(flavour) => Want::Vector(flavour),
        None => Want::Nothing,
    }
}

/// The flavour that is wanted of a node itself.
pub fn wanted(facts: &Facts, want: Want) -> Option<Flavour>
    ensures { result ≡ wanted facts.now want }
{
    match want {
        Want::Vector(flavour) => Some(flavour),
        Want::Listed { owner, index } => listed_flavour(facts, owner, index),
        Want::Chosen { values, .. } => values,
        _ => None,
    }
}

/// The flavour that is wanted of the name, of which a node is a piece.
fn whole_wanted(facts: &Facts, want: Want) -> Option<Flavour>
    ensures { result ≡ whole_wanted facts.now want }
{
    match want {
        Want::Piece { whole, .. } => whole,
        _ => wanted(facts, want),
    }
}

/// The flavour of a node whose place wants none.
fn settled_node(node: &Flavoured) -> Option<Flavour>
    ensures { result ≡ settled_node node.now }
{
    if is_vector(number_marked(&node.node.mark)) {
        Some(or_flavour(node.flavour, Flavour::Ulogic))
    } else {
        node.flavour
    }
}

/// The flavour of an expression whose place wants none.
fn settled(trees: &Cursor<'_, Flavoured>) -> Option<Flavour>
    ensures { result ≡ settled trees.now }
{
    let first = trees.open()?;
    settled_node(&first.form)
}

/// The flavour that is wanted of what an operator gives.
fn result_wanted(facts: &Facts, want: Want, mark: Option<u32>) -> Option<Flavour>
    ensures { result ≡ result_wanted facts.now want mark }
{
    if is_vector(mark) {
        whole_wanted(facts, want)
    } else {
        None
    }
}

/// The flavour of the operands of an operator on both flavours: that of the first that has one, or that of the result.
pub fn operands_flavour(
    facts: &Facts,
    want: Want,
    node: &Resolved,
    operands: &Cursor<'_, Flavoured>,
) -> Flavour
    ensures { result ≡ operands_flavour facts.now want node.now operands.now }
{
    let known = or_else(
        operand_flavour(operands),
        result_wanted(facts, want, number_marked(&node.mark)),
    );
    or_flavour(known, Flavour::Ulogic)
}

/// What is wanted of the arguments of a call. An index has none.
fn listed_want(function: Option<u32>) -> Want
    ensures { result ≡ listed_want function }
{
    match function {
        Some(owner) => Want::Listed { owner, index: 0 },
        None => Want::Nothing,
    }
}

/// What is wanted of the operands of an operator, of the arguments of a call, and of an index.
fn called_want(facts: &Facts, want: Want, node: &Resolved, operands: &Cursor<'_, Flavoured>) -> Want
    ensures { result ≡ called_want facts.now want node.now operands.now }
{
    match twin_at(facts, number_named(&node.declaration)) {
        Some(_) => Want::Vector(operands_flavour(facts, want, node, operands)),
        None => listed_want(number_named(&node.declaration)),
    }
}

/// What is wanted of the elements of an aggregate of a type.
fn elements_want(facts: &Facts, mark: Option<u32>) -> Want
    ensures { result ≡ elements_want facts.now mark }
{
    let Some(of) = mark else {
        return Want::Nothing;
    };
    match class_at(facts, of) {
        Class::ArrayType { .. } => want_of(element_flavour(facts, Some(of))),
        Class::RecordType => Want::Listed {
            owner: of,
            index: 0,
        },
        _ => Want::Nothing,
    }
}

/// What is wanted of what stands in brackets: of one expression what is wanted of the whole.
fn brackets_want(
    facts: &Facts,
    flavour: Option<Flavour>,
    node: &Resolved,
    parts: &Cursor<'_, Flavoured>,
) -> Want
    ensures { result ≡ Rattle.vd_vector_conversions.specs.Wants.brackets_want facts.now flavour node.now parts.now }
{
    if is_one_value(parts) {
        want_of(flavour)
    } else {
        elements_want(facts, number_marked(&node.mark))
    }
}

/// What is wanted of the value of an element that says what it stands for.
fn element_want(facts: &Facts, want: Want, node: &Flavoured, parts: &Cursor<'_, Flavoured>) -> Want
    ensures { result ≡ element_want facts.now want node.now parts.now }
{
    match want {
        Want::Ports => tied(facts, parts),
        Want::Vector(flavour) => Want::Vector(or_flavour(node.flavour, flavour)),
        _ => want_of(node.flavour),
    }
}

/// What is wanted of the value of an element that stands for all others.
fn others_want(facts: &Facts, want: Want) -> Want
    ensures { result ≡ others_want facts.now want }
{
    match want {
        Want::Vector(flavour) => Want::Vector(flavour),
        Want::Listed { owner, .. } => want_of(flavour_numbered(facts, owner)),
        _ => Want::Nothing,
    }
}

/// What is wanted of what stands in front of `=>`.
fn formals_want(want: Want) -> Want
    ensures { result ≡ formals_want want }
{
    match want {
        Want::Tied { formal, .. } => Want::Formal(formal),
        _ => Want::Nothing,
    }
}

/// What is wanted of the parts of an alternative.
fn alternative_want(want: Want) -> Want
    ensures { result ≡ Rattle.vd_vector_conversions.specs.Wants.alternative_want want }
{
    match want {
        Want::Choosing { values, choices } => Want::Chosen { values, choices },
        _ => Want::Nothing,
    }
}

/// What is wanted of the parts of an expression, or of a piece of one.
fn expression_want(
    facts: &Facts,
    sort: Sort,
    want: Want,
    node: &Flavoured,
    parts: &Cursor<'_, Flavoured>,
) -> Want
    ensures { result ≡ Rattle.vd_vector_conversions.specs.Wants.expression_want sort facts.now want node.now parts.now }
{
    match sort {
        Sort::Whole => Want::Piece {
            upto: start(),
            whole: wanted(facts, want),
        },
        Sort::Bracketed | Sort::Operator => called_want(facts, want, &node.node, parts),
        Sort::Aggregated => brackets_want(facts, wanted(facts, want), &node.node, parts),
        Sort::Qualified => brackets_want(facts, node.flavour, &node.node, parts),
        Sort::Element => element_want(facts, want, node, parts),
        Sort::Others => others_want(facts, want),
        Sort::Formals => formals_want(want),
        Sort::Ports => Want::Ports,
        _ => Want::Nothing,
    }
}

/// What is wanted of the parts of a node.
fn want_in(facts: &Facts, inside: Inside, node: &Flavoured, parts: &Cursor<'_, Flavoured>) -> Want
    ensures { result ≡ want_in facts.now inside node.now parts.now }
{
    match sort_of(node.node.form) {
        Sort::Like(place) => want_of(settled(&parts.skip(place))),
        Sort::Selected => Want::Choosing {
            values: settled(&parts.skip(2)),
            choices: settled(parts),
        },
        Sort::Alternative => alternative_want(inside.want),
        Sort::Passing => want_of(wanted(facts, inside.want)),
        Sort::Returning => want_of(inside.result),
        sort => expression_want(facts, sort, inside.want, node, parts),
    }
}

/// The flavour of what the function round the parts of a node gives.
fn result_in(
    result_round: Option<Flavour>,
    node: &Flavoured,
    parts: &Cursor<'_, Flavoured>,
) -> Option<Flavour>
    ensures { result ≡ result_in result_round node.now parts.now }
{
    match sort_of(node.node.form) {
        Sort::Body => flavour_of(&parts.skip(5)),
        _ => result_round,
    }
}

/// What holds of the first part of a node.
pub fn down(
    facts: &Facts,
    inside: Inside,
    node: &Flavoured,
    parts: &Cursor<'_, Flavoured>,
) -> Inside
    ensures { result ≡ down facts.now inside node.now parts.now }
{
    Inside {
        want: want_in(facts, inside, node, parts),
        result: result_in(inside.result, node, parts),
    }
}

/// The position behind another one.
fn position_after(index: u32) -> u32
    ensures { result ≡ Rattle.vd_vector_conversions.specs.Wants.position_after index }
{
    if index < u32::MAX { index + 1 } else { index }
}

/// What is wanted of the actual behind a formal.
fn actual_want(to: Option<Flavour>, is_bare: bool) -> Want
    ensures { result ≡ Rattle.vd_vector_conversions.specs.Wants.actual_want to is_bare }
{
    if is_bare { Want::Bare(to) } else { want_of(to) }
}

/// What is wanted of the tree behind a node.
fn want_along(facts: &Facts, want: Want, node: &Flavoured) -> Want
    ensures { result ≡ want_along facts.now want node.now }
{
    match want {
        Want::Piece { upto, whole } => Want::Piece {
            upto: stepped(facts, upto, node),
            whole,
        },
        Want::Listed { owner, index } => Want::Listed {
            owner,
            index: position_after(index),
        },
        Want::Chosen { choices, .. } => want_of(choices),
        Want::Tied {
            actual,
            is_bare,
            ..
        } => actual_want(actual, is_bare),
        same => same,
    }
}

/// What holds of the tree behind a node.
pub fn along(facts: &Facts, inside: Inside, node: &Flavoured) -> Inside
    ensures { result ≡ along facts.now inside node.now }
{
    Inside {
        want: want_along(facts, inside.want, node),
        result: inside.result,
    }
}
