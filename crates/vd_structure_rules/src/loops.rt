//! Loops, and the statements that leave them or go on to their next turn.

ghost use Rattle.std.specs.Prelude.{◌≡◌, ℕ, None, IfOk, IfSome, slice_index_or};
ghost use Rattle.vd_walks.specs.Finding.{Finder};
ghost use Rattle.vd_structure_rules.specs.Loops.{number_at as number_of_first, labelled_until as labelled_between, place_at as place_of_part, labelled_loop as loop_with_label, loop_of_node as loop_at_node, loop_finder, labelled_loops as all_labelled_loops, stands_round as is_around, jump_of as jump_from, jump_out_of as jump_from_innermost, jump_to as jump_inside, jump_to_label as jump_by_label, jump_by as jump_by_form, jump as jump_at, wrong_jump as is_wrong_jump};

use crate::around::{closing_label_part, is_endless};
use crate::statements::refused_if;
use crate::tables::entry;
use std::alloc::{AllocError, Global};
use vd_bytes::{Place, Refused};
use vd_declarations::DeclId;
use vd_forest::{Cursor, Opened};
use vd_forms::Form;
use vd_resolved::Resolved;
use vd_walks::{Finding, find_all, is_before};

/// A loop around a statement: where it is refused, and whether it has no range.
#[derive(Clone, Copy)]
pub struct EnclosingLoop {
    pub place: Place,
    pub endless: bool,
}

/// A loop with a label.
#[derive(Clone, Copy)]
pub struct LabelledLoop {
    /// The declaration of the label.
    pub label: DeclId,
    pub place: Place,
    /// The place behind its statements and the words that end it.
    pub until: Place,
    pub endless: bool,
}

/// The number that the first tree carries.
pub fn number_at(trees: &Cursor<'_, Resolved>) -> Option<DeclId>
    ensures { result ≡ number_of_first trees.now }
{
    match trees.open() {
        None => None,
        Some(first) => first.form.declaration,
    }
}

/// The place of a part.
fn place_at(number: Option<u32>, parts: &Cursor<'_, Resolved>) -> Option<Place>
    ensures { result ≡ place_of_part number parts.now }
{
    match number {
        None => None,
        Some(count) => parts.skip(count).place(),
    }
}

/// A loop with a label, where all of it is there.
fn labelled_until(
    label: Option<DeclId>,
    place: Place,
    form: Form,
    until: Option<Place>,
) -> Option<LabelledLoop>
    ensures { result ≡ labelled_between label place form until }
{
    match (label, until) {
        (Some(label), Some(until)) => Some(LabelledLoop {
            label,
            place,
            until,
            endless: is_endless(form),
        }),
        _ => None,
    }
}

/// The loop behind a label.
fn labelled_loop(
    label: Option<DeclId>,
    place: Place,
    statement: &Cursor<'_, Resolved>,
) -> Option<LabelledLoop>
    ensures { result ≡ loop_with_label label place statement.now }
{
    match statement.open() {
        None => None,
        Some(first) => {
            let form = first.form.form;
            let until = place_at(closing_label_part(form), &first.parts);
            labelled_until(label, place, form, until)
        }
    }
}

/// The loop that a statement with a label is.
fn loop_of_node(form: Form, place: Place, parts: &Cursor<'_, Resolved>) -> Option<LabelledLoop>
    ensures { result ≡ loop_at_node form place parts.now }
{
    match form {
        Form::LabelledStatement => labelled_loop(number_at(parts), place, &parts.skip(1)),
        _ => None,
    }
}

/// The loops with labels.
#[derive(Clone, Copy)]
struct LoopsWithLabels;

impl Finding<Resolved, u8, LabelledLoop> for LoopsWithLabels {
    ghost finder = { λ _. loop_finder };

    fn answer(
        &self,
        _alloc: Global,
        _state: &u8,
        node: &Opened<'_, Resolved>,
    ) -> Result<Option<LabelledLoop>, AllocError> {
        Ok(loop_of_node(node.form.form, node.place, &node.parts))
    }

    fn down(
        &self,
        _alloc: Global,
        state: &u8,
        _node: &Opened<'_, Resolved>,
    ) -> Result<u8, AllocError> {
        Ok(*state)
    }

    fn along(
        &self,
        _alloc: Global,
        state: &u8,
        _node: &Opened<'_, Resolved>,
    ) -> Result<u8, AllocError> {
        Ok(*state)
    }
}

/// All loops with labels, in the order of the text.
pub fn labelled_loops(
    alloc: Global,
    units: &Cursor<'_, Resolved>,
) -> Result<Vec<LabelledLoop>, AllocError>
    ensures { IfOk result (λ loops. loops.items ≡ all_labelled_loops units.now) }
{
    find_all(alloc, units, 0, &LoopsWithLabels)
}

/// Whether a place is inside a loop.
fn stands_round(around: &LabelledLoop, place: &Place) -> bool
    ensures { result ≡ is_around around.now place.now }
{
    is_before(&around.place, place) && is_before(place, &around.until)
}

/// The refusal of a loop to whose next turn a statement goes on.
fn jump_of(is_next: bool, endless: bool, place: Place) -> Option<Refused>
    ensures { result ≡ jump_from is_next endless place }
{
    refused_if(is_next && endless, place, 408)
}

/// The refusal of a statement that means the innermost loop.
fn jump_out_of(is_next: bool, innermost: Option<EnclosingLoop>, place: Place) -> Option<Refused>
    ensures { result ≡ jump_from_innermost is_next innermost place }
{
    match innermost {
        None => Some(Refused { place, rule: 408 }),
        Some(around) => jump_of(is_next, around.endless, around.place),
    }
}

/// The refusal of a statement that names a loop.
fn jump_to(is_next: bool, named: Option<LabelledLoop>, place: Place, own: Place) -> Option<Refused>
    ensures { result ≡ jump_inside is_next named place own }
{
    match named {
        None => Some(Refused { place, rule: 408 }),
        Some(around) => {
            if stands_round(&around, &own) {
                jump_of(is_next, around.endless, around.place)
            } else {
                Some(Refused { place, rule: 408 })
            }
        }
    }
}

/// The refusal of a statement that names a loop by its label. The table has the loop of each label.
fn jump_to_label(
    is_next: bool,
    loops: &[Option<LabelledLoop>],
    label: Option<DeclId>,
    place: Place,
    own: Place,
) -> Option<Refused>
    ensures { result ≡ jump_by_label is_next (λ k. slice_index_or loops.now k None) label place own }
{
    match label {
        None => Some(Refused { place, rule: 408 }),
        Some(declaration) => jump_to(is_next, entry(loops, declaration.number()), place, own),
    }
}

/// The refusal of a statement by what stands in the place of its label.
fn jump_by(
    form: Form,
    is_next: bool,
    loops: &[Option<LabelledLoop>],
    innermost: Option<EnclosingLoop>,
    label: Option<DeclId>,
    place: Place,
    own: Place,
) -> Option<Refused>
    ensures { result ≡ jump_by_form form is_next (λ k. slice_index_or loops.now k None) innermost label place own }
{
    match form {
        Form::Absent => jump_out_of(is_next, innermost, place),
        _ => jump_to_label(is_next, loops, label, place, own),
    }
}

/// The refusal of a statement with these parts.
fn jump(
    is_next: bool,
    loops: &[Option<LabelledLoop>],
    innermost: Option<EnclosingLoop>,
    place: Place,
    own: Place,
    parts: &Cursor<'_, Resolved>,
) -> Option<Refused>
    ensures { result ≡ jump_at is_next (λ k. slice_index_or loops.now k None) innermost place own parts.now }
{
    match parts.open() {
        None => None,
        Some(first) => {
            let label = first.form.declaration;
            jump_by(
                first.form.form,
                is_next,
                loops,
                innermost,
                label,
                place,
                own,
            )
        }
    }
}

/// The refusal of a `next` or `exit`, or of the loop that it goes on with.
pub fn wrong_jump(
    loops: &[Option<LabelledLoop>],
    innermost: Option<EnclosingLoop>,
    form: Form,
    place: Place,
    own: Place,
    parts: &Cursor<'_, Resolved>,
) -> Option<Refused>
    ensures { result ≡ is_wrong_jump (λ k. slice_index_or loops.now k None) innermost form place own parts.now }
{
    match form {
        Form::NextStatement => jump(true, loops, innermost, place, own, parts),
        Form::ExitStatement => jump(false, loops, innermost, place, own, parts),
        _ => None,
    }
}
