//! Statements with choices.

ghost use Rattle.std.specs.Prelude.{◌≡◌, ◌∷◌, IfOk, List, OnOk};
ghost use Rattle.vd_bytes.specs.declared.places.Place.{Place as place_there};
ghost use Rattle.vd_choice_rules.specs.SelectingStatements.{IsSelecting, IsSelectingIn, by_parts, selecting_by, word_there};
ghost use Rattle.vd_known_designs.specs.Designs.{IsReady, Knows};
ghost use Rattle.vd_value_rules.specs.Choices.{place_or, selecting_of as selecting_in};
ghost use Rattle.vd_value_rules.specs.Designs.{Design};
ghost use Rattle.vd_value_rules.specs.Knowledge.{Known};
ghost use Rattle.vd_value_rules.specs.Standings.{State};

use crate::alternatives::{alternative_choices, has_others};
use crate::selectors::{is_selectable, matching_of};
use std::alloc::{AllocError, Global};
use vd_bytes::Place;
use vd_forest::{Cursor, Opened};
use vd_forms::Form;
use vd_given_choices::{Choice, place_of};
use vd_known_designs::KnownDesign;
use vd_known_indications::Surroundings;
use vd_known_lengths::{Shape, shape_of};
use vd_operations::is_present;
use vd_resolved::Resolved;
use vd_trees::Revision;
use vd_vectors::LogicType;

/// A statement with choices.
#[derive(Drop)]
pub struct Selecting {
    pub place: Place,
    pub selector_place: Place,
    pub shape: Shape,
    /// Whether the selector may be one of an array type.
    pub is_selectable: bool,
    /// The logical type by whose `?=` the selector is compared, where it is.
    pub matching: Option<LogicType>,
    pub has_others: bool,
    pub choices: Vec<Choice>,
}

/// The numbers of the parts of a statement for its selector and the word `?`, and of the choices in an alternative.
#[derive(Clone, Copy)]
pub struct PartNumbers {
    pub selector: u32,
    pub word: Option<u32>,
    pub choices: u32,
}

/// The parts of a statement with choices.
#[derive(Drop)]
struct Parts<'a> {
    numbers: PartNumbers,
    alternatives: Cursor<'a, Resolved>,
}

/// A statement whose selector, word `?` and choices have these numbers.
fn numbered(selector: u32, word: Option<u32>, choices: u32) -> PartNumbers
    ensures { result ≡ record { selector = selector; word = word; choices = choices } }
{
    PartNumbers {
        selector,
        word,
        choices,
    }
}

/// The parts of the statement with choices that a node is. A `case` generate has no word `?`.
fn parts_of<'a>(node: &Opened<'a, Resolved>) -> Option<Parts<'a>>
    ensures { (d : Design) (s : State) → selecting_in node.now.form.form d s node.now.place node.now.parts ≡ by_parts d s node.now.place node.now.parts result }
{
    let parts = &node.parts;
    let (numbers, alternatives) = match node.form.form {
        Form::CaseStatement => (numbered(1, Some(0), 0), parts.skip(2).parts()),
        Form::SelectedSignalAssignment => (numbered(0, Some(1), 1), parts.skip(4)),
        Form::SelectedVariableAssignment => (numbered(0, Some(1), 1), parts.skip(3)),
        Form::CaseGenerate => (numbered(0, None, 0), parts.skip(1).parts()),
        _ => return None,
    };
    Some(Parts {
        numbers,
        alternatives,
    })
}

/// The place of a statement: that of its label, where it has one.
fn label_or(label: Option<Place>, place: Place) -> Place
    ensures { result ≡ place_or label place }
{
    match label {
        Some(label) => label,
        None => place,
    }
}

/// Whether the word `?` is there.
fn is_word_there(word: Option<u32>, parts: &Cursor<'_, Resolved>) -> bool
    ensures { (d : Design) → result ≡ word_there d word parts.now }
{
    match word {
        Some(number) => is_present(&parts.skip(number)),
        None => false,
    }
}

/// A statement by the numbers of its parts.
fn selecting_with(
    design: &mut KnownDesign<'_, '_>,
    revision: Revision,
    alloc: Global,
    place: Place,
    parts: &Cursor<'_, Resolved>,
    numbers: PartNumbers,
    alternatives: &Cursor<'_, Resolved>,
) -> Result<Selecting, AllocError>
    requires ready { IsReady design.old }
    ensures selecting { (d : Design) (s : State) (own : place_there) (ks : List Known) → Knows d design.old (s.known ∷ ks) → d.revision ≡ revision
        → place ≡ place_or s.label own → IfOk result (λ x. IsSelecting x (selecting_by d s own parts.now numbers alternatives.now)) }
    ensures knows { (d : Design) (ks : List Known) → Knows d design.old ks → OnOk result (Knows d design.new ks) }
{
    let selector = parts.skip(numbers.selector);
    let shape = shape_of(design, alloc, &selector)?;
    let matching = matching_of(design, alloc, is_word_there(numbers.word, parts), &selector)?;
    let choices = alternative_choices(design, alloc, numbers.choices, alternatives)?;
    Ok(Selecting {
        place,
        selector_place: place_of(&selector),
        shape,
        is_selectable: is_selectable(revision, design.declarations, &selector),
        matching,
        has_others: has_others(numbers.choices, alternatives),
        choices,
    })
}

/// The statement with choices that a node is.
pub fn selecting_of(
    design: &mut KnownDesign<'_, '_>,
    revision: Revision,
    alloc: Global,
    around: &Surroundings,
    node: &Opened<'_, Resolved>,
) -> Result<Option<Selecting>, AllocError>
    requires ready { IsReady design.old }
    ensures selecting { (d : Design) (s : State) (ks : List Known) → Knows d design.old (s.known ∷ ks) → d.revision ≡ revision → s.label ≡ around.now.label
        → IfOk result (λ x. IsSelectingIn x (selecting_in node.now.form.form d s node.now.place node.now.parts)) }
    ensures knows { (d : Design) (ks : List Known) → Knows d design.old ks → OnOk result (Knows d design.new ks) }
{
    let Some(found) = parts_of(node) else {
        return Ok(None);
    };
    let place = label_or(around.label, node.place);
    let selecting = selecting_with(
        design,
        revision,
        alloc,
        place,
        &node.parts,
        found.numbers,
        &found.alternatives,
    )?;
    Ok(Some(selecting))
}
