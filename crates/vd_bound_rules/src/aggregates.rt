//! How many elements an aggregate gives.

ghost use Rattle.std.specs.Prelude.{◌≡◌, ◌∷◌, IfOk, List, [], map};
ghost use Rattle.vd_bound_rules.specs.Written.{length_got, one_more};
ghost use Rattle.vd_forest.specs.Forest.{Forest};
ghost use Rattle.vd_given_choices.specs.Choices.{AreChoices};
ghost use Rattle.vd_known_designs.specs.Designs.{IsReady, Knows};
ghost use Rattle.vd_meaning.specs.Brackets.{positional_count};
ghost use Rattle.vd_meaning.specs.Meanings.{meanings};
ghost use Rattle.vd_meaning.specs.Tables.{Table};
ghost use Rattle.vd_value_rules.specs.Aggregates.{choices_of_association, choices_of_elements, has_others_element};
ghost use Rattle.vd_value_rules.specs.Bounds.{elements_given as given_elements};
ghost use Rattle.vd_value_rules.specs.Choices.{Given, early_bounds};
ghost use Rattle.vd_value_rules.specs.Designs.{Design};
ghost use Rattle.vd_value_rules.specs.Knowledge.{Known};
ghost use Rattle.vd_value_rules.specs.Lengths.{plus_length};

use std::alloc::{AllocError, Global};
use vd_forest::{Cursor, Opened};
use vd_forms::Form;
use vd_given_choices::{Choice, choices_given};
use vd_known_designs::KnownDesign;
use vd_known_lengths::lengths::sum;
use vd_known_lengths::operands::is_positional;
use vd_resolved::Resolved;

/// Whether an element is `others`.
fn has_others(elements: &Cursor<'_, Resolved>) -> bool
    ensures { result ≡ has_others_element elements.now }
{
    let mut rest = elements.fork();
    while let Some(first) = rest.open() {
        if matches!(first.form.form, Form::OthersAssociation) {
            return true;
        }
        rest = first.next;
    }
    false
}

/// One more, where something is so.
fn counted(count: u128, is_one: bool) -> Result<u128, AllocError>
    ensures { IfOk result (λ n. n ≡ one_more is_one count) }
{
    if !is_one {
        return Ok(count);
    }
    // no text has so many elements
    match count.checked_add(1) {
        Some(more) => Ok(more),
        None => Err(AllocError),
    }
}

/// How many elements have no choices.
fn positions(elements: &Cursor<'_, Resolved>) -> Result<u128, AllocError>
    ensures { (t : Table) → IfOk result (λ n. positional_count (meanings t elements.now) ≡ n) }
{
    let mut count: u128 = 0;
    let mut rest = elements.fork();
    while let Some(first) = rest.open() {
        count = counted(count, is_positional(&rest))?;
        rest = first.next;
    }
    Ok(count)
}

/// How many values a choice stands for, where its range is known.
fn length_of_choice(choice: &Choice) -> Option<u128>
    ensures { (g : Given) → AreChoices (choice.now ∷ []) (g ∷ []) → length_got (early_bounds g ∷ []) ≡ result }
{
    if !choice.is_static {
        return None;
    }
    let range = choice.range?;
    Some(range.length())
}

/// How many values some choices stand for, where all are known.
fn length_of_choices(choices: &[Choice]) -> Result<Option<u128>, AllocError>
    ensures { (gs : List Given) → AreChoices choices.now gs → IfOk result (λ n. length_got (map early_bounds gs) ≡ n) }
{
    let mut length = Some(0);
    for choice in choices {
        length = sum(length, length_of_choice(choice))?;
    }
    Ok(length)
}

/// How many values the choices of an element stand for, where all are known.
fn length_of_element(
    design: &mut KnownDesign<'_, '_>,
    alloc: Global,
    element: &Opened<'_, Resolved>,
) -> Result<Option<u128>, AllocError>
    requires ready { IsReady design.old }
    ensures is { (d : Design) (k : Known) (ks : List Known) → Knows d design.old (k ∷ ks)
        → IfOk result (λ n. length_got (map early_bounds (choices_of_association element.now.form.form d k.env element.now.parts)) ≡ n) }
    ensures knows { (d : Design) (ks : List Known) → Knows d design.old ks → Knows d design.new ks }
{
    match element.form.form {
        Form::Association => {
            let choices = choices_given(design, alloc, &element.parts.parts())?;
            length_of_choices(&choices)
        }
        _ => Ok(Some(0)),
    }
}

/// How many values the choices of all elements stand for, where all are known.
fn length_of_elements(
    design: &mut KnownDesign<'_, '_>,
    alloc: Global,
    elements: &Cursor<'_, Resolved>,
) -> Result<Option<u128>, AllocError>
    requires ready { IsReady design.old }
    ensures is { (d : Design) (k : Known) (ks : List Known) → Knows d design.old (k ∷ ks)
        → IfOk result (λ n. length_got (map early_bounds (choices_of_elements d k.env elements.now)) ≡ n) }
    ensures knows { (d : Design) (ks : List Known) → Knows d design.old ks → Knows d design.new ks }
{
    let mut length = Some(0);
    let mut rest = elements.fork();
    while let Some(first) = rest.open() {
        let own = length_of_element(design, alloc, &first)?;
        length = sum(length, own)?;
        rest = first.next;
    }
    Ok(length)
}

/// How many elements an aggregate gives: one for each position, and those of its choices.
pub(crate) fn elements_given(
    design: &mut KnownDesign<'_, '_>,
    alloc: Global,
    elements: &Cursor<'_, Resolved>,
) -> Result<Option<u128>, AllocError>
    requires ready { IsReady design.old }
    ensures is { (d : Design) (k : Known) (ks : List Known) → Knows d design.old (k ∷ ks)
        → IfOk result (λ n. given_elements d k.env elements.now ≡ n) }
    ensures knows { (d : Design) (ks : List Known) → Knows d design.old ks → Knows d design.new ks }
{
    if has_others(elements) {
        return Ok(None);
    }
    let named = length_of_elements(design, alloc, elements)?;
    let positional = positions(elements)?;
    let total = sum(Some(positional), named)?;
    Ok(total)
}
