//! Aggregates of arrays.

ghost use Rattle.std.specs.Prelude.{◌≡◌, ◌&&◌, ◌∷◌, IfOk, List, OnOk, not};
ghost use Rattle.vd_environments.specs.Environments.{Env};
ghost use Rattle.vd_forest.specs.Forest.{Forest};
ghost use Rattle.vd_given_choices.specs.Choices.{AreChoices};
ghost use Rattle.vd_known_designs.specs.Designs.{IsReady, Knows};
ghost use Rattle.vd_walks.specs.Least.{least_of};
ghost use Rattle.vd_resolved.specs.declared.node.Resolved.{Resolved as resolved};
ghost use Rattle.vd_value_rules.specs.Aggregates.{array_broken, array_leaves_out, choices_of_association, choices_of_elements, has_others_element};
ghost use Rattle.vd_value_rules.specs.Choices.{Given};
ghost use Rattle.vd_value_rules.specs.Designs.{Design};
ghost use Rattle.vd_value_rules.specs.Knowledge.{Known};

use crate::elements::{has_others, is_left_out};
use crate::spans::chosen_bounds;
use std::alloc::{AllocError, Global};
use vd_bytes::{Place, Refused};
use vd_forest::{Cursor, Opened};
use vd_forms::Form;
use vd_given_choices::{
    Choice, add_choices, are_all_known, are_covered, choices_given, first_not_static,
    first_repeated, known_bounds,
};
use vd_known_designs::KnownDesign;
use vd_resolved::Resolved;
use vd_value_rules::refused_if;
use vd_walks::lesser;

/// The choices of an element.
fn choices_at(
    design: &mut KnownDesign<'_, '_>,
    alloc: Global,
    element: &Opened<'_, Resolved>,
) -> Result<Vec<Choice>, AllocError>
    requires ready { IsReady design.old }
    ensures choices { (d : Design) (k : Known) (ks : List Known) → Knows d design.old (k ∷ ks)
        → IfOk result (λ xs. AreChoices xs.items (choices_of_association element.now.form.form d k.env element.now.parts)) }
    ensures knows { (d : Design) (ks : List Known) → Knows d design.old ks → Knows d design.new ks }
{
    match element.form.form {
        Form::Association => choices_given(design, alloc, &element.parts.parts()),
        _ => Ok(Vec::new(alloc)),
    }
}

/// The choices of all elements, in order.
fn element_choices(
    design: &mut KnownDesign<'_, '_>,
    alloc: Global,
    elements: &Cursor<'_, Resolved>,
) -> Result<Vec<Choice>, AllocError>
    requires ready { IsReady design.old }
    ensures choices { (d : Design) (k : Known) (ks : List Known) → Knows d design.old (k ∷ ks)
        → IfOk result (λ xs. AreChoices xs.items (choices_of_elements d k.env elements.now)) }
    ensures knows { (d : Design) (ks : List Known) → Knows d design.old ks → OnOk result (Knows d design.new ks) }
{
    let mut all = Vec::new(alloc);
    let mut rest = elements.fork();
    while let Some(first) = rest.open() {
        let choices = choices_at(design, alloc, &first)?;
        add_choices(&mut all, choices)?;
        rest = first.next;
    }
    Ok(all)
}

/// Whether choices leave out a value between the least and the greatest one, where all are known.
fn leave_out(alloc: Global, choices: &[Choice]) -> Result<bool, AllocError>
    ensures { (gs : List Given) → AreChoices choices.now gs → IfOk result (λ answer. answer ≡ array_leaves_out gs) }
{
    if !are_all_known(choices) {
        return Ok(false);
    }
    let bounds = known_bounds(alloc, choices)?;
    let covered = are_covered(alloc, chosen_bounds(&bounds), &bounds)?;
    Ok(!covered)
}

/// Whether there is `others` at a place without bounds.
fn lacks_bounds(has_others: bool, is_bounded: bool) -> bool
    ensures { result ≡ (has_others && not is_bounded) }
{
    has_others && !is_bounded
}

/// The first refusal of choices of an aggregate, which may have `others` too.
fn refused_choices(
    alloc: Global,
    choices: &[Choice],
    has_others: bool,
    is_bounded: bool,
    place: Place,
) -> Result<Option<Refused>, AllocError>
    ensures { (e : Env) (elements : Forest resolved) (gs : List Given) → AreChoices choices.now gs → has_others ≡ has_others_element elements
        → IfOk result (λ found. found ≡ least_of (array_broken e is_bounded place elements gs)) }
{
    let later = first_not_static(choices);
    let repeated = first_repeated(alloc, choices)?;
    let gap = leave_out(alloc, choices)?;
    let missing = refused_if(is_left_out(has_others, gap), place, 403);
    let unbounded = refused_if(lacks_bounds(has_others, is_bounded), place, 410);
    let of_choices = lesser(later, repeated);
    Ok(lesser(lesser(of_choices, missing), unbounded))
}

/// The first refusal of an aggregate of an array.
pub(crate) fn refused_array(
    design: &mut KnownDesign<'_, '_>,
    alloc: Global,
    is_bounded: bool,
    place: Place,
    elements: &Cursor<'_, Resolved>,
) -> Result<Option<Refused>, AllocError>
    requires ready { IsReady design.old }
    ensures refused { (d : Design) (k : Known) (ks : List Known) → Knows d design.old (k ∷ ks)
        → IfOk result (λ found. found ≡ least_of (array_broken k.env is_bounded place elements.now (choices_of_elements d k.env elements.now))) }
    ensures knows { (d : Design) (ks : List Known) → Knows d design.old ks → OnOk result (Knows d design.new ks) }
{
    let choices = element_choices(design, alloc, elements)?;
    let has_others = has_others(elements);
    refused_choices(alloc, &choices, has_others, is_bounded, place)
}
