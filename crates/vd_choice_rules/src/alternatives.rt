//! The alternatives of statements with choices.

ghost use Rattle.std.specs.Prelude.{◌≡◌, ◌∷◌, IfOk, List, OnOk};
ghost use Rattle.vd_given_choices.specs.Choices.{AreChoices};
ghost use Rattle.vd_known_designs.specs.Designs.{IsReady, Knows};
ghost use Rattle.vd_value_rules.specs.Choices.{all_choices, choices_in, has_others as others_there, is_others as others_stand, is_others_form as others_form};
ghost use Rattle.vd_value_rules.specs.Designs.{Design};
ghost use Rattle.vd_value_rules.specs.Knowledge.{Known};

use std::alloc::{AllocError, Global};
use vd_forest::Cursor;
use vd_forms::Form;
use vd_given_choices::{Choice, add_choices, choices_given};
use vd_known_designs::KnownDesign;
use vd_resolved::Resolved;

/// The choices of the first tree, where it is a list of them.
fn choices_at(
    design: &mut KnownDesign<'_, '_>,
    alloc: Global,
    tree: &Cursor<'_, Resolved>,
) -> Result<Vec<Choice>, AllocError>
    requires ready { IsReady design.old }
    ensures choices { (d : Design) (k : Known) (ks : List Known) → Knows d design.old (k ∷ ks)
        → IfOk result (λ xs. AreChoices xs.items (choices_in d k.env tree.now)) }
    ensures knows { (d : Design) (ks : List Known) → Knows d design.old ks → Knows d design.new ks }
{
    let Some(first) = tree.open() else {
        return Ok(Vec::new(alloc));
    };
    match first.form.form {
        Form::Choices => choices_given(design, alloc, &first.parts),
        _ => Ok(Vec::new(alloc)),
    }
}

/// The choices of all alternatives, which are the part of each with this number.
pub(crate) fn alternative_choices(
    design: &mut KnownDesign<'_, '_>,
    alloc: Global,
    number: u32,
    alternatives: &Cursor<'_, Resolved>,
) -> Result<Vec<Choice>, AllocError>
    requires ready { IsReady design.old }
    ensures choices { (d : Design) (k : Known) (ks : List Known) → Knows d design.old (k ∷ ks)
        → IfOk result (λ xs. AreChoices xs.items (all_choices d k.env number alternatives.now)) }
    ensures knows { (d : Design) (ks : List Known) → Knows d design.old ks → OnOk result (Knows d design.new ks) }
{
    let mut all = Vec::new(alloc);
    let mut rest = alternatives.fork();
    while let Some(first) = rest.open() {
        let choices = choices_at(design, alloc, &first.parts.skip(number))?;
        add_choices(&mut all, choices)?;
        rest = first.next;
    }
    Ok(all)
}

fn is_others_form(form: Form) -> bool
    ensures { result ≡ others_form form }
{
    matches!(form, Form::Others)
}

/// Whether the first tree is `others`.
fn is_others(tree: &Cursor<'_, Resolved>) -> bool
    ensures { result ≡ others_stand tree.now }
{
    match tree.open() {
        Some(first) => is_others_form(first.form.form),
        None => false,
    }
}

/// Whether one of the alternatives is for `others`.
pub(crate) fn has_others(number: u32, alternatives: &Cursor<'_, Resolved>) -> bool
    ensures { result ≡ others_there number alternatives.now }
{
    let mut rest = alternatives.fork();
    while let Some(first) = rest.open() {
        if is_others(&first.parts.skip(number)) {
            return true;
        }
        rest = first.next;
    }
    false
}
