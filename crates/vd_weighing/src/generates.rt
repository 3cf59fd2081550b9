//! Alternatives of generates: what stands in front of each counts once more.

ghost use Rattle.std.specs.Prelude.{◌≡◌, IfOk, List};
ghost use Rattle.vd_declarations.specs.declared.declarations.Declaration.{Declaration};
ghost use Rattle.vd_forms.specs.Forms.{same_form};
ghost use Rattle.vd_weighing.specs.Weights.{form_is, conditions, in_front_of_branches as before_branches, in_front_of_choices as before_choices, if_generate as in_front_of_if, case_generate as in_front_of_case};
ghost use Rattle.vd_weighing.specs.Limits.{at_most};

use crate::nodes::nodes_of_first;
use crate::numbers::plus;
use std::alloc::{AllocError, Global};
use vd_forest::Cursor;
use vd_forms::Form;
use vd_resolved::Resolved;

/// Whether nodes of the form are bodies of generates.
fn is_body(form: Form) -> bool
    ensures { result ≡ same_form Form.GenerateBody form }
{
    matches!(form, Form::GenerateBody)
}

/// Whether the first tree is the body of a generate.
fn starts_body(trees: &Cursor<'_, Resolved>) -> bool
    ensures { result ≡ form_is Form.GenerateBody trees.now }
{
    match trees.form() {
        None => false,
        Some(first) => is_body(first.form),
    }
}

/// The conditions in front of each further condition, and in front of `else`.
fn in_front_of_branches(
    alloc: Global,
    first: u64,
    branches: &Cursor<'_, Resolved>,
    has_else: bool,
) -> Result<u64, AllocError>
    ensures { IfOk result (λ weight. (ds : List Declaration) →
        weight ≡ at_most (before_branches ds first (conditions ds branches.now) has_else)) }
{
    let mut weight = 0;
    let mut before = first;
    let mut left = branches.fork();
    while let Some(branch) = left.open() {
        let condition = nodes_of_first(alloc, &branch.parts)?;
        weight = plus(weight, before);
        before = plus(before, condition);
        left = branch.next;
    }
    let last = if has_else { before } else { 0 };
    Ok(plus(weight, last))
}

/// What counts once more at an `if` generate, given its parts.
pub(crate) fn if_generate(alloc: Global, parts: &Cursor<'_, Resolved>) -> Result<u64, AllocError>
    ensures { IfOk result (λ weight. (ds : List Declaration) → weight ≡ at_most (in_front_of_if ds parts.now)) }
{
    let first = nodes_of_first(alloc, parts)?;
    let has_else = starts_body(&parts.skip(3));
    let weight = in_front_of_branches(alloc, first, &parts.skip(2).parts(), has_else)?;
    Ok(weight)
}

/// The selector and the choices in front of each alternative.
fn in_front_of_choices(
    alloc: Global,
    selector: u64,
    alternatives: &Cursor<'_, Resolved>,
) -> Result<u64, AllocError>
    ensures { IfOk result (λ weight. (ds : List Declaration) → weight ≡ at_most (before_choices ds selector 0 alternatives.now)) }
{
    let mut weight = 0;
    let mut before = 0;
    let mut left = alternatives.fork();
    while let Some(alternative) = left.open() {
        let choices = nodes_of_first(alloc, &alternative.parts)?;
        weight = plus(weight, before);
        before = plus(plus(before, selector), choices);
        left = alternative.next;
    }
    Ok(weight)
}

/// What counts once more at a `case` generate, given its parts.
pub(crate) fn case_generate(alloc: Global, parts: &Cursor<'_, Resolved>) -> Result<u64, AllocError>
    ensures { IfOk result (λ weight. (ds : List Declaration) → weight ≡ at_most (in_front_of_case ds parts.now)) }
{
    let selector = nodes_of_first(alloc, parts)?;
    let weight = in_front_of_choices(alloc, selector, &parts.skip(1).parts())?;
    Ok(weight)
}
