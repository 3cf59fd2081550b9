//! Choices `others`.

ghost use Rattle.std.specs.Prelude.{◌≡◌};
ghost use Rattle.vd_walks.specs.Least.{least_of, refusals};
ghost use Rattle.vd_structure_rules.specs.Choices.{others_choice as choice_of_others, others_at as first_is_others, others_of as others_in, refused_others as are_refused_others, early_others as all_early_others, has_choices as form_has_choices, early_in as are_early_in};

use vd_bytes::{Place, Refused};
use vd_forest::Cursor;
use vd_forms::Form;
use vd_resolved::Resolved;
use vd_walks::lesser;

fn others_choice(form: Form, place: Place) -> Option<Place>
    ensures { result ≡ choice_of_others form place }
{
    match form {
        Form::Others => Some(place),
        _ => None,
    }
}

/// The place of the first tree, where it is `others`.
fn others_at(trees: &Cursor<'_, Resolved>) -> Option<Place>
    ensures { result ≡ first_is_others trees.now }
{
    match trees.open() {
        None => None,
        Some(first) => others_choice(first.form.form, first.place),
    }
}

/// The place of the `others` of an alternative or element.
fn others_of(form: Form, place: Place, parts: &Cursor<'_, Resolved>) -> Option<Place>
    ensures { result ≡ others_in form place parts.now }
{
    match form {
        Form::CaseAlternative | Form::GenerateAlternative => others_at(parts),
        Form::SelectedWaveform | Form::SelectedValue => others_at(&parts.skip(1)),
        Form::OthersAssociation => Some(place),
        _ => None,
    }
}

/// The refusal of an `others` that isn't the last one.
fn refused_others(others: Option<Place>, next: &Cursor<'_, Resolved>) -> Option<Refused>
    ensures { result ≡ are_refused_others others next.now }
{
    match others {
        None => None,
        Some(place) => match next.open() {
            None => None,
            Some(_) => Some(Refused { place, rule: 404 }),
        },
    }
}

/// The least refusal of a list.
#[tactic(auto, using(crate::proofs::RuleLemmas::refusal_steps))]
fn early_others(parts: &Cursor<'_, Resolved>) -> Option<Refused>
    ensures { result ≡ least_of (refusals (all_early_others parts.now)) }
{
    let mut found = None;
    let mut rest = parts.fork();
    while let Some(first) = rest.open() {
        let others = others_of(first.form.form, first.place, &first.parts);
        found = lesser(found, refused_others(others, &first.next));
        rest = first.next;
    }
    found
}

/// Whether `others` may stand in a list of this form.
fn has_choices(form: Form) -> bool
    ensures { result ≡ form_has_choices form }
{
    matches!(
        form,
        Form::CaseAlternatives
            | Form::GenerateAlternatives
            | Form::SelectedSignalAssignment
            | Form::SelectedVariableAssignment
            | Form::Aggregate
            | Form::Qualification
    )
}

/// The least refusal of the parts of a node, where they are such a list.
pub fn early_in(form: Form, parts: &Cursor<'_, Resolved>) -> Option<Refused>
    ensures { result ≡ least_of (refusals (are_early_in (form_has_choices form) parts.now)) }
{
    if has_choices(form) {
        early_others(parts)
    } else {
        None
    }
}
