//! Ranges among choices.

ghost use Rattle.std.specs.Prelude.{◌∷◌, List, OnOk};
ghost use Rattle.vd_known_designs.specs.Designs.{IsReady, Knows};
ghost use Rattle.vd_value_rules.specs.Designs.{Design};
ghost use Rattle.vd_value_rules.specs.Knowledge.{Known};

use std::alloc::{AllocError, Global};
use vd_composites::Bounds;
use vd_forest::Cursor;
use vd_forms::Form;
use vd_known_designs::KnownDesign;
use vd_known_indications::node;
use vd_notes::Note;
use vd_predefined::numbers::STD_ULOGIC;
use vd_resolved::Resolved;
use vd_static_values::{Ranging, Sense};

/// Whether a choice of this form can stand for a range.
fn may_be_range(form: Form) -> bool {
    matches!(
        form,
        Form::Name | Form::Ascending | Form::Descending | Form::DiscreteSubtype
    )
}

/// Whether it is of STD_ULOGIC, whose choices are matched one by one.
fn is_logic(sense: &Sense<'_>) -> bool {
    match sense.mark {
        Some(mark) => mark.number() == STD_ULOGIC,
        None => false,
    }
}

/// The note of a range. One that has no values has a least value above its greatest one.
fn ranged(bounds: Bounds) -> Note {
    let (low, high) = if bounds.down {
        (bounds.right, bounds.left)
    } else {
        (bounds.left, bounds.right)
    };
    let Ok(low) = u32::try_from(low) else {
        return Note::Nothing;
    };
    let Ok(high) = u32::try_from(high) else {
        return Note::Nothing;
    };
    Note::Values { low, high }
}

/// The note of a choice.
fn noted(sense: &Sense<'_>) -> Note {
    match sense.range {
        Ranging::Range(Some(bounds)) if is_logic(sense) => ranged(bounds),
        _ => Note::Nothing,
    }
}

/// The note of the first of some choices.
fn choice_note(
    design: &mut KnownDesign<'_, '_>,
    alloc: Global,
    choices: &Cursor<'_, Resolved>,
) -> Result<Note, AllocError>
    requires ready { IsReady design.old }
    ensures knows { (d : Design) (ks : List Known) → Knows d design.old ks → Knows d design.new ks }
{
    match choices.form() {
        Some(form) if may_be_range(form.form) => {
            let first = node(design, alloc, choices)?;
            Ok(noted(&first.sense))
        }
        _ => Ok(Note::Nothing),
    }
}

/// The notes of choices, in their order.
pub(crate) fn choice_notes(
    design: &mut KnownDesign<'_, '_>,
    alloc: Global,
    choices: &Cursor<'_, Resolved>,
) -> Result<Vec<Note>, AllocError>
    requires ready { IsReady design.old }
    ensures knows { (d : Design) (ks : List Known) → Knows d design.old ks → OnOk result (Knows d design.new ks) }
{
    let mut notes = Vec::new(alloc);
    let mut rest = choices.fork();
    while let Some(choice) = rest.open() {
        let note = choice_note(design, alloc, &rest)?;
        notes.push(note)?;
        rest = choice.next;
    }
    Ok(notes)
}
