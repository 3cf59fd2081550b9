//! Actuals of ports.

ghost use Rattle.std.specs.Prelude.{◌∷◌, List, OnOk};
ghost use Rattle.vd_known_designs.specs.Designs.{IsReady, Knows};
ghost use Rattle.vd_value_rules.specs.Designs.{Design};
ghost use Rattle.vd_value_rules.specs.Knowledge.{Known};

use std::alloc::{AllocError, Global};
use vd_forest::{Cursor, Opened};
use vd_forms::Form;
use vd_known_designs::KnownDesign;
use vd_known_indications::node;
use vd_notes::Note;
use vd_resolved::Resolved;
use vd_static_values::Sense;

/// Whether a signal stands for an actual: it is neither the name of a signal whose indexes are static, or a conversion of one, nor a static expression.
fn is_implicit(sense: &Sense<'_>) -> bool {
    let known = sense.known;
    sense.is_present
        && !sense.is_open
        && !sense.name.is_whole
        && !known.is_local
        && !known.is_global
}

/// The actual of an element of a port map.
fn actual_of<'a>(element: &Opened<'a, Resolved>) -> Option<Cursor<'a, Resolved>> {
    match element.form.form {
        Form::Association => Some(element.parts.skip(1)),
        _ => None,
    }
}

/// The note of an actual. The number of the signal isn't known yet.
fn noted(sense: &Sense<'_>) -> Note {
    if is_implicit(sense) {
        Note::Implicit { signal: 0 }
    } else {
        Note::Nothing
    }
}

/// The note of an element of a port map, the first of these trees.
fn actual_note(
    design: &mut KnownDesign<'_, '_>,
    alloc: Global,
    elements: &Cursor<'_, Resolved>,
) -> Result<Note, AllocError>
    requires ready { IsReady design.old }
    ensures knows { (d : Design) (ks : List Known) → Knows d design.old ks → Knows d design.new ks }
{
    let Some(element) = elements.open() else {
        return Ok(Note::Nothing);
    };
    let actual = match actual_of(&element) {
        Some(actual) => actual,
        None => elements.fork(),
    };
    let first = node(design, alloc, &actual)?;
    Ok(noted(&first.sense))
}

/// The notes of the elements of a port map, in their order.
pub(crate) fn actual_notes(
    design: &mut KnownDesign<'_, '_>,
    alloc: Global,
    elements: &Cursor<'_, Resolved>,
) -> Result<Vec<Note>, AllocError>
    requires ready { IsReady design.old }
    ensures knows { (d : Design) (ks : List Known) → Knows d design.old ks → OnOk result (Knows d design.new ks) }
{
    let mut notes = Vec::new(alloc);
    let mut rest = elements.fork();
    while let Some(element) = rest.open() {
        let note = actual_note(design, alloc, &rest)?;
        notes.push(note)?;
        rest = element.next;
    }
    Ok(notes)
}
