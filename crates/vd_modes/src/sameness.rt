//! Whether two forests are the same, up to places.

ghost use Rattle.std.specs.Prelude.{◌≡◌, ◌<◌, ◌+◌, ◌*◌, OnOk};
ghost use Rattle.vd_forest.specs.Forest.{size};
ghost use Rattle.vd_forms.specs.Forms.{form_number};
ghost use Rattle.vd_modes.specs.Sameness.{work};

use std::alloc::{AllocError, Global};
use vd_forest::{Cursor, Opened};
use vd_forms::Form;

/// Two forests that are still to be compared.
#[derive(Drop)]
struct Pair<'a, 'b> {
    left: Cursor<'a, Form>,
    right: Cursor<'b, Form>,
}

/// A form's number.
fn number_of(form: Form) -> u16
    ensures { result ≡ form_number form }
{
    form as u16
}

/// Whether two nodes have the same form and text.
fn are_alike(left: &Opened<'_, Form>, right: &Opened<'_, Form>) -> bool {
    number_of(left.form) == number_of(right.form) && left.text == right.text
}

/// Compares the first nodes of two forests, and leaves their parts and what stands behind them.
fn compare_first<'a, 'b>(
    left: &Cursor<'a, Form>,
    right: &Cursor<'b, Form>,
    round: &mut Vec<Pair<'a, 'b>>,
) -> Result<bool, AllocError>
    ensures fewer { OnOk result (work round.new.items < work round.old.items + (2 * size left.now + 1)) }
{
    let Some(one) = left.open() else {
        return Ok(right.open().is_none());
    };
    let Some(other) = right.open() else {
        return Ok(false);
    };
    if !are_alike(&one, &other) {
        return Ok(false);
    }
    round.push(Pair {
        left: one.next,
        right: other.next,
    })?;
    round.push(Pair {
        left: one.parts,
        right: other.parts,
    })?;
    Ok(true)
}

/// Whether two forests have the same forms and texts.
#[tactic(auto, using(crate::proofs::SamenessLemmas::left_fewer))]
pub(crate) fn are_same(
    alloc: Global,
    left: &Cursor<'_, Form>,
    right: &Cursor<'_, Form>,
) -> Result<bool, AllocError> {
    let mut round: Vec<Pair<'_, '_>> = Vec::new(alloc);
    round.push(Pair {
        left: left.fork(),
        right: right.fork(),
    })?;
    while let Some(pair) = round.pop() {
        if !compare_first(&pair.left, &pair.right, &mut round)? {
            return Ok(false);
        }
    }
    Ok(true)
}
