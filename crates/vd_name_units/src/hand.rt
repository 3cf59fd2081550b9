//! What the parts of a form have at hand.

ghost use Rattle.std.specs.Prelude.{◌≡◌};
ghost use Rattle.vd_forms.specs.Forms.{same_form};
ghost use Rattle.vd_naming.specs.Openings.{has_form, is_loop as loop_form};
ghost use Rattle.vd_name_units.specs.Opened.{at_hand};

use vd_forest::{Cursor, Opened};
use vd_forms::Form;
use vd_name_entering::form_of_next;
use vd_name_rows::{At, Opening};

fn is_matching(form: Form) -> bool
    ensures { result ≡ same_form Form.Matching form }
{
    matches!(form, Form::Matching)
}

/// Whether choices are matched by `?=`.
fn has_matching(parts: &Cursor<'_, Form>) -> bool
    ensures { result ≡ has_form Form.Matching parts.now }
{
    let mut left = parts.fork();
    while let Some(first) = left.open() {
        if is_matching(first.form) {
            return true;
        }
        left = first.next;
    }
    false
}

/// Whether a label is that of a loop.
fn is_loop(form: Form) -> bool
    ensures { result ≡ loop_form form }
{
    matches!(form, Form::ForLoop | Form::WhileLoop | Form::LoopStatement)
}

/// Puts at hand what the parts have, where a form opens no region.
pub(crate) fn put_at_hand(at: &mut At<'_>, opening: Opening, node: &Opened<'_, Form>)
    ensures { at.new ≡ at_hand opening at.old node.now.place node.now.parts }
{
    match opening {
        Opening::OfSelection => {
            at.is_matching = has_matching(&node.parts);
            at.selector = None;
        }
        Opening::OfReturn => at.mark = at.result,
        Opening::OfElements => at.viewed = at.mark,
        Opening::OfLabel => at.is_loop = is_loop(form_of_next(&node.parts)),
        Opening::OfInstance => at.label_place = node.place,
        _ => {}
    }
}
