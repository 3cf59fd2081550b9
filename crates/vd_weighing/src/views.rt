//! Elements of views.

ghost use Rattle.std.specs.Prelude.{◌≡◌, List};
ghost use Rattle.vd_declarations.specs.declared.declarations.Declaration.{Declaration};
ghost use Rattle.vd_forms.specs.Forms.{same_form};
ghost use Rattle.vd_weighing.specs.Weights.{mode_count as count_of_mode, element_count as count_of_elements};
ghost use Rattle.vd_weighing.specs.Limits.{at_most};

use crate::names::declared_at;
use crate::nodes::tree_count;
use crate::numbers::{plus, product};
use crate::tables::Tables;
use vd_forest::Cursor;
use vd_forms::Form;
use vd_resolved::Resolved;

/// Whether nodes of the form are nested views.
fn is_view_mode(form: Form) -> bool
    ensures { result ≡ same_form form Form.ViewMode }
{
    matches!(form, Form::ViewMode)
}

/// How many elements an element has: those of its view, where it has one in the place of a mode.
fn mode_count(mode: &Cursor<'_, Resolved>, known: &Tables) -> u64
    ensures { (ds : List Declaration) → result ≡ count_of_mode ds mode.now known.now }
{
    match mode.open() {
        None => 0,
        Some(first) => {
            if is_view_mode(first.form.form) {
                known.times(declared_at(&first.parts))
            } else {
                1
            }
        }
    }
}

/// How many elements with a mode there are.
pub(crate) fn element_count(elements: &Cursor<'_, Resolved>, known: &Tables) -> u64
    ensures { (ds : List Declaration) → result ≡ at_most (count_of_elements ds elements.now known.now) }
{
    let mut count = 0;
    let mut left = elements.fork();
    while let Some(first) = left.open() {
        let names = tree_count(&first.parts.parts());
        let each = mode_count(&first.parts.next(), known);
        count = plus(count, product(names, each));
        left = first.next;
    }
    count
}
