//! What trees are looked at for where forms end.

ghost use Rattle.std.specs.Prelude.{◌≡◌};
ghost use Rattle.vd_naming.specs.Endings.{form_of_next as form_behind};
ghost use Rattle.vd_naming.specs.Units.{is_single as is_alone};

use vd_forest::Cursor;
use vd_forms::Form;

/// The form of the second tree. That of one that isn't there is that of one that is left out.
pub fn form_of_next(parts: &Cursor<'_, Form>) -> Form
    ensures { result ≡ form_behind parts.now }
{
    match parts.next().form() {
        Some(form) => form,
        None => Form::Absent,
    }
}

/// Whether there is one tree.
pub fn is_single(trees: &Cursor<'_, Form>) -> bool
    ensures { result ≡ is_alone trees.now }
{
    match trees.open() {
        None => false,
        Some(first) => first.next.open().is_none(),
    }
}
