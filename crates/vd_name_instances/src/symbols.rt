//! Designators of functions in quotation marks.

ghost use Rattle.std.specs.Prelude.{◌≡◌};
ghost use Rattle.vd_text_rules.specs.Designators.{is_operator as is_operator_with};
ghost use Rattle.vd_naming.specs.Instances.{is_wrong_symbol as is_symbol_wrong};

use vd_forest::Cursor;
use vd_forms::Form;
use vd_text_rules::is_operator;
use vd_trees::Revision;

/// Whether a text is an operator with so many operands.
fn is_operator_of(revision: Revision, text: &[u8], count: usize) -> bool
    ensures { result ≡ is_operator_with revision text.now count }
{
    match count {
        1 => is_operator(revision, text, 1),
        2 => is_operator(revision, text, 2),
        _ => false,
    }
}

/// Whether the first tree is a designator in quotation marks that isn't an operator with so many operands.
pub(crate) fn is_wrong_symbol(revision: Revision, trees: &Cursor<'_, Form>, count: usize) -> bool
    ensures { result ≡ is_symbol_wrong revision trees.now count }
{
    match trees.open() {
        None => false,
        Some(first) => match first.form {
            Form::Quoted => !is_operator_of(revision, first.text, count),
            _ => false,
        },
    }
}
