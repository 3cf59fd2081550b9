//! Pieces of selected names.

ghost use Rattle.std.specs.Prelude.{◌≡◌, IfOk};
ghost use Rattle.vd_visible.specs.Kinds.{kind_of as kind_at};
ghost use Rattle.vd_ways.specs.Ways.{selected_name as name_selected};
ghost use Rattle.vd_naming.specs.Ports.{last_text as text_of_last};
ghost use Rattle.vd_naming.specs.Units.{last_piece, is_all as names_all};
ghost use Rattle.vd_name_clauses.specs.Pieces.{last_tree as last_of_trees};

use std::alloc::{AllocError, Global};
use vd_bytes::Text;
use vd_forest::Cursor;
use vd_forms::Form;
use vd_visible::kinds::{Kind, kind_of};
use vd_ways::names::symbol_name;
use vd_ways::values::letter_name;

/// The last piece.
fn last_tree<'a>(pieces: &Cursor<'a, Form>) -> Cursor<'a, Form>
    ensures { result ≡ last_of_trees pieces.now }
{
    let mut left = pieces.fork();
    while let Some(first) = left.open() {
        if first.next.open().is_none() {
            return left;
        }
        left = first.next;
    }
    left
}

/// The name that a piece is behind a point: an identifier, a character literal or an operator symbol. Any other form is none.
fn selected_name(alloc: Global, form: Form, text: &[u8]) -> Result<Option<Text>, AllocError>
    ensures { IfOk result (λ name. name ≡ name_selected (kind_at form) text.now) }
{
    match kind_of(form) {
        Kind::Identifier => {
            let name = Text::from_slice(alloc, text)?;
            Ok(Some(name))
        }
        Kind::Letter => {
            let letter = letter_name(alloc, text)?;
            let name = Text::from_slice(alloc, letter.as_slice())?;
            Ok(Some(name))
        }
        Kind::Quoted => {
            let symbol = symbol_name(alloc, text)?;
            let name = Text::from_slice(alloc, symbol.as_slice())?;
            Ok(Some(name))
        }
        _ => Ok(None),
    }
}

/// The name that the last piece is. `all` is none.
#[tactic(auto, using(crate::proofs::PieceLemmas::last_name_is))]
pub(crate) fn last_name(
    alloc: Global,
    pieces: &Cursor<'_, Form>,
) -> Result<Option<Text>, AllocError>
    ensures { IfOk result (λ name. name ≡ last_piece pieces.now) }
{
    let last = last_tree(pieces);
    let Some(form) = last.form() else {
        return Ok(None);
    };
    let name = selected_name(alloc, form, last.text())?;
    Ok(name)
}

/// Whether the last piece is `all`.
#[tactic(auto, using(crate::proofs::PieceLemmas::last_all_is))]
pub(crate) fn is_all(pieces: &Cursor<'_, Form>) -> bool
    ensures { result ≡ names_all pieces.now }
{
    let last = last_tree(pieces);
    match last.form() {
        Some(Form::All) => true,
        _ => false,
    }
}

/// The text of the last piece.
#[tactic(auto, using(crate::proofs::PieceLemmas::last_text_is))]
pub(crate) fn last_text<'a>(pieces: &Cursor<'a, Form>) -> &'a [u8]
    ensures { result.now ≡ text_of_last pieces.now }
{
    last_tree(pieces).text()
}
