//! The texts of identifiers and character literals.

ghost use Rattle.std.specs.Prelude.{◌≡◌, IfOk, MatchOption, None, Some};
ghost use Rattle.vd_walks.specs.Finding.{Finder};
ghost use Rattle.vd_known_forms.specs.Texts.{own_text as text_of_itself, text_finder};
ghost use Rattle.vd_meaning.specs.Facets.{flattened, nth};
ghost use Rattle.vd_meaning.specs.Meanings.{meanings};
ghost use Rattle.vd_meaning.specs.Tables.{Table};

use std::alloc::{AllocError, Global};
use vd_bytes::Text;
use vd_forest::{Cursor, Opened};
use vd_function_names::counting::{Counted, Counting, behind, counting_of, counts, inside};
use vd_operations::quoted;
use vd_resolved::Resolved;
use vd_walks::{Finding, find_all};

/// The text that a node has itself: an identifier as it stands, a character literal between apostrophes.
fn own_text(alloc: Global, counting: Counting, text: &[u8]) -> Result<Option<Text>, AllocError>
    ensures { IfOk result (λ own. own ≡ text_of_itself counting text.now) }
{
    match counting {
        Counting::Itself => {
            let own = Text::from_slice(alloc, text)?;
            Ok(Some(own))
        }
        Counting::Character => {
            let own = quoted(alloc, text)?;
            Ok(Some(own))
        }
        _ => Ok(None),
    }
}

/// The texts of some trees.
#[derive(Clone, Copy)]
struct Texts;

impl Finding<Resolved, Counted, Text> for Texts {
    ghost finder = { λ _. text_finder };

    fn answer(
        &self,
        alloc: Global,
        trees: &Counted,
        node: &Opened<'_, Resolved>,
    ) -> Result<Option<Text>, AllocError> {
        if counts(*trees) {
            own_text(alloc, counting_of(node.form.form), node.text)
        } else {
            Ok(None)
        }
    }

    fn down(
        &self,
        _alloc: Global,
        trees: &Counted,
        node: &Opened<'_, Resolved>,
    ) -> Result<Counted, AllocError> {
        if counts(*trees) {
            Ok(inside(counting_of(node.form.form)))
        } else {
            Ok(Counted::NoTrees)
        }
    }

    fn along(
        &self,
        _alloc: Global,
        trees: &Counted,
        _node: &Opened<'_, Resolved>,
    ) -> Result<Counted, AllocError> {
        Ok(behind(*trees))
    }
}

/// The texts of all trees of a forest.
#[tactic(auto, using(crate::proofs::TextLemmas::texts_of_each))]
pub(crate) fn texts_of_all(
    alloc: Global,
    trees: &Cursor<'_, Resolved>,
) -> Result<Vec<Text>, AllocError>
    ensures { IfOk result (λ found. (t : Table) → found.items ≡ flattened (λ m. m.texts) (meanings t trees.now)) }
{
    find_all(alloc, trees, Counted::Each, &Texts)
}

/// The texts of the first tree of a forest.
#[tactic(auto, using(crate::proofs::TextLemmas::texts_of_first))]
pub(crate) fn texts_of_first(
    alloc: Global,
    trees: &Cursor<'_, Resolved>,
) -> Result<Vec<Text>, AllocError>
    ensures { IfOk result (λ found. (t : Table) → found.items ≡ (nth 0 (meanings t trees.now)).texts) }
{
    find_all(alloc, trees, Counted::FirstAlone, &Texts)
}
