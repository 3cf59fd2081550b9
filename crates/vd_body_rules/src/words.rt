//! The identifiers and literals of a list.

ghost use Rattle.std.specs.Prelude.{◌≡◌, IfOk, MatchOption, Option, None, Some, map};
ghost use Rattle.vd_body_rules.specs.Words.{own_text as text_of_itself, text_finder};
ghost use Rattle.vd_walks.specs.Finding.{Finder};
ghost use Rattle.vd_meaning.specs.Facets.{nth};
ghost use Rattle.vd_meaning.specs.Meanings.{meanings};
ghost use Rattle.vd_meaning.specs.Tables.{Table};

use std::alloc::{AllocError, Global};
use vd_bytes::Text;
use vd_forest::{Cursor, Opened};
use vd_function_names::counting::{Counted, Counting, behind, counting_of, counts, inside};
use vd_operations::quoted;
use vd_resolved::Resolved;
use vd_walks::{Finding, find_all};

/// The text that a node has as one of a list.
fn own_text(alloc: Global, counting: Counting, text: &[u8]) -> Result<Option<Text>, AllocError>
    ensures { IfOk result (λ t. t ≡ text_of_itself counting text.now) }
{
    match counting {
        Counting::Itself => {
            let own = Text::from_slice(alloc, text)?;
            Ok(Some(own))
        }
        Counting::Character => {
            let own = quoted(alloc, text)?;
            Ok(Some(own))
        }
        _ => Ok(None),
    }
}

/// The texts of some trees.
#[derive(Clone, Copy)]
struct Words;

impl Finding<Resolved, Counted, Text> for Words {
    ghost finder = { λ _. text_finder };

    fn answer(
        &self,
        alloc: Global,
        trees: &Counted,
        node: &Opened<'_, Resolved>,
    ) -> Result<Option<Text>, AllocError> {
        if counts(*trees) {
            own_text(alloc, counting_of(node.form.form), node.text)
        } else {
            Ok(None)
        }
    }

    fn down(
        &self,
        _alloc: Global,
        trees: &Counted,
        node: &Opened<'_, Resolved>,
    ) -> Result<Counted, AllocError> {
        if counts(*trees) {
            Ok(inside(counting_of(node.form.form)))
        } else {
            Ok(Counted::NoTrees)
        }
    }

    fn along(
        &self,
        _alloc: Global,
        trees: &Counted,
        _node: &Opened<'_, Resolved>,
    ) -> Result<Counted, AllocError> {
        Ok(behind(*trees))
    }
}

/// The identifiers and literals of the first tree, where it is a list of such.
#[tactic(auto, using(crate::proofs::WordLemmas::texts_of_first))]
pub fn texts_of_first(alloc: Global, trees: &Cursor<'_, Resolved>) -> Result<Vec<Text>, AllocError>
    ensures { IfOk result (λ found. (t : Table) → found.items ≡ (nth 0 (meanings t trees.now)).texts) }
{
    find_all(alloc, trees, Counted::FirstAlone, &Words)
}
