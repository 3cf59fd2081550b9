//! The declarations that a list of identifiers declares.

ghost use Rattle.std.specs.Prelude.{◌≡◌, IfOk};
ghost use Rattle.vd_walks.specs.Finding.{Finder};
ghost use Rattle.vd_function_names.specs.Counting.{own_number as number_of_itself, number_finder};
ghost use Rattle.vd_meaning.specs.Facets.{nth};
ghost use Rattle.vd_meaning.specs.Meanings.{meanings};
ghost use Rattle.vd_meaning.specs.Tables.{Table};

use crate::counting::{Counted, Counting, behind, counting_of, counts, inside};
use std::alloc::{AllocError, Global};
use vd_declarations::DeclId;
use vd_forest::{Cursor, Opened};
use vd_resolved::Resolved;
use vd_walks::{Finding, find_all};

/// The declaration that a node carries, where it counts.
fn own_number(counting: Counting, number: Option<DeclId>) -> Option<DeclId>
    ensures { result ≡ number_of_itself counting number }
{
    match counting {
        Counting::Itself => number,
        _ => None,
    }
}

/// The numbers of some trees.
#[derive(Clone, Copy)]
struct Numbers;

impl Finding<Resolved, Counted, DeclId> for Numbers {
    ghost finder = { λ _. number_finder };

    fn answer(
        &self,
        _alloc: Global,
        trees: &Counted,
        node: &Opened<'_, Resolved>,
    ) -> Result<Option<DeclId>, AllocError> {
        if counts(*trees) {
            let counting = counting_of(node.form.form);
            Ok(own_number(counting, node.form.declaration))
        } else {
            Ok(None)
        }
    }

    fn down(
        &self,
        _alloc: Global,
        trees: &Counted,
        node: &Opened<'_, Resolved>,
    ) -> Result<Counted, AllocError> {
        if counts(*trees) {
            Ok(inside(counting_of(node.form.form)))
        } else {
            Ok(Counted::NoTrees)
        }
    }

    fn along(
        &self,
        _alloc: Global,
        trees: &Counted,
        _node: &Opened<'_, Resolved>,
    ) -> Result<Counted, AllocError> {
        Ok(behind(*trees))
    }
}

/// The declarations that the first tree declares, where it is a list of identifiers.
#[tactic(auto, using(crate::proofs::NumberLemmas::numbers_of_first))]
pub fn numbers_of_first(
    alloc: Global,
    trees: &Cursor<'_, Resolved>,
) -> Result<Vec<DeclId>, AllocError>
    ensures { IfOk result (λ found. (t : Table) → found.items ≡ (nth 0 (meanings t trees.now)).numbers) }
{
    find_all(alloc, trees, Counted::FirstAlone, &Numbers)
}
