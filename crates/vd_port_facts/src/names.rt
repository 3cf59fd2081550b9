//! What trees name.

ghost use Rattle.std.specs.Prelude.{◌≡◌, IfOk};
ghost use Rattle.vd_meaning.specs.Tables.{Table};
ghost use Rattle.vd_port_facts.specs.Reading.{named_first};
ghost use Rattle.vd_port_facts.specs.Seeking.{inside_names as names_inside, name_seeker, named_by as name_of_form};

use std::alloc::{AllocError, Global};
use vd_declarations::DeclId;
use vd_forest::{Cursor, Opened};
use vd_forms::Form;
use vd_function_names::counting::{Counted, behind, counts};
use vd_resolved::Resolved;
use vd_walks::{Finding, find_all};

/// The declaration that a node names itself.
fn named_by(form: Form, number: Option<DeclId>) -> Option<DeclId>
    ensures { result ≡ name_of_form form number }
{
    match form {
        Form::Identifier => number,
        _ => None,
    }
}

/// Nothing is named inside an identifier.
fn inside_names(form: Form) -> Counted
    ensures { result ≡ names_inside form }
{
    match form {
        Form::Identifier => Counted::NoTrees,
        _ => Counted::Each,
    }
}

/// The declarations that trees name.
#[derive(Clone, Copy)]
struct NameSeeker;

impl Finding<Resolved, Counted, DeclId> for NameSeeker {
    ghost finder = { λ _. name_seeker };

    fn answer(
        &self,
        _alloc: Global,
        trees: &Counted,
        node: &Opened<'_, Resolved>,
    ) -> Result<Option<DeclId>, AllocError> {
        if counts(*trees) {
            Ok(named_by(node.form.form, node.form.declaration))
        } else {
            Ok(None)
        }
    }

    fn down(
        &self,
        _alloc: Global,
        trees: &Counted,
        node: &Opened<'_, Resolved>,
    ) -> Result<Counted, AllocError> {
        if counts(*trees) {
            Ok(inside_names(node.form.form))
        } else {
            Ok(Counted::NoTrees)
        }
    }

    fn along(
        &self,
        _alloc: Global,
        trees: &Counted,
        _node: &Opened<'_, Resolved>,
    ) -> Result<Counted, AllocError> {
        Ok(behind(*trees))
    }
}

/// The declarations that the first tree names, in the order of the text.
#[tactic(auto, using(crate::proofs::NameLemmas::names_found))]
pub(crate) fn names_of_first(
    alloc: Global,
    trees: &Cursor<'_, Resolved>,
) -> Result<Vec<DeclId>, AllocError>
    ensures { IfOk result (λ found. (t : Table) → found.items ≡ named_first t trees.now) }
{
    find_all(alloc, trees, Counted::FirstAlone, &NameSeeker)
}
