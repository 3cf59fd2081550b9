//! What operands and elements in brackets are, as far as it hangs on their form alone.

ghost use Rattle.std.specs.Prelude.{◌≡◌};
ghost use Rattle.vd_meaning.specs.Brackets.{is_positional as positional};
ghost use Rattle.vd_meaning.specs.Facets.{nth};
ghost use Rattle.vd_meaning.specs.Kinds.{kind};
ghost use Rattle.vd_meaning.specs.Meanings.{meanings};
ghost use Rattle.vd_meaning.specs.Tables.{Table, same_type as are_same};
ghost use Rattle.vd_known_lengths.specs.Holding.{holding};
ghost use Rattle.vd_value_rules.specs.Standings.{is_one_element as one_element};

use vd_declarations::TypeId;
use vd_forest::Cursor;
use vd_forms::Form;
use vd_resolved::Resolved;

/// Whether a node is what a part of its is.
#[derive(Clone, Copy, Debug)]
pub enum Holding {
    /// Nothing stands there.
    Nothing,
    /// What its first part is, for all others.
    FirstForOthers,
    /// What its first part is.
    First,
    /// What its second part is, by the choices in the first.
    Second,
    /// It is something itself.
    Own,
}

/// Whether nodes of a form are what a part is.
fn holding_of(form: Form) -> Holding
    ensures { result ≡ holding (kind form) }
{
    match form {
        Form::Absent => Holding::Nothing,
        Form::OthersAssociation => Holding::FirstForOthers,
        Form::UnconstrainedIndex => Holding::First,
        Form::Association => Holding::Second,
        _ => Holding::Own,
    }
}

/// The type of the first tree.
pub fn mark_of(trees: &Cursor<'_, Resolved>) -> Option<TypeId>
    ensures { (t : Table) → result ≡ (nth 0 (meanings t trees.now)).mark }
{
    let mut rest = trees.fork();
    while let Some(first) = rest.open() {
        match holding_of(first.form.form) {
            Holding::Nothing => return None,
            Holding::FirstForOthers | Holding::First => rest = first.parts,
            Holding::Second => rest = first.parts.skip(1),
            Holding::Own => return first.form.mark,
        }
    }
    None
}

/// Whether the first tree, as an element in brackets, stands for itself alone.
pub fn is_positional(trees: &Cursor<'_, Resolved>) -> bool
    ensures { (t : Table) → result ≡ positional (nth 0 (meanings t trees.now)).association }
{
    let mut rest = trees.fork();
    while let Some(first) = rest.open() {
        match holding_of(first.form.form) {
            Holding::FirstForOthers | Holding::Second => return false,
            Holding::First => rest = first.parts,
            Holding::Nothing | Holding::Own => return true,
        }
    }
    true
}

/// Whether the trees are one element in brackets, which stands for itself alone.
pub fn is_one_element(trees: &Cursor<'_, Resolved>) -> bool
    ensures { (t : Table) → result ≡ one_element (meanings t trees.now) }
{
    let Some(first) = trees.open() else {
        return false;
    };
    if first.next.form().is_some() {
        return false;
    }
    is_positional(trees)
}

/// Whether two types are one.
pub fn same_type(left: Option<TypeId>, right: Option<TypeId>) -> bool
    ensures { result ≡ are_same left right }
{
    match (left, right) {
        (Some(left), Some(right)) => left.number() == right.number(),
        _ => false,
    }
}
