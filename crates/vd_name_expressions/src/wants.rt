//! What the place of an expression wants, and what fits it.

ghost use Rattle.std.specs.Prelude.{◌≡◌};
ghost use Rattle.vd_name_rows.specs.Designs.{sight};
ghost use Rattle.vd_naming.specs.Expressions.{wanted_at as wanted_of, with_mark, index_type as type_of_index, discrete_class as class_is_discrete, fits_wanted as type_fits, is_absent as is_missing, is_logical as is_logical_type, selects as selects_by, can_select as type_selects, mark_declared as declared_mark, last_declaration as last_declared};

use vd_declarations::{DeclId, TypeId};
use vd_forest::Cursor;
use vd_forms::Form;
use vd_name_rows::{At, Names, Want};
use vd_overloads::Wanted;
use vd_predefined::numbers::{BIT, STD_ULOGIC};
use vd_resolved::Resolved;
use vd_visible::types::{element_of, index_of, is_discrete};

/// The type of the indexes of a type.
fn index_type(names: &Names, at: &At<'_>, mark: Option<TypeId>) -> Option<TypeId>
    ensures { result ≡ type_of_index (sight at.now names.now) mark }
{
    match mark {
        None => None,
        Some(mark) => index_of(names.class_of(DeclId::of(mark.number()))),
    }
}

/// What the place of an expression wants of it, where that is known.
pub fn wanted_at(names: &Names, at: &At<'_>, want: Want) -> Option<Wanted>
    ensures { result ≡ wanted_of want at.now names.now }
{
    match want {
        Want::AtHand => at.mark.map(Wanted::OfType),
        Want::Given(number) => Some(Wanted::OfType(TypeId::of(number))),
        Want::Condition => Some(Wanted::Condition),
        Want::Free => Some(Wanted::Free),
        Want::Choice => at.selector.map(Wanted::Choice),
        Want::Range => at.mark.map(Wanted::Range),
        Want::Index => index_type(names, at, at.mark).map(Wanted::DiscreteRange),
        Want::AnyRange => Some(Wanted::AnyDiscreteRange),
    }
}

/// Whether a type is discrete.
pub fn is_discrete_type(names: &Names, at: &At<'_>, mark: TypeId) -> bool
    ensures { result ≡ class_is_discrete (sight at.now names.now) mark }
{
    is_discrete(names.class_of(DeclId::of(mark.number())))
}

/// Whether a mark with a range is what is wanted, where the mark has this type.
pub fn fits_wanted(names: &Names, at: &At<'_>, wanted: &Wanted, mark: TypeId) -> bool
    ensures { result ≡ type_fits wanted.now (sight at.now names.now) mark }
{
    match wanted {
        Wanted::DiscreteRange(own) | Wanted::Choice(own) => {
            is_discrete_type(names, at, mark) && mark.number() == own.number()
        }
        Wanted::AnyDiscreteRange => is_discrete_type(names, at, mark),
        _ => false,
    }
}

/// Whether a part is missing.
pub fn is_absent(part: &Cursor<'_, Form>) -> bool
    ensures { result ≡ is_missing part.now }
{
    match part.form() {
        None | Some(Form::Absent) => true,
        Some(_) => false,
    }
}

/// Whether values of a type can select, by `?=` or by `=`.
fn selects(names: &Names, at: &At<'_>, matching: bool, mark: TypeId) -> bool
    ensures { result ≡ selects_by matching (sight at.now names.now) mark }
{
    if matching {
        mark.number() == BIT || mark.number() == STD_ULOGIC
    } else {
        is_discrete_type(names, at, mark)
    }
}

/// Whether values of a type, or arrays of them, can select.
pub fn can_select(names: &Names, at: &At<'_>, matching: bool, mark: Option<TypeId>) -> bool
    ensures { result ≡ type_selects matching (sight at.now names.now) mark }
{
    let Some(mark) = mark else {
        return true;
    };
    if selects(names, at, matching, mark) {
        return true;
    }
    match element_of(names.class_of(DeclId::of(mark.number()))) {
        None => false,
        Some(element) => selects(names, at, matching, element),
    }
}

/// The declaration that the last of some trees names.
#[tactic(auto, using(crate::proofs::LastLemmas::last_is))]
fn last_declaration(trees: &Cursor<'_, Resolved>) -> Option<DeclId>
    ensures { result ≡ last_declared trees.now }
{
    let mut last = None;
    let mut left = trees.fork();
    while let Some(node) = left.form() {
        last = node.declaration;
        left = left.next();
    }
    last
}

/// The declaration that a name means which had to be a mark, at its last piece.
pub fn mark_declared(tree: &Cursor<'_, Resolved>) -> Option<DeclId>
    ensures { result ≡ declared_mark tree.now }
{
    last_declaration(&tree.parts())
}
