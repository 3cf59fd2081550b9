//! What is refused of a tree beside its names.

ghost use Rattle.std.specs.Prelude.{◌≡◌, IfOk};
ghost use Rattle.vd_forest.specs.Forest.{Forest};
ghost use Rattle.vd_forms.specs.declared.form.Form.{Form};
ghost use Rattle.vd_resolved.specs.declared.node.Resolved.{Resolved};
ghost use Rattle.vd_name_rows.specs.Designs.{sight};
ghost use Rattle.vd_overloads.specs.Interpretations.{first_place as place_of_first};
ghost use Rattle.vd_naming.specs.Expressions.{names_or as names_or_rule, not_selecting as refused_selector, mark_of as type_of};
ghost use Rattle.vd_naming.specs.Indexes.{is_other_type as is_not_discrete};

use crate::wants::is_discrete_type;
use crate::{can_select, refused_names};
use std::alloc::{AllocError, Global};
use vd_bytes::{Place, Refused};
use vd_declarations::TypeId;
use vd_forest::Cursor;
use vd_forms::Form;
use vd_name_rows::{At, Names};

/// The first name of a tree that is refused, or a rule that the whole breaks.
pub fn names_or(
    alloc: Global,
    names: &Names,
    at: &At<'_>,
    rule: u16,
    place: Place,
    tree: &Cursor<'_, Form>,
) -> Result<Option<Refused>, AllocError>
    ensures { IfOk result (λ first. first ≡ names_or_rule rule at.now names.now place tree.now) }
{
    match refused_names(alloc, names, at, tree)? {
        Some(refused) => Ok(Some(refused)),
        None => Ok(Some(Refused { place, rule })),
    }
}

/// What is refused of a selector of this type, at the place of its first token.
pub fn not_selecting(
    names: &Names,
    at: &At<'_>,
    mark: &Option<TypeId>,
    place: Place,
) -> Option<Refused>
    ensures { (tree : Forest Form) (reading : Forest Resolved) → mark.now ≡ type_of reading → place ≡ place_of_first tree
        → result ≡ refused_selector at.now.is_matching (sight at.now names.now) tree reading }
{
    if can_select(names, at, at.is_matching, *mark) {
        return None;
    }
    Some(Refused { place, rule: 305 })
}

/// Whether there is a type, and it isn't discrete.
pub fn is_other_type(names: &Names, at: &At<'_>, mark: &Option<TypeId>) -> bool
    ensures { result ≡ is_not_discrete (sight at.now names.now) mark.now }
{
    match mark {
        None => false,
        Some(mark) => !is_discrete_type(names, at, *mark),
    }
}
