//! Subtypes. (IEEE 1076, subtype declarations)

ghost use Rattle.std.specs.Prelude.{◌≡◌, ◌≤◌, ◌||◌, IfOk, length};
ghost use Rattle.vd_forest.specs.Store.{Extends};
ghost use Rattle.vd_name_entering.specs.Entered.{IsEntered};
ghost use Rattle.vd_name_rows.specs.Entering.{declaration_of, entering};
ghost use Rattle.vd_name_rows.specs.Members.{next_number};
ghost use Rattle.vd_name_rows.specs.Noting.{with_bounds};
ghost use Rattle.vd_naming.specs.Endings.{has_index_constraint as is_constrained, is_bounded as has_bounds_of, or_zero, subtype_ends as subtype_declared};
ghost use Rattle.vd_name_entering.specs.Ended.{seen_ended};
ghost use Rattle.vd_name_entering.specs.Made.{IsMade};

use crate::indications::is_bounded;
use crate::types::{declaration_or_zero, note_bounds};
use crate::words::declared_word;
use std::alloc::{AllocError, Global};
use vd_bytes::Refused;
use vd_declarations::{Class, DeclId};
use vd_forest::{Cursor, Store};
use vd_forms::Form;
use vd_name_entering::{Ended, Made, enter, finished, form_of_next};
use vd_name_rows::Names;
use vd_resolved::Resolved;

/// Whether the indication of a subtype has an index constraint.
fn has_index_constraint(parts: &Cursor<'_, Form>) -> bool
    ensures { result ≡ is_constrained parts.now }
{
    matches!(form_of_next(&parts.next().parts()), Form::IndexConstraint)
}

/// Whether a subtype has bounds, of its own or those of its mark.
fn is_narrow(names: &Names, ended: &Ended<'_, '_>) -> bool
    ensures { result ≡ (is_constrained ended.now.node.now.parts || has_bounds_of names.now ended.now.inner.now.at.named) }
{
    let inner = ended.inner;
    has_index_constraint(&ended.node.parts) || is_bounded(names, inner.at.named)
}

/// Enters a subtype.
fn enter_subtype(
    alloc: Global,
    names: &mut Names,
    ended: &Ended<'_, '_>,
) -> Result<Option<Refused>, AllocError>
    ensures { IfOk result (λ first. IsEntered names.new first
        (entering ended.now.outer.now.region
        (declaration_of (Class.Subtype (or_zero ended.now.inner.now.at.named)) (record { name = ended.now.inner.now.at.word; place = ended.now.inner.now.at.word_place }) ended.now.inner.now.at.mark)
        (with_bounds (is_constrained ended.now.node.now.parts || has_bounds_of names.old ended.now.inner.now.at.named) (next_number names.old) names.old))) }
{
    let (outer, inner) = (ended.outer, ended.inner);
    let number = names.next_number()?;
    let narrow = is_narrow(names, ended);
    note_bounds(names, narrow, DeclId::of(number))?;
    let class = Class::Subtype {
        mark: declaration_or_zero(inner.at.named),
    };
    let declared = declared_word(alloc, &class, ended, inner.at.mark)?;
    let first = enter(names, outer.region, declared)?;
    Ok(first)
}

/// Declares a subtype.
pub fn subtype_ends(
    alloc: Global,
    names: &mut Names,
    ended: &Ended<'_, '_>,
    out: &mut Store<Resolved>,
) -> Result<Made, AllocError>
    requires { ended.now.inner.now.tree ≤ length out.old }
    ensures is { IfOk result (λ made. IsMade out.new names.new made (subtype_declared (seen_ended out.old names.old ended.now))) }
    ensures extends { Extends out.old out.new }
{
    let number = names.next_number()?;
    let first = enter_subtype(alloc, names, ended)?;
    let own = Some(DeclId::of(number));
    let made = finished(ended, own, None, ended.inner.tree, first, out)?;
    Ok(made)
}
