//! Subtype indications. (IEEE 1076, subtype declarations)

ghost use Rattle.std.specs.Prelude.{◌≡◌, ◌≤◌, List, IfOk, length};
ghost use Rattle.vd_forest.specs.Forest.{Forest};
ghost use Rattle.vd_forest.specs.Store.{Extends};
ghost use Rattle.vd_resolved.specs.declared.node.Resolved.{Resolved};
ghost use Rattle.vd_naming.specs.Endings.{is_bounded as has_bounds_of, can_be_narrower as may_be_narrower, misfits as indication_misfits, indication_ends as indication_ended};
ghost use Rattle.vd_name_entering.specs.Ended.{seen_ended};
ghost use Rattle.vd_name_entering.specs.Made.{IsMade};

use std::alloc::AllocError;
use vd_declarations::{Class, DeclId};
use vd_forest::{Cursor, Store};
use vd_forms::Form;
use vd_name_entering::{Ended, Made, finished, form_of_next};
use vd_name_rows::Names;
use vd_naming::broken_if;
use vd_resolved::Resolved;
use vd_visible::types::{element_of, is_scalar};

/// Whether a type or subtype has bounds. What isn't known counts as one that has.
pub fn is_bounded(names: &Names, named: Option<DeclId>) -> bool
    ensures { result ≡ has_bounds_of names.now named }
{
    match named {
        None => true,
        Some(id) => names.note(id).is_bounded,
    }
}

/// Whether a constraint of a form may narrow a type of a class, given by this mark.
fn can_be_narrower(form: Form, names: &Names, class: &Class, named: Option<DeclId>) -> bool
    ensures { result ≡ may_be_narrower form names.now class.now named }
{
    match form {
        Form::IndexConstraint => element_of(*class).is_some() && !is_bounded(names, named),
        Form::RangeConstraint => is_scalar(*class),
        _ => true,
    }
}

/// Whether the constraint of an indication may not narrow the type of its mark.
fn misfits(names: &Names, ended: &Ended<'_, '_>) -> bool
    ensures { (store : List (Forest Resolved))
        → result ≡ indication_misfits (seen_ended store names.now ended.now) ended.now.inner.now.at.mark }
{
    let inner = ended.inner;
    match inner.at.mark {
        None => false,
        Some(mark) => {
            let class = names.class_of(DeclId::of(mark.number()));
            let form = form_of_next(&ended.node.parts);
            !can_be_narrower(form, names, &class, inner.at.named)
        }
    }
}

/// Refuses an indication whose constraint may not narrow its type.
pub fn indication_ends(
    names: &Names,
    ended: &Ended<'_, '_>,
    out: &mut Store<Resolved>,
) -> Result<Made, AllocError>
    requires { ended.now.inner.now.tree ≤ length out.old }
    ensures is { IfOk result (λ made. IsMade out.new names.now made (indication_ended (seen_ended out.old names.now ended.now))) }
    ensures extends { Extends out.old out.new }
{
    let refused = broken_if(misfits(names, ended), 307, ended.node.place);
    let made = finished(ended, None, None, ended.inner.tree, refused, out)?;
    Ok(made)
}
