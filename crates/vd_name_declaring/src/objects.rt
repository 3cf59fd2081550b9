//! Objects. (IEEE 1076, object declarations; interface declarations)

ghost use Rattle.std.specs.Prelude.{◌≤◌, IfOk, length};
ghost use Rattle.vd_forest.specs.Store.{Extends};
ghost use Rattle.vd_name_rows.specs.Entering.{words_of};
ghost use Rattle.vd_name_entering.specs.Entered.{IsEntered};
ghost use Rattle.vd_naming.specs.Endings.{entering_objects, objects_end as objects_declared};
ghost use Rattle.vd_name_entering.specs.Ended.{seen_ended};
ghost use Rattle.vd_name_entering.specs.Made.{IsMade};

use crate::formals::note_formals_of;
use std::alloc::{AllocError, Global};
use vd_bytes::Refused;
use vd_declarations::{Class, RegionId, TypeId};
use vd_forest::{Cursor, Store};
use vd_forms::Form;
use vd_name_entering::{Ended, Made, enter_words, finished};
use vd_name_rows::Names;
use vd_resolved::Resolved;

/// Enters objects of a class and a type, with the names of a list, declared by a form with these parts.
pub fn enter_objects(
    alloc: Global,
    names: &mut Names,
    region: RegionId,
    class: &Class,
    form: Form,
    parts: &Cursor<'_, Form>,
    mark: &Option<TypeId>,
    list: &Cursor<'_, Form>,
) -> Result<Option<Refused>, AllocError>
    ensures { IfOk result (λ first. IsEntered names.new first
        (entering_objects region class.now form parts.now mark.now (words_of list.now) names.old)) }
{
    let number = names.next_number()?;
    let first = enter_words(alloc, names, region, class, mark, list)?;
    note_formals_of(names, class, form, parts, number, list)?;
    Ok(first)
}

/// Declares objects of a class, whose names stand in the part of a number, with the type at hand.
pub fn objects_end(
    alloc: Global,
    names: &mut Names,
    class: &Class,
    number: u32,
    ended: &Ended<'_, '_>,
    out: &mut Store<Resolved>,
) -> Result<Made, AllocError>
    requires { ended.now.inner.now.tree ≤ length out.old }
    ensures is { IfOk result (λ made. IsMade out.new names.new made
        (objects_declared class.now number (seen_ended out.old names.old ended.now))) }
    ensures extends { Extends out.old out.new }
{
    let (node, outer, inner) = (ended.node, ended.outer, ended.inner);
    let list = node.parts.skip(number).parts();
    let first = enter_objects(
        alloc,
        names,
        outer.region,
        class,
        node.form,
        &node.parts,
        &inner.at.mark,
        &list,
    )?;
    let made = finished(ended, None, None, inner.tree, first, out)?;
    Ok(made)
}
