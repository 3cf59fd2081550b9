//! Expressions by what their place wants, where that is known.

ghost use Rattle.std.specs.Prelude.{◌≡◌, IfOk, OnOk};
ghost use Rattle.std.specs.Option.{option_copied};
ghost use Rattle.vd_forest.specs.Forest.{nothing, more, with_next};
ghost use Rattle.vd_forest.specs.Store.{Extends};
ghost use Rattle.vd_naming.specs.Expressions.{where_known as outcome_where_known, expression as outcome_of};
ghost use Rattle.vd_name_entering.specs.Made.{IsMade};

use crate::ranges::narrowed;
use crate::{is_absent, read_as, refused_names, wanted_at};
use std::alloc::{AllocError, Global};
use vd_forest::{Cursor, Store};
use vd_forms::Form;
use vd_name_entering::Made;
use vd_name_rows::{At, Names, Want};
use vd_naming::unresolved;
use vd_overloads::Wanted;
use vd_resolved::Resolved;

/// One tree of which something is wanted: a mark with a range, or another expression.
fn read_or_narrow(
    alloc: Global,
    names: &Names,
    at: &At<'_>,
    wanted: &Wanted,
    tree: &Cursor<'_, Form>,
    out: &mut Store<Resolved>,
) -> Result<Made, AllocError>
    requires alone { with_next tree.now nothing ≡ tree.now }
    ensures is { IfOk result (λ made. IsMade out.new names.now made (outcome_where_known (Some wanted.now) at.now names.now tree.now)) }
    ensures extends { Extends out.old out.new }
{
    if let Some(first) = tree.open() {
        if let Form::DiscreteSubtype = first.form {
            return narrowed(alloc, names, at, wanted, first.place, &first.parts, out);
        }
    }
    let read = read_as(alloc, names, at, wanted, tree, out)?;
    Ok(Made {
        tree: read.tree,
        first: read.first,
    })
}

/// One tree, where it may not be known what is wanted of it: only names are refused then.
pub fn where_known(
    alloc: Global,
    names: &Names,
    at: &At<'_>,
    wanted: Option<Wanted>,
    tree: &Cursor<'_, Form>,
    out: &mut Store<Resolved>,
) -> Result<Made, AllocError>
    requires alone { with_next tree.now nothing ≡ tree.now }
    ensures is { IfOk result (λ made. IsMade out.new names.now made (outcome_where_known wanted at.now names.now tree.now)) }
    ensures extends { Extends out.old out.new }
{
    match wanted {
        Some(wanted) => read_or_narrow(alloc, names, at, &wanted, tree, out),
        None => {
            let first = refused_names(alloc, names, at, tree)?;
            let tree = unresolved(alloc, tree, out)?;
            Ok(Made { tree, first })
        }
    }
}

/// One expression, which may be missing.
#[tactic(auto, using(crate::proofs::StayLemmas::place_stays))]
pub fn expression(
    alloc: Global,
    names: &Names,
    at: &At<'_>,
    want: Want,
    tree: &Cursor<'_, Form>,
    out: &mut Store<Resolved>,
) -> Result<Made, AllocError>
    requires alone { with_next tree.now nothing ≡ tree.now }
    ensures is { IfOk result (λ made. IsMade out.new names.now made (outcome_of want at.now names.now tree.now)) }
    ensures at { OnOk result ((outcome_of want at.now names.now tree.now).at ≡ at.now) }
    ensures extends { Extends out.old out.new }
{
    if is_absent(tree) {
        let tree = unresolved(alloc, tree, out)?;
        return Ok(Made { tree, first: None });
    }
    let wanted = wanted_at(names, at, want);
    where_known(alloc, names, at, wanted, tree, out)
}
