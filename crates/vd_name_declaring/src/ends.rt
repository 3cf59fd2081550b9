//! Ends at which nothing is declared.

ghost use Rattle.std.specs.Prelude.{◌≤◌, IfOk, length};
ghost use Rattle.vd_forest.specs.Store.{Extends};
ghost use Rattle.vd_naming.specs.Endings.{nothing_ends as nothing_declared, first_ends as first_declared, typed_ends as typed_node};
ghost use Rattle.vd_naming.specs.Functions.{clause_ends as clause_ended};
ghost use Rattle.vd_name_entering.specs.Ended.{seen_ended};
ghost use Rattle.vd_name_entering.specs.Made.{IsMade};

use std::alloc::AllocError;
use vd_declarations::DeclId;
use vd_forest::Store;
use vd_name_entering::{Ended, Made, finished};
use vd_name_rows::Names;
use vd_resolved::Resolved;

/// A form at whose end nothing is declared.
pub fn nothing_ends(
    names: &Names,
    ended: &Ended<'_, '_>,
    out: &mut Store<Resolved>,
) -> Result<Made, AllocError>
    requires { ended.now.inner.now.tree ≤ length out.old }
    ensures is { IfOk result (λ made. IsMade out.new names.now made (nothing_declared (seen_ended out.old names.now ended.now))) }
    ensures extends { Extends out.old out.new }
{
    let made = finished(ended, None, None, ended.inner.tree, None, out)?;
    Ok(made)
}

/// A loop or generate, whose node gets its parameter.
pub fn first_ends(
    names: &Names,
    ended: &Ended<'_, '_>,
    out: &mut Store<Resolved>,
) -> Result<Made, AllocError>
    requires { ended.now.inner.now.tree ≤ length out.old }
    ensures is { IfOk result (λ made. IsMade out.new names.now made (first_declared (seen_ended out.old names.now ended.now))) }
    ensures extends { Extends out.old out.new }
{
    let inside = ended.inside;
    let parameter = DeclId::of(inside.next);
    let made = finished(ended, Some(parameter), None, ended.inner.tree, None, out)?;
    Ok(made)
}

/// A node that gets the type at hand.
pub fn typed_ends(
    names: &Names,
    ended: &Ended<'_, '_>,
    out: &mut Store<Resolved>,
) -> Result<Made, AllocError>
    requires { ended.now.inner.now.tree ≤ length out.old }
    ensures is { IfOk result (λ made. IsMade out.new names.now made (typed_node (seen_ended out.old names.now ended.now))) }
    ensures extends { Extends out.old out.new }
{
    let inner = ended.inner;
    let made = finished(ended, None, inner.at.mark, inner.tree, None, out)?;
    Ok(made)
}

/// A generic clause.
pub fn clause_ends(
    names: &Names,
    ended: &Ended<'_, '_>,
    out: &mut Store<Resolved>,
) -> Result<Made, AllocError>
    requires { ended.now.inner.now.tree ≤ length out.old }
    ensures is { IfOk result (λ made. IsMade out.new names.now made (clause_ended (seen_ended out.old names.now ended.now))) }
    ensures extends { Extends out.old out.new }
{
    let made = finished(ended, None, None, ended.inner.tree, None, out)?;
    Ok(made)
}
