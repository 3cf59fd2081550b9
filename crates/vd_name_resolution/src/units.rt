//! Ends of forms that declare units.

ghost use Rattle.std.specs.Prelude.{◌≡◌, ◌≤◌, IfOk, length};
ghost use Rattle.vd_forest.specs.Store.{Extends};
ghost use Rattle.vd_name_entering.specs.Ended.{seen_ended};
ghost use Rattle.vd_name_entering.specs.Made.{IsMade};
ghost use Rattle.vd_naming.specs.Naming.{ended as outcome_of};
ghost use Rattle.vd_name_resolution.specs.EndKinds.{kind_of as ending_kind};
ghost use Rattle.vd_name_resolution.specs.declared.end_kinds.Kind.TheVariants as kind;

use std::alloc::{AllocError, Global};
use vd_forest::Store;
use vd_name_entering::{Ended, Made, Units, finished};
use vd_name_rows::{Ending, Names};
use vd_name_units::{
    architecture_ends, context_ends, entity_ends, package_body_ends, package_ends,
};
use vd_resolved::Resolved;

/// The end of a form that declares a unit.
pub fn end_unit(
    alloc: Global,
    names: &mut Names,
    units: &Units<'_>,
    ending: Ending,
    ended: &Ended<'_, '_>,
    out: &mut Store<Resolved>,
) -> Result<Made, AllocError>
    requires { ended.now.inner.now.tree ≤ length out.old }
    ensures is { ending_kind ending ≡ kind.Unit → IfOk result (λ made.
        IsMade out.new names.new made (outcome_of units.now ending (seen_ended out.old names.old ended.now))) }
    ensures extends { Extends out.old out.new }
{
    match ending {
        Ending::NewEntity => entity_ends(alloc, names, ended, out),
        Ending::NewArchitecture => architecture_ends(alloc, names, ended, out),
        Ending::NewPackage => package_ends(alloc, names, units, ended, out),
        Ending::PackageBodyEnds => package_body_ends(alloc, names, ended, out),
        Ending::NewContext => context_ends(alloc, names, ended, out),
        _ => finished(ended, None, None, ended.inner.tree, None, out),
    }
}
