//! The end of any form.

ghost use Rattle.std.specs.Prelude.{◌≡◌, ◌≤◌, IfOk, length};
ghost use Rattle.vd_forest.specs.Store.{Extends};
ghost use Rattle.vd_name_entering.specs.Ended.{seen_ended};
ghost use Rattle.vd_name_entering.specs.Made.{IsMade};
ghost use Rattle.vd_naming.specs.Naming.{ended as outcome_of};

use crate::end_kinds::{Kind, kind_of};
use crate::functions::end_function;
use crate::instances::end_instance;
use crate::nodes::end_node;
use crate::objects::end_object;
use crate::units::end_unit;
use crate::views::end_view;
use std::alloc::{AllocError, Global};
use vd_forest::Store;
use vd_name_entering::{Ended, Made, Units};
use vd_name_rows::{Ending, Names};
use vd_resolved::Resolved;

/// The end of a form with this ending: its tree, and what it declares. The place behind it is `place_behind`.
pub fn end(
    alloc: Global,
    names: &mut Names,
    units: &Units<'_>,
    ending: Ending,
    ended: &Ended<'_, '_>,
    out: &mut Store<Resolved>,
) -> Result<Made, AllocError>
    requires { ended.now.inner.now.tree ≤ length out.old }
    ensures is { IfOk result (λ made. IsMade out.new names.new made (outcome_of units.now ending (seen_ended out.old names.old ended.now))) }
    ensures extends { Extends out.old out.new }
{
    match kind_of(ending) {
        Kind::Node => end_node(names, ending, ended, out),
        Kind::Object => end_object(alloc, names, ending, ended, out),
        Kind::View => end_view(alloc, names, ending, ended, out),
        Kind::Function => end_function(alloc, names, ending, ended, out),
        Kind::Unit => end_unit(alloc, names, units, ending, ended, out),
        Kind::Instance => end_instance(alloc, names, ending, ended, out),
    }
}
