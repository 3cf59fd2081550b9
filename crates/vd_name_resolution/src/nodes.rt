//! Ends of forms that declare nothing.

ghost use Rattle.std.specs.Prelude.{◌≡◌, ◌≤◌, IfOk, length};
ghost use Rattle.vd_forest.specs.Forest.{Forest};
ghost use Rattle.vd_forest.specs.Store.{Extends};
ghost use Rattle.vd_forms.specs.declared.form.Form.{Form as AnyForm};
ghost use Rattle.vd_name_entering.specs.Ended.{seen_ended};
ghost use Rattle.vd_name_entering.specs.Made.{IsMade};
ghost use Rattle.vd_naming.specs.Naming.{ended as outcome_of};
ghost use Rattle.vd_name_resolution.specs.EndKinds.{kind_of as ending_kind};
ghost use Rattle.vd_name_resolution.specs.declared.end_kinds.Kind.TheVariants as kind;

use std::alloc::AllocError;
use vd_forest::Store;
use vd_name_declaring::{clause_ends, first_ends, indication_ends, nothing_ends, typed_ends};
use vd_name_entering::{Ended, Made};
use vd_name_rows::{Ending, Names};
use vd_name_units::unit_ends;
use vd_resolved::Resolved;

/// The end of a form that declares nothing.
pub fn end_node(
    names: &Names,
    ending: Ending,
    ended: &Ended<'_, '_>,
    out: &mut Store<Resolved>,
) -> Result<Made, AllocError>
    requires { ended.now.inner.now.tree ≤ length out.old }
    ensures is { (whole : Forest AnyForm) → ending_kind ending ≡ kind.Node → IfOk result (λ made.
        IsMade out.new names.now made (outcome_of whole ending (seen_ended out.old names.now ended.now))) }
    ensures extends { Extends out.old out.new }
{
    match ending {
        Ending::First => first_ends(names, ended, out),
        Ending::Typed => typed_ends(names, ended, out),
        Ending::Indicated => indication_ends(names, ended, out),
        Ending::ClauseEnds => clause_ends(names, ended, out),
        Ending::UnitEnds => unit_ends(names, ended, out),
        _ => nothing_ends(names, ended, out),
    }
}
