//! Ends of forms that declare objects, types or subtypes.

ghost use Rattle.std.specs.Prelude.{◌≡◌, ◌≤◌, IfOk, length};
ghost use Rattle.vd_forest.specs.Forest.{Forest};
ghost use Rattle.vd_forest.specs.Store.{Extends};
ghost use Rattle.vd_forms.specs.declared.form.Form.{Form as AnyForm};
ghost use Rattle.vd_name_entering.specs.Ended.{seen_ended};
ghost use Rattle.vd_name_entering.specs.Made.{IsMade};
ghost use Rattle.vd_naming.specs.Naming.{ended as outcome_of};
ghost use Rattle.vd_name_resolution.specs.EndKinds.{kind_of as ending_kind};
ghost use Rattle.vd_name_resolution.specs.declared.end_kinds.Kind.TheVariants as kind;

use std::alloc::{AllocError, Global};
use vd_forest::Store;
use vd_name_declaring::{objects_end, ports_end, subtype_ends, type_ends};
use vd_name_entering::{Ended, Made, finished};
use vd_name_rows::{Ending, Names};
use vd_resolved::Resolved;

/// The end of a form that declares objects, a type or a subtype.
pub fn end_object(
    alloc: Global,
    names: &mut Names,
    ending: Ending,
    ended: &Ended<'_, '_>,
    out: &mut Store<Resolved>,
) -> Result<Made, AllocError>
    requires { ended.now.inner.now.tree ≤ length out.old }
    ensures is { (whole : Forest AnyForm) → ending_kind ending ≡ kind.Object → IfOk result (λ made.
        IsMade out.new names.new made (outcome_of whole ending (seen_ended out.old names.old ended.now))) }
    ensures extends { Extends out.old out.new }
{
    match ending {
        Ending::Objects {
            object,
            names: number,
        } => {
            let class = object.class();
            objects_end(alloc, names, &class, number, ended, out)
        }
        Ending::AllPorts => ports_end(alloc, names, ended, out),
        Ending::NewType => type_ends(alloc, names, ended, out),
        Ending::NewSubtype => subtype_ends(alloc, names, ended, out),
        _ => finished(ended, None, None, ended.inner.tree, None, out),
    }
}
