//! Generic maps and port maps.

ghost use Rattle.std.specs.Prelude.{◌≡◌, false, IfOk};
ghost use Rattle.vd_forest.specs.Forest.{Forest};
ghost use Rattle.vd_forest.specs.Store.{Extends};
ghost use Rattle.vd_forms.specs.declared.form.Form.{Form as AnyForm};
ghost use Rattle.vd_naming.specs.Naming.{done};
ghost use Rattle.vd_name_resolution.specs.Done.{IsDone};
ghost use Rattle.vd_name_resolution.specs.Kinds.{kind_of as step_kind, goes_inside as walks_parts};
ghost use Rattle.vd_name_resolution.specs.declared.kinds.Kind.TheVariants as kind;

use std::alloc::{AllocError, Global};
use vd_forest::{Opened, Store};
use vd_forms::Form;
use vd_name_entering::Made;
use vd_name_maps::generic_map;
use vd_name_ports::port_map;
use vd_name_rows::{At, Names, Step};
use vd_resolved::Resolved;

/// A tree that is a generic map or a port map.
pub fn read_map<'a>(
    alloc: Global,
    names: &mut Names,
    at: &mut At<'a>,
    step: Step,
    node: &Opened<'a, Form>,
    out: &mut Store<Resolved>,
) -> Result<Made, AllocError>
    ensures is { (whole : Forest AnyForm) → step_kind step ≡ kind.Map → walks_parts step node.now.form ≡ false → IfOk result (λ made.
        IsDone out.new names.new at.new made
        (done whole step node.now.form node.now.text.now node.now.place node.now.parts at.old names.old)) }
    ensures extends { Extends out.old out.new }
{
    match step {
        Step::Generics => Ok(generic_map(alloc, names, at, node, out)?),
        _ => Ok(port_map(alloc, names, at, node, out)?),
    }
}
