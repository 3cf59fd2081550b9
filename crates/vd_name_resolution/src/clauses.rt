//! Names in clauses, of units, and of what is instantiated.

ghost use Rattle.std.specs.Prelude.{◌≡◌, false, IfOk};
ghost use Rattle.vd_forest.specs.Store.{Extends};
ghost use Rattle.vd_naming.specs.Naming.{done};
ghost use Rattle.vd_name_resolution.specs.Done.{IsDone};
ghost use Rattle.vd_name_resolution.specs.Kinds.{kind_of as step_kind, goes_inside as walks_parts};
ghost use Rattle.vd_name_resolution.specs.declared.kinds.Kind.TheVariants as kind;

use std::alloc::{AllocError, Global};
use vd_forest::{Opened, Store};
use vd_forms::Form;
use vd_name_clauses::{
    context_name, element_names, entity_word, generic_function, generic_package,
    instance_architecture, instance_entity, library_word, use_name,
};
use vd_name_entering::{Made, Units};
use vd_name_rows::{At, Names, Step};
use vd_resolved::Resolved;

/// A tree that is a name in a clause, of a unit, or of what is instantiated.
pub fn read_clause<'a>(
    alloc: Global,
    names: &mut Names,
    units: &Units<'_>,
    at: &mut At<'a>,
    step: Step,
    node: &Opened<'a, Form>,
    out: &mut Store<Resolved>,
) -> Result<Made, AllocError>
    ensures is { step_kind step ≡ kind.Clause → walks_parts step node.now.form ≡ false → IfOk result (λ made.
        IsDone out.new names.new at.new made
        (done units.now step node.now.form node.now.text.now node.now.place node.now.parts at.old names.old)) }
    ensures extends { Extends out.old out.new }
{
    match step {
        Step::LibraryWord => Ok(library_word(alloc, names, at, node, out)?),
        Step::UseName => Ok(use_name(alloc, names, at, node, out)?),
        Step::ContextName => Ok(context_name(alloc, names, at, node, out)?),
        Step::EntityWord => Ok(entity_word(alloc, names, at, node, out)?),
        Step::ElementNames => Ok(element_names(alloc, names, at, node, out)?),
        Step::InstanceEntity => Ok(instance_entity(alloc, names, at, node, out)?),
        Step::InstanceArchitecture => {
            Ok(instance_architecture(alloc, names, units, at, node, out)?)
        }
        Step::GenericPackage => Ok(generic_package(alloc, names, at, node, out)?),
        _ => Ok(generic_function(alloc, names, at, node, out)?),
    }
}
