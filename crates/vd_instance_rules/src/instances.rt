//! The rules of port maps, as a group.

ghost use Rattle.std.specs.Prelude.{◌≡◌, ◌∷◌, IfOk, List, OnOk, slice_index_or};
ghost use Rattle.vd_instance_rules.specs.Instances.{IsInstance, design_at, port_map_at};
ghost use Rattle.vd_known_designs.specs.Designs.{IsReady, Knows};
ghost use Rattle.vd_known_indications.specs.Places.{Finds};
ghost use Rattle.vd_port_modes.specs.Source.{design_in};
ghost use Rattle.vd_value_rules.specs.Groups.{firsts_of, instances};
ghost use Rattle.vd_value_rules.specs.Actuals.{port_map_broken};
ghost use Rattle.vd_value_rules.specs.Designs.{Design};
ghost use Rattle.vd_value_rules.specs.Knowledge.{Known};

use crate::associations::associations_refusals;
use crate::instance::{Instance, instance_of};
use crate::missing::missing_refusals;
use std::alloc::{AllocError, Global};
use vd_declarations::DeclId;
use vd_forest::{Cursor, Opened};
use vd_forms::Form;
use vd_known_designs::KnownDesign;
use vd_known_indications::Surroundings;
use vd_operations::tables::parameters_of;
use vd_port_associations::port_associations;
use vd_port_facts::PortFacts;
use vd_port_modes::Interfaces;
use vd_resolved::Resolved;
use vd_value_rules::{Firsts, nothing_refused, together};

/// What a port map with these elements breaks, for these ports.
fn port_map_refusals(
    design: &mut KnownDesign<'_, '_>,
    instance: &Instance<'_, '_>,
    alloc: Global,
    ports: &[DeclId],
    elements: &Cursor<'_, Resolved>,
) -> Result<Firsts, AllocError>
    requires ready { IsReady design.old }
    requires instance { IsInstance instance.now }
    ensures refused { (k : Known) (ks : List Known) → Knows (design_at instance.now) design.old (k ∷ ks)
        → IfOk result (λ x. x ≡ firsts_of (port_map_broken (design_at instance.now) k.env (port_map_at instance.now) ports.now elements.now)) }
    ensures knows { (d : Design) (ks : List Known) → Knows d design.old ks → OnOk result (Knows d design.new ks) }
{
    let associations = port_associations(alloc, instance.interfaces, ports, elements)?;
    let broken = associations_refusals(design, instance, alloc, &associations)?;
    let missing = missing_refusals(instance, alloc, ports, &associations, elements)?;
    Ok(together(broken, missing))
}

/// What the port map of an instance breaks.
pub fn instance_refusals(
    design: &mut KnownDesign<'_, '_>,
    interfaces: &Interfaces<'_>,
    facts: &PortFacts<'_>,
    alloc: Global,
    around: &Surroundings,
    node: &Opened<'_, Resolved>,
) -> Result<Firsts, AllocError>
    requires ready { IsReady design.old }
    requires same { facts.now ≡ interfaces.now }
    ensures finds { Finds instances (design_in interfaces.now) design.old around.now node.now result }
    ensures knows { (d : Design) (ks : List Known) → Knows d design.old ks → OnOk result (Knows d design.new ks) }
{
    match node.form.form {
        Form::EntityInstantiation => {
            let instance = instance_of(alloc, interfaces, facts, around.label, node)?;
            let ports = parameters_of(interfaces.declarations(), instance.entity.number());
            let elements = node.parts.skip(3).parts();
            port_map_refusals(design, &instance, alloc, ports, &elements)
        }
        _ => Ok(nothing_refused()),
    }
}
