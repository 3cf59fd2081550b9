//! What a node breaks of all groups.

ghost use Rattle.std.specs.Prelude.{◌≡◌, ◌∷◌, List, OnOk};
ghost use Rattle.vd_known_designs.specs.Designs.{IsReady, Knows};
ghost use Rattle.vd_known_indications.specs.Places.{Finds};
ghost use Rattle.vd_port_modes.specs.Source.{design_in};
ghost use Rattle.vd_value_rules.specs.Designs.{Design};
ghost use Rattle.vd_value_rules.specs.Knowledge.{Known};
ghost use Rattle.vd_accepting.specs.Walking.{asked};

use std::alloc::{AllocError, Global};
use vd_aggregate_rules::aggregate_refusals;
use vd_bound_rules::bound_refusals;
use vd_choice_rules::choice_refusals;
use vd_forest::Opened;
use vd_instance_rules::instance_refusals;
use vd_known_designs::KnownDesign;
use vd_known_indications::Surroundings;
use vd_port_facts::PortFacts;
use vd_port_modes::Interfaces;
use vd_resolved::Resolved;
use vd_static_rules::{static_refusals, type_refusals};
use vd_value_rules::{Firsts, together};

/// The first refusals of a node.
pub(crate) fn refusals(
    design: &mut KnownDesign<'_, '_>,
    interfaces: &Interfaces<'_>,
    facts: &PortFacts<'_>,
    alloc: Global,
    around: &Surroundings,
    node: &Opened<'_, Resolved>,
) -> Result<Firsts, AllocError>
    requires ready { IsReady design.old }
    requires same { facts.now ≡ interfaces.now }
    ensures finds { Finds asked (design_in interfaces.now) design.old around.now node.now result }
    ensures knows { (d : Design) (ks : List Known) → Knows d design.old ks → OnOk result (Knows d design.new ks) }
{
    let choices = choice_refusals(design, interfaces, alloc, around, node)?;
    let aggregates = aggregate_refusals(design, interfaces, alloc, around, node)?;
    let statics = static_refusals(design, interfaces, alloc, around, node)?;
    let bounds = bound_refusals(design, interfaces, alloc, around, node)?;
    let instances = instance_refusals(design, interfaces, facts, alloc, around, node)?;
    let types = type_refusals(design, interfaces, alloc, around, node)?;
    let last = together(instances, types);
    let with_bounds = together(bounds, last);
    let with_statics = together(statics, with_bounds);
    let with_aggregates = together(aggregates, with_statics);
    Ok(together(choices, with_aggregates))
}
