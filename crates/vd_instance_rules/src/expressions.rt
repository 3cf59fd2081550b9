//! Expressions that aren't static as actuals of ports.

ghost use Rattle.std.specs.Prelude.{◌≡◌, ◌&&◌, ◌∷◌, IfOk, List, OnOk, not, ℕ};
ghost use Rattle.vd_environments.specs.Environments.{is_static as is_known_static};
ghost use Rattle.vd_value_rules.specs.Indicated.{static_of};
ghost use Rattle.vd_instance_rules.specs.Instances.{IsInstance, design_at, port_map_at, read_association};
ghost use Rattle.vd_known_designs.specs.Designs.{IsReady, Knows};
ghost use Rattle.vd_port_associations.specs.Numbers.{Holds};
ghost use Rattle.vd_value_rules.specs.Groups.{firsts_of};
ghost use Rattle.vd_value_rules.specs.Actuals.{expression_broken, has_composite_generic as names_composite_generic, is_refused_later, is_scalar as is_scalar_subtype, names_composite as is_composite_named};
ghost use Rattle.vd_value_rules.specs.Choices.{first_meaning};
ghost use Rattle.vd_value_rules.specs.Designs.{Design, is_listed};
ghost use Rattle.vd_value_rules.specs.Knowledge.{Known};

use crate::firsts::firsts_if;
use crate::instance::Instance;
use std::alloc::{AllocError, Global};
use vd_declarations::DeclId;
use vd_forest::Cursor;
use vd_known_designs::KnownDesign;
use vd_known_indications::node;
use vd_port_associations::associations::PortAssociation;
use vd_port_associations::numbers::NumberSet;
use vd_resolved::Resolved;
use vd_static_values::Sense;
use vd_trees::Revision;
use vd_value_rules::subtypes::scalar;
use vd_value_rules::{Firsts, nothing_refused};

/// Whether a declaration has a scalar subtype.
fn is_scalar(design: &KnownDesign<'_, '_>, number: DeclId) -> bool
    requires ready { IsReady design.now }
    ensures { (d : Design) (k : Known) (ks : List Known) → Knows d design.now (k ∷ ks) → result ≡ is_scalar_subtype (k.env.denotes number).subtype }
{
    let own = design.table.own(number.number());
    scalar(&design.table.subtypes.store().cursor(own)).is_some()
}

/// Whether a declaration is a generic that isn't scalar.
fn is_composite(design: &KnownDesign<'_, '_>, generics: &NumberSet, number: DeclId) -> bool
    requires ready { IsReady design.now }
    ensures { (d : Design) (k : Known) (ks : List Known) (gs : List ℕ) → Knows d design.now (k ∷ ks) → Holds generics.now gs
        → result ≡ (is_listed number gs && not (is_scalar_subtype (k.env.denotes number).subtype)) }
{
    generics.has(&number) && !is_scalar(design, number)
}

/// Whether one of some declarations is a generic that isn't scalar.
fn names_composite(design: &KnownDesign<'_, '_>, generics: &NumberSet, numbers: &[DeclId]) -> bool
    requires ready { IsReady design.now }
    ensures { (d : Design) (k : Known) (ks : List Known) (gs : List ℕ) → Knows d design.now (k ∷ ks) → Holds generics.now gs
        → result ≡ is_composite_named k.env gs numbers.now }
{
    for number in numbers {
        if is_composite(design, generics, *number) {
            return true;
        }
    }
    false
}

/// Whether the subtype of a port names a generic that isn't scalar, also through defaults of generics that are left out.
fn has_composite_generic(
    design: &KnownDesign<'_, '_>,
    instance: &Instance<'_, '_>,
    alloc: Global,
    port: DeclId,
) -> Result<bool, AllocError>
    requires ready { IsReady design.now }
    requires instance { IsInstance instance.now }
    ensures { (k : Known) (ks : List Known) → Knows (design_at instance.now) design.now (k ∷ ks)
        → IfOk result (λ b. b ≡ names_composite_generic (design_at instance.now) k.env (port_map_at instance.now) port) }
{
    let names = instance
        .facts
        .needed_names(alloc, instance.entity, &instance.parts, port)?;
    Ok(names_composite(design, &instance.generics, &names))
}

/// Whether an expression that isn't static may not stand for a port.
fn is_later_refused(
    design: &KnownDesign<'_, '_>,
    instance: &Instance<'_, '_>,
    alloc: Global,
    port: DeclId,
) -> Result<bool, AllocError>
    requires ready { IsReady design.now }
    requires instance { IsInstance instance.now }
    ensures { (k : Known) (ks : List Known) → Knows (design_at instance.now) design.now (k ∷ ks) → IfOk result (λ b.
        b ≡ is_refused_later (design_at instance.now).revision (names_composite_generic (design_at instance.now) k.env (port_map_at instance.now) port)) }
{
    match instance.interfaces.revision() {
        Revision::V1993 => Ok(true),
        Revision::V2019 => has_composite_generic(design, instance, alloc, port),
    }
}

/// Whether an expression is static, when the text is analysed or in elaboration.
fn is_static(sense: &Sense<'_>) -> bool
    ensures { result ≡ is_known_static (static_of sense.now.known) }
{
    sense.known.is_static()
}

/// Whether the first of these trees is static.
fn is_first_static(
    design: &mut KnownDesign<'_, '_>,
    alloc: Global,
    trees: &Cursor<'_, Resolved>,
) -> Result<bool, AllocError>
    requires ready { IsReady design.old }
    ensures known { (d : Design) (k : Known) (ks : List Known) → Knows d design.old (k ∷ ks)
        → IfOk result (λ b. b ≡ is_known_static ((first_meaning d trees.now).known k.env)) }
    ensures knows { (d : Design) (ks : List Known) → Knows d design.old ks → OnOk result (Knows d design.new ks) }
{
    let first = node(design, alloc, trees)?;
    Ok(is_static(&first.sense))
}

/// What an expression breaks that stands for a port.
pub(crate) fn expression_refusals(
    design: &mut KnownDesign<'_, '_>,
    instance: &Instance<'_, '_>,
    alloc: Global,
    port: DeclId,
    association: &PortAssociation<'_>,
) -> Result<Firsts, AllocError>
    requires ready { IsReady design.old }
    requires instance { IsInstance instance.now }
    ensures refused { (k : Known) (ks : List Known) → Knows (design_at instance.now) design.old (k ∷ ks) → IfOk result (λ x.
        x ≡ firsts_of (expression_broken (design_at instance.now) k.env (port_map_at instance.now) port (read_association association.now))) }
    ensures knows { (d : Design) (ks : List Known) → Knows d design.old ks → OnOk result (Knows d design.new ks) }
{
    let is_static = is_first_static(design, alloc, &association.actual)?;
    if is_static {
        return Ok(nothing_refused());
    }
    let is_refused = is_later_refused(design, instance, alloc, port)?;
    Ok(firsts_if(is_refused, association.place, 310))
}
