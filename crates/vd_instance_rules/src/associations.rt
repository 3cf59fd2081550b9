//! The associations of a port map: what each breaks, and ports that stand twice.

ghost use Rattle.std.specs.Prelude.{◌≡◌, ◌++◌, ◌∷◌, [], IfOk, List, OnOk};
ghost use Rattle.vd_instance_rules.specs.Instances.{IsInstance, actual_for_port, design_at, port_map_at, ports_for, read_association, read_associations};
ghost use Rattle.vd_known_designs.specs.Designs.{IsReady, Knows};
ghost use Rattle.vd_port_associations.specs.Associations.{read_formal};
ghost use Rattle.vd_port_associations.specs.Numbers.{Holds};
ghost use Rattle.vd_value_rules.specs.Groups.{firsts_of};
ghost use Rattle.vd_value_rules.specs.Actuals.{PortAssociation as Association, all_associations_broken, association_broken, is_associated as is_associated_in, is_read as is_read_at, port_of_formal};
ghost use Rattle.vd_value_rules.specs.Designs.{Design};
ghost use Rattle.vd_value_rules.specs.Judging.{refused_if};
ghost use Rattle.vd_value_rules.specs.Knowledge.{Known};

use crate::firsts::firsts_if;
use crate::formals::{formal_refusals, is_open_form, port_of};
use crate::instance::Instance;
use crate::modes::actual_refusals;
use std::alloc::{AllocError, Global};
use vd_declarations::DeclId;
use vd_forest::Cursor;
use vd_known_designs::KnownDesign;
use vd_port_associations::actual_sort;
use vd_port_associations::associations::PortAssociation;
use vd_port_associations::formals::FormalSort;
use vd_port_associations::numbers::NumberSet;
use vd_resolved::Resolved;
use vd_value_rules::{Firsts, nothing_refused, together};

/// Whether the first of these trees is `open` or has a type. What is refused elsewhere has none.
fn is_read(actual: &Cursor<'_, Resolved>) -> bool
    ensures { result ≡ is_read_at actual.now }
{
    match actual.open() {
        None => true,
        Some(first) => is_open_form(first.form.form) || first.form.mark.is_some(),
    }
}

/// What an actual breaks, where it is for a port.
fn refusals_for_port(
    design: &mut KnownDesign<'_, '_>,
    instance: &Instance<'_, '_>,
    alloc: Global,
    association: &PortAssociation<'_>,
) -> Result<Firsts, AllocError>
    requires ready { IsReady design.old }
    requires instance { IsInstance instance.now }
    ensures refused { (k : Known) (ks : List Known) → Knows (design_at instance.now) design.old (k ∷ ks)
        → IfOk result (λ x. x ≡ firsts_of (actual_for_port (design_at instance.now) k.env (port_map_at instance.now) (read_association association.now))) }
    ensures knows { (d : Design) (ks : List Known) → Knows d design.old ks → OnOk result (Knows d design.new ks) }
{
    let interfaces = instance.interfaces;
    match port_of(association.formal) {
        None => Ok(nothing_refused()),
        Some(port) => {
            let actual = actual_sort(design, interfaces, alloc, &association.actual)?;
            let mode = interfaces.mode_of_port(port);
            actual_refusals(design, instance, alloc, port, mode, association, &actual)
        }
    }
}

/// What an association breaks. An actual that is refused elsewhere breaks nothing else.
fn association_refusals(
    design: &mut KnownDesign<'_, '_>,
    instance: &Instance<'_, '_>,
    alloc: Global,
    association: &PortAssociation<'_>,
) -> Result<Firsts, AllocError>
    requires ready { IsReady design.old }
    requires instance { IsInstance instance.now }
    ensures refused { (k : Known) (ks : List Known) → Knows (design_at instance.now) design.old (k ∷ ks)
        → IfOk result (λ x. x ≡ firsts_of (association_broken (design_at instance.now) k.env (port_map_at instance.now) (read_association association.now))) }
    ensures knows { (d : Design) (ks : List Known) → Knows d design.old ks → OnOk result (Knows d design.new ks) }
{
    let formal = formal_refusals(instance.interfaces, association);
    if is_read(&association.actual) {
        let actual = refusals_for_port(design, instance, alloc, association)?;
        Ok(together(formal, actual))
    } else {
        Ok(formal)
    }
}

/// Whether a port is one of those that are associated.
pub(crate) fn is_associated(seen: &NumberSet, port: Option<DeclId>) -> bool
    ensures { (as' : List Association) → Holds seen.now (ports_for as') → result ≡ is_associated_in as' port }
{
    match port {
        Some(port) => seen.has(&port),
        None => false,
    }
}

/// One more port that is associated.
pub(crate) fn associate(seen: &mut NumberSet, formal: FormalSort) -> Result<(), AllocError>
    ensures { (as' : List Association) (a : Association) → Holds seen.old (ports_for as') → a.formal ≡ read_formal formal
        → OnOk result (Holds seen.new (ports_for (as' ++ a ∷ []))) }
{
    match port_of(formal) {
        Some(port) => seen.add(port),
        None => Ok(()),
    }
}

/// A port that is associated again.
fn repeated(seen: &NumberSet, association: &PortAssociation<'_>) -> Firsts
    ensures { (as' : List Association) → Holds seen.now (ports_for as')
        → result ≡ firsts_of (refused_if (is_associated_in as' (port_of_formal (read_formal association.now.formal))) association.now.place 310) }
{
    let is_again = is_associated(seen, port_of(association.formal));
    firsts_if(is_again, association.place, 310)
}

/// What associations break, one after the other.
pub(crate) fn associations_refusals(
    design: &mut KnownDesign<'_, '_>,
    instance: &Instance<'_, '_>,
    alloc: Global,
    associations: &[PortAssociation<'_>],
) -> Result<Firsts, AllocError>
    requires ready { IsReady design.old }
    requires instance { IsInstance instance.now }
    ensures refused { (k : Known) (ks : List Known) → Knows (design_at instance.now) design.old (k ∷ ks) → IfOk result (λ x.
        x ≡ firsts_of (all_associations_broken (design_at instance.now) k.env (port_map_at instance.now) [] (read_associations associations.now))) }
    ensures knows { (d : Design) (ks : List Known) → Knows d design.old ks → OnOk result (Knows d design.new ks) }
{
    let mut seen = NumberSet::new(alloc);
    let mut found = nothing_refused();
    for association in associations {
        let again = repeated(&seen, association);
        let own = association_refusals(design, instance, alloc, association)?;
        let here = together(again, own);
        found = together(found, here);
        associate(&mut seen, association.formal)?;
    }
    Ok(found)
}
