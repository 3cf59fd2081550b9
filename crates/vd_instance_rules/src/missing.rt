//! Ports that are left out.

ghost use Rattle.std.specs.Prelude.{◌≡◌, ◌&&◌, IfOk, List, false, is_some, not};
ghost use Rattle.std.specs.List.{list_all, list_any};
ghost use Rattle.vd_instance_rules.specs.Instances.{IsInstance, design_at, missing_broken, port_map_at, ports_for, read_associations};
ghost use Rattle.vd_port_associations.specs.Associations.{read_formal};
ghost use Rattle.vd_port_associations.specs.Numbers.{Holds};
ghost use Rattle.vd_port_lists.specs.Modes.{read_mode};
ghost use Rattle.vd_value_rules.specs.Groups.{firsts_of};
ghost use Rattle.vd_value_rules.specs.Actuals.{PortAssociation as Association, are_in_order as in_order, are_known as are_known_in, is_association_form, is_missing as is_missing_in, needs_actual as needs_actual_by, port_of_formal};

use crate::associations::{associate, is_associated};
use crate::firsts::firsts_if;
use crate::formals::port_of;
use crate::instance::Instance;
use std::alloc::{AllocError, Global};
use vd_declarations::DeclId;
use vd_forest::Cursor;
use vd_forms::Form;
use vd_port_associations::associations::PortAssociation;
use vd_port_associations::formals::FormalSort;
use vd_port_associations::numbers::NumberSet;
use vd_port_lists::{Mode, PortMode};
use vd_resolved::Resolved;
use vd_value_rules::Firsts;

/// The ports that are associated.
fn ports_associated(
    alloc: Global,
    associations: &[PortAssociation<'_>],
) -> Result<NumberSet, AllocError>
    ensures { IfOk result (λ set. Holds set (ports_for (read_associations associations.now))) }
{
    let mut seen = NumberSet::new(alloc);
    for association in associations {
        associate(&mut seen, association.formal)?;
    }
    Ok(seen)
}

/// Whether a port of this mode has to be associated.
fn needs_actual(instance: &Instance<'_, '_>, port: DeclId, mode: PortMode) -> bool
    requires instance { IsInstance instance.now }
    ensures { result ≡ needs_actual_by (design_at instance.now) port (read_mode mode) }
{
    match mode {
        PortMode::Plain(Mode::Input) => !instance.facts.has_default(port),
        PortMode::Plain(Mode::Output) => false,
        PortMode::Plain(Mode::BothWays) => false,
        PortMode::ByView { .. } => true,
    }
}

/// Whether a port is left out that may not be.
fn is_missing(instance: &Instance<'_, '_>, associated: &NumberSet, port: DeclId) -> bool
    requires instance { IsInstance instance.now }
    ensures { (as' : List Association) → Holds associated.now (ports_for as') → result ≡ is_missing_in (design_at instance.now) as' port }
{
    let mode = instance.interfaces.mode_of_port(port);
    needs_actual(instance, port, mode) && !is_associated(associated, Some(port))
}

/// Whether one of some ports is left out that may not be.
fn is_one_missing(instance: &Instance<'_, '_>, associated: &NumberSet, ports: &[DeclId]) -> bool
    requires instance { IsInstance instance.now }
    ensures { (as' : List Association) → Holds associated.now (ports_for as') → result ≡ list_any (is_missing_in (design_at instance.now) as') ports.now }
{
    for port in ports {
        if is_missing(instance, associated, *port) {
            return true;
        }
    }
    false
}

/// Whether a formal is a port.
fn is_for_port(formal: FormalSort) -> bool
    ensures { result ≡ is_some (port_of_formal (read_formal formal)) }
{
    port_of(formal).is_some()
}

/// Whether each association is for a port.
fn are_all_for_ports(associations: &[PortAssociation<'_>]) -> bool
    ensures { result ≡ list_all (λ a. is_some (port_of_formal a.formal)) (read_associations associations.now) }
{
    for association in associations {
        if !is_for_port(association.formal) {
            return false;
        }
    }
    true
}

/// Whether an element names in front of `=>` what it is for.
fn is_named(form: Form) -> bool
    ensures { result ≡ is_association_form form }
{
    matches!(form, Form::Association)
}

/// Whether an element without `=>` stands behind one with it.
fn is_behind_name(are_named: bool, has_name: bool) -> bool
    ensures { result ≡ (are_named && not has_name) }
{
    are_named && !has_name
}

/// Whether no element without `=>` stands behind one with it.
fn are_in_order(elements: &Cursor<'_, Resolved>) -> bool
    ensures { result ≡ in_order false elements.now }
{
    let mut are_named = false;
    let mut rest = elements.fork();
    while let Some(first) = rest.open() {
        let has_name = is_named(first.form.form);
        if is_behind_name(are_named, has_name) {
            return false;
        }
        are_named = has_name;
        rest = first.next;
    }
    true
}

/// Whether it is known which port each element is for.
fn are_known(associations: &[PortAssociation<'_>], elements: &Cursor<'_, Resolved>) -> bool
    ensures { result ≡ are_known_in (read_associations associations.now) elements.now }
{
    are_all_for_ports(associations) && are_in_order(elements)
}

/// Whether a port is left out that may not be, and it is known which port each element is for.
fn is_known_missing(
    instance: &Instance<'_, '_>,
    associated: &NumberSet,
    ports: &[DeclId],
    associations: &[PortAssociation<'_>],
    elements: &Cursor<'_, Resolved>,
) -> bool
    requires instance { IsInstance instance.now }
    ensures { Holds associated.now (ports_for (read_associations associations.now)) → result
        ≡ (are_known_in (read_associations associations.now) elements.now && list_any (is_missing_in (design_at instance.now) (read_associations associations.now)) ports.now) }
{
    are_known(associations, elements) && is_one_missing(instance, associated, ports)
}

/// A port that is left out and may not be, where it is known which port each element is for.
pub(crate) fn missing_refusals(
    instance: &Instance<'_, '_>,
    alloc: Global,
    ports: &[DeclId],
    associations: &[PortAssociation<'_>],
    elements: &Cursor<'_, Resolved>,
) -> Result<Firsts, AllocError>
    requires instance { IsInstance instance.now }
    ensures { IfOk result (λ x. x
        ≡ firsts_of (missing_broken (design_at instance.now) (port_map_at instance.now) (read_associations associations.now) ports.now elements.now)) }
{
    let associated = ports_associated(alloc, associations)?;
    let is_missing = is_known_missing(instance, &associated, ports, associations, elements);
    Ok(firsts_if(is_missing, instance.place, 310))
}
