//! What may stand for a port, by its mode or view.

ghost use Rattle.std.specs.Prelude.{◌≡◌, ◌&&◌, ◌∷◌, IfOk, List, OnOk};
ghost use Rattle.vd_instance_rules.specs.Instances.{IsInstance, converted_output, design_at, port_map_at, read_association};
ghost use Rattle.vd_meaning.specs.NodeFacets.{ByMode};
ghost use Rattle.vd_known_designs.specs.Designs.{IsReady, Knows};
ghost use Rattle.vd_meaning.specs.Tables.{is_vector as is_vector_type};
ghost use Rattle.vd_port_associations.specs.Associations.{read_actual};
ghost use Rattle.vd_port_lists.specs.Modes.{read_mode, read_plain};
ghost use Rattle.vd_port_modes.specs.Readings.{read_oriented, read_reached};
ghost use Rattle.vd_port_modes.specs.Source.{design_in};
ghost use Rattle.vd_value_rules.specs.Groups.{firsts_of};
ghost use Rattle.vd_value_rules.specs.Actuals.{actual_broken, input_broken, is_part_of_view as is_part_of_view_port, output_broken, takes_conversion as takes_conversions, view_broken};
ghost use Rattle.vd_value_rules.specs.Designs.{Design};
ghost use Rattle.vd_value_rules.specs.Knowledge.{Known};

use crate::expressions::expression_refusals;
use crate::firsts::firsts_if;
use crate::formals::is_vector;
use crate::instance::Instance;
use crate::signals::{as_value, whole_or_disagreeing};
use std::alloc::{AllocError, Global};
use vd_bytes::Place;
use vd_declarations::DeclId;
use vd_known_designs::KnownDesign;
use vd_port_associations::actuals::ActualSort;
use vd_port_associations::associations::PortAssociation;
use vd_port_lists::{Mode, PortMode};
use vd_port_modes::found::straight;
use vd_port_modes::{Interfaces, Oriented, Reached, may_be_driven, names_view_port};
use vd_trees::Revision;
use vd_value_rules::{Firsts, nothing_refused, together};

/// What an actual of a port of mode `in` breaks.
fn input_refusals(
    design: &mut KnownDesign<'_, '_>,
    instance: &Instance<'_, '_>,
    alloc: Global,
    port: DeclId,
    association: &PortAssociation<'_>,
    actual: &ActualSort<'_>,
) -> Result<Firsts, AllocError>
    requires ready { IsReady design.old }
    requires instance { IsInstance instance.now }
    ensures refused { (k : Known) (ks : List Known) → Knows (design_at instance.now) design.old (k ∷ ks) → IfOk result (λ x. x
        ≡ firsts_of (input_broken (design_at instance.now) k.env (port_map_at instance.now) port (read_association association.now) (read_actual actual.now))) }
    ensures knows { (d : Design) (ks : List Known) → Knows d design.old ks → OnOk result (Knows d design.new ks) }
{
    let interfaces = instance.interfaces;
    match actual {
        ActualSort::NoActual => Ok(firsts_if(
            !instance.facts.has_default(port),
            association.place,
            310,
        )),
        ActualSort::SignalNamed { place, name } => {
            let is_whole = names_view_port(interfaces, name);
            let formal = straight(PortMode::Plain(Mode::Input));
            whole_or_disagreeing(alloc, interfaces, is_whole, formal, *place, name)
        }
        ActualSort::SignalConverted { mark, .. } => {
            Ok(firsts_if(!is_vector(*mark), association.place, 310))
        }
        ActualSort::SignalPassed => Ok(firsts_if(true, association.place, 310)),
        ActualSort::AnExpression { place, name } => {
            let read = as_value(interfaces, *place, name);
            let expression = expression_refusals(design, instance, alloc, port, association)?;
            Ok(together(read, expression))
        }
    }
}

/// Whether a port of a mode takes a conversion of a signal that it drives.
fn takes_conversion(revision: Revision, mode: Mode) -> bool
    ensures { result ≡ takes_conversions revision (read_plain mode) }
{
    match (revision, mode) {
        (Revision::V1993, Mode::BothWays) => true,
        (Revision::V1993, Mode::Input) => false,
        (Revision::V1993, Mode::Output) => false,
        (Revision::V2019, _) => false,
    }
}

/// Whether a port of a mode takes a conversion of a signal to this mark.
fn is_taken(interfaces: &Interfaces<'_>, mode: Mode, mark: DeclId) -> bool
    ensures { result ≡ (takes_conversions (design_in interfaces.now).revision (read_plain mode) && is_vector_type mark) }
{
    takes_conversion(interfaces.revision(), mode) && is_vector(mark)
}

/// What a conversion of a signal to a mark breaks, where the port drives it.
fn converted_refusals(
    interfaces: &Interfaces<'_>,
    mode: Mode,
    mark: DeclId,
    place: Place,
    name: &Reached<'_>,
    association: Place,
) -> Firsts
    ensures { result ≡ firsts_of (converted_output (design_in interfaces.now) (read_plain mode) mark place (read_reached name.now) association) }
{
    let is_taken = is_taken(interfaces, mode, mark);
    if is_taken {
        firsts_if(!may_be_driven(interfaces, name), place, 402)
    } else {
        firsts_if(true, association, 310)
    }
}

/// What an actual of a port breaks that may be driven.
fn output_refusals(
    interfaces: &Interfaces<'_>,
    alloc: Global,
    mode: Mode,
    association: &PortAssociation<'_>,
    actual: &ActualSort<'_>,
) -> Result<Firsts, AllocError>
    ensures { IfOk result (λ x. x
        ≡ firsts_of (output_broken (design_in interfaces.now) (read_plain mode) (read_association association.now) (read_actual actual.now))) }
{
    match actual {
        ActualSort::NoActual => Ok(nothing_refused()),
        ActualSort::SignalNamed { place, name } => {
            let is_whole = names_view_port(interfaces, name);
            let formal = straight(PortMode::Plain(mode));
            whole_or_disagreeing(alloc, interfaces, is_whole, formal, *place, name)
        }
        ActualSort::SignalConverted { mark, place, name } => Ok(converted_refusals(
            interfaces,
            mode,
            *mark,
            *place,
            name,
            association.place,
        )),
        ActualSort::SignalPassed => Ok(firsts_if(true, association.place, 310)),
        ActualSort::AnExpression { .. } => Ok(firsts_if(true, association.place, 310)),
    }
}

/// Whether a part of a port with a view is named that has a view itself.
fn is_part_of_view(interfaces: &Interfaces<'_>, name: &Reached<'_>) -> bool
    ensures { result ≡ is_part_of_view_port (design_in interfaces.now) (read_reached name.now) }
{
    names_view_port(interfaces, name) && !name.fields.is_empty()
}

/// What an actual of a port with a view breaks.
fn view_refusals(
    interfaces: &Interfaces<'_>,
    alloc: Global,
    formal: Oriented,
    association: &PortAssociation<'_>,
    actual: &ActualSort<'_>,
) -> Result<Firsts, AllocError>
    ensures { IfOk result (λ x. x
        ≡ firsts_of (view_broken (design_in interfaces.now) (read_oriented formal) (read_association association.now) (read_actual actual.now))) }
{
    match actual {
        ActualSort::NoActual => Ok(firsts_if(true, association.place, 310)),
        ActualSort::SignalNamed { place, name } => {
            let is_whole = is_part_of_view(interfaces, name);
            whole_or_disagreeing(alloc, interfaces, is_whole, formal, *place, name)
        }
        ActualSort::SignalConverted { .. } => Ok(firsts_if(true, association.place, 310)),
        ActualSort::SignalPassed => Ok(firsts_if(true, association.place, 310)),
        ActualSort::AnExpression { .. } => Ok(firsts_if(true, association.place, 310)),
    }
}

/// What an actual breaks that stands for a port of one of the modes that are no views.
fn plain_refusals(
    design: &mut KnownDesign<'_, '_>,
    instance: &Instance<'_, '_>,
    alloc: Global,
    port: DeclId,
    mode: Mode,
    association: &PortAssociation<'_>,
    actual: &ActualSort<'_>,
) -> Result<Firsts, AllocError>
    requires ready { IsReady design.old }
    requires instance { IsInstance instance.now }
    ensures refused { (k : Known) (ks : List Known) → Knows (design_at instance.now) design.old (k ∷ ks) → IfOk result (λ x. x ≡ firsts_of
        (actual_broken (design_at instance.now) k.env (port_map_at instance.now) port (read_association association.now) (ByMode (read_plain mode)) (read_actual actual.now))) }
    ensures knows { (d : Design) (ks : List Known) → Knows d design.old ks → OnOk result (Knows d design.new ks) }
{
    let interfaces = instance.interfaces;
    match mode {
        Mode::Input => input_refusals(design, instance, alloc, port, association, actual),
        Mode::Output => output_refusals(interfaces, alloc, Mode::Output, association, actual),
        Mode::BothWays => output_refusals(interfaces, alloc, Mode::BothWays, association, actual),
    }
}

/// What an actual breaks that stands for a port of this mode.
pub(crate) fn actual_refusals(
    design: &mut KnownDesign<'_, '_>,
    instance: &Instance<'_, '_>,
    alloc: Global,
    port: DeclId,
    mode: PortMode,
    association: &PortAssociation<'_>,
    actual: &ActualSort<'_>,
) -> Result<Firsts, AllocError>
    requires ready { IsReady design.old }
    requires instance { IsInstance instance.now }
    ensures refused { (k : Known) (ks : List Known) → Knows (design_at instance.now) design.old (k ∷ ks) → IfOk result (λ x. x ≡ firsts_of
        (actual_broken (design_at instance.now) k.env (port_map_at instance.now) port (read_association association.now) (read_mode mode) (read_actual actual.now))) }
    ensures knows { (d : Design) (ks : List Known) → Knows d design.old ks → OnOk result (Knows d design.new ks) }
{
    match mode {
        PortMode::Plain(plain) => {
            plain_refusals(design, instance, alloc, port, plain, association, actual)
        }
        PortMode::ByView { .. } => view_refusals(
            instance.interfaces,
            alloc,
            straight(mode),
            association,
            actual,
        ),
    }
}
