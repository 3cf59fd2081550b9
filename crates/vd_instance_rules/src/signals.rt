//! Signals as actuals, and names as values.

ghost use Rattle.std.specs.Prelude.{◌≡◌, IfOk};
ghost use Rattle.vd_instance_rules.specs.Instances.{whole_or_disagrees};
ghost use Rattle.vd_port_modes.specs.Readings.{read_oriented, read_reached};
ghost use Rattle.vd_port_modes.specs.Source.{design_in};
ghost use Rattle.vd_value_rules.specs.Groups.{firsts_of};
ghost use Rattle.vd_value_rules.specs.Actuals.{signal_broken};
ghost use Rattle.vd_value_rules.specs.Names.{broken_as_value};

use crate::firsts::firsts_if;
use std::alloc::{AllocError, Global};
use vd_bytes::Place;
use vd_port_associations::refused_signal;
use vd_port_modes::{Interfaces, Oriented, Reached, names_view_port, reads_out};
use vd_value_rules::{Firsts, together};

/// What a signal breaks by its mode or view.
fn disagreeing(
    alloc: Global,
    interfaces: &Interfaces<'_>,
    formal: Oriented,
    place: Place,
    name: &Reached<'_>,
) -> Result<Firsts, AllocError>
    ensures { IfOk result (λ x. x ≡ firsts_of (signal_broken (design_in interfaces.now) (read_oriented formal) place (read_reached name.now))) }
{
    let of_rules = refused_signal(alloc, interfaces, formal, place, name)?;
    Ok(Firsts {
        of_names: None,
        of_rules,
    })
}

/// What a signal breaks, which may not be whole.
pub(crate) fn whole_or_disagreeing(
    alloc: Global,
    interfaces: &Interfaces<'_>,
    is_whole: bool,
    formal: Oriented,
    place: Place,
    name: &Reached<'_>,
) -> Result<Firsts, AllocError>
    ensures { IfOk result (λ x. x ≡ firsts_of (whole_or_disagrees is_whole (design_in interfaces.now) (read_oriented formal) place (read_reached name.now))) }
{
    if is_whole {
        Ok(firsts_if(true, place, 308))
    } else {
        disagreeing(alloc, interfaces, formal, place, name)
    }
}

/// What a name breaks that is read.
pub(crate) fn as_value(interfaces: &Interfaces<'_>, place: Place, name: &Reached<'_>) -> Firsts
    ensures { result ≡ firsts_of (broken_as_value (design_in interfaces.now) place (read_reached name.now)) }
{
    let whole = firsts_if(names_view_port(interfaces, name), place, 308);
    let read = firsts_if(reads_out(interfaces, name), place, 401);
    together(whole, read)
}
