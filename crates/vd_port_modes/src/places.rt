//! What names may do: be read, be driven or assigned, and name a port with a view.

ghost use Rattle.std.specs.Prelude.{◌≡◌, None, Option, Some, drop, map};
ghost use Rattle.vd_meaning.specs.Building.{is_output as is_out};
ghost use Rattle.vd_operations.specs.Roles.{read_role};
ghost use Rattle.vd_meaning.specs.Tables.{role_of as role_named};
ghost use Rattle.vd_port_modes.specs.Readings.{read_fields, read_oriented, read_oriented_some, read_plain_some, read_reached, read_text};
ghost use Rattle.vd_port_modes.specs.Source.{design_in};
ghost use Rattle.vd_value_rules.specs.Designs.{at_fields as is_at_fields};
ghost use Rattle.vd_value_rules.specs.Names.{is_read_by as is_read_behind, may_be_assigned as is_assignable, may_be_driven as is_drivable, names_view_port as is_view_port, reads_out as is_out_read};
ghost use Rattle.vd_value_rules.specs.Reaching.{has_view as has_any_view, is_input as is_in, is_signal_name as is_name_of_signal, is_signal_role as is_role_of_signal, is_variable_name as is_name_of_variable, is_variable_role as is_role_of_variable, mode_reached as mode_is_reached, oriented as is_oriented, oriented_port as port_is_oriented};

use crate::found::{Oriented, is_view, mode_in, straight};
use crate::interfaces::Interfaces;
use crate::reaching::{Reached, is_over};
use vd_declarations::{Class, DeclId};
use vd_operations::Role;
use vd_operations::tables::class_of;
use vd_port_lists::Mode;

/// By the names of elements inside one another.
fn at_fields(interfaces: &Interfaces<'_>, from: Oriented, names: &[&[u8]]) -> Oriented
    ensures { read_oriented result ≡ is_at_fields (design_in interfaces.now) (read_oriented from) (read_fields names.now) }
{
    let mut here = from;
    for name in names {
        here = interfaces.at_element(here, name);
    }
    here
}

/// What mode or view a port has, or the part of it that is named.
fn oriented_port(
    interfaces: &Interfaces<'_>,
    reached: &Reached<'_>,
    number: DeclId,
) -> Option<Oriented>
    ensures { read_oriented_some result ≡ port_is_oriented (design_in interfaces.now) (read_reached reached.now) number }
{
    match class_of(interfaces.declarations(), number.number()) {
        Class::Port => {
            let whole = straight(interfaces.mode_of_port(number));
            Some(at_fields(interfaces, whole, &reached.fields))
        }
        _ => None,
    }
}

/// What mode or view a port has, or the part of it that is named.
pub fn oriented(interfaces: &Interfaces<'_>, reached: &Reached<'_>) -> Option<Oriented>
    ensures { read_oriented_some result ≡ is_oriented (design_in interfaces.now) (read_reached reached.now) }
{
    match reached.declaration {
        None => None,
        Some(number) => oriented_port(interfaces, reached, number),
    }
}

fn mode_or_none(oriented: Option<Oriented>) -> Option<Mode>
    ensures { read_plain_some result ≡ Rattle.vd_value_rules.specs.Reaching.mode_or_none (read_oriented_some oriented) }
{
    match oriented {
        None => None,
        Some(found) => mode_in(found),
    }
}

/// The mode of a port or an element of one.
pub fn mode_reached(interfaces: &Interfaces<'_>, reached: &Reached<'_>) -> Option<Mode>
    ensures { read_plain_some result ≡ mode_is_reached (design_in interfaces.now) (read_reached reached.now) }
{
    mode_or_none(oriented(interfaces, reached))
}

fn has_view(oriented: Option<Oriented>) -> bool
    ensures { result ≡ has_any_view (read_oriented_some oriented) }
{
    match oriented {
        None => false,
        Some(found) => is_view(found.mode),
    }
}

/// Whether it is a port with a view, or an element that has one.
pub fn names_view_port(interfaces: &Interfaces<'_>, reached: &Reached<'_>) -> bool
    ensures { result ≡ is_view_port (design_in interfaces.now) (read_reached reached.now) }
{
    has_view(oriented(interfaces, reached))
}

fn is_signal_role(role: Role) -> bool
    ensures { result ≡ is_role_of_signal (read_role role) }
{
    matches!(role, Role::Signal)
}

fn is_variable_role(role: Role) -> bool
    ensures { result ≡ is_role_of_variable (read_role role) }
{
    matches!(role, Role::Variable)
}

/// Whether it is a signal or a port, or a part of one, as such.
pub fn is_signal_name(interfaces: &Interfaces<'_>, reached: &Reached<'_>) -> bool
    ensures { result ≡ is_name_of_signal (design_in interfaces.now) (read_reached reached.now) }
{
    is_signal_role(interfaces.role_of(reached.declaration)) && !is_over(reached)
}

/// Whether it is a variable or a part of one, as such.
pub fn is_variable_name(interfaces: &Interfaces<'_>, reached: &Reached<'_>) -> bool
    ensures { result ≡ is_name_of_variable (design_in interfaces.now) (read_reached reached.now) }
{
    is_variable_role(interfaces.role_of(reached.declaration)) && !is_over(reached)
}

fn is_output(mode: Option<Mode>) -> bool
    ensures { result ≡ is_out (read_plain_some mode) }
{
    matches!(mode, Some(Mode::Output))
}

fn is_input(mode: Option<Mode>) -> bool
    ensures { result ≡ is_in (read_plain_some mode) }
{
    matches!(mode, Some(Mode::Input))
}

/// Whether what is named is read, with this attribute behind it.
fn is_read_by(attribute: Option<&[u8]>) -> bool
    ensures { result ≡ is_read_behind (read_text attribute.entry) }
{
    match attribute {
        None => true,
        Some(text) => text == b"event".as_slice(),
    }
}

/// Whether an `out` port or an element of that mode is read.
pub fn reads_out(interfaces: &Interfaces<'_>, reached: &Reached<'_>) -> bool
    ensures { result ≡ is_out_read (design_in interfaces.now) (read_reached reached.now) }
{
    is_output(mode_reached(interfaces, reached)) && is_read_by(reached.attribute)
}

/// Whether it is a signal, or a port or element that isn't of mode `in`.
pub fn may_be_driven(interfaces: &Interfaces<'_>, reached: &Reached<'_>) -> bool
    ensures { result ≡ is_drivable (design_in interfaces.now) (read_reached reached.now) }
{
    is_signal_name(interfaces, reached) && !is_input(mode_reached(interfaces, reached))
}

/// Whether it may be the target of a signal assignment, or of a variable assignment.
pub fn may_be_assigned(interfaces: &Interfaces<'_>, signal: bool, reached: &Reached<'_>) -> bool
    ensures { result ≡ is_assignable signal (design_in interfaces.now) (read_reached reached.now) }
{
    if signal {
        may_be_driven(interfaces, reached)
    } else {
        is_variable_name(interfaces, reached)
    }
}
