//! Modes of parts of ports, and where views are found.

ghost use Rattle.std.specs.Prelude.{◌≡◌};
ghost use Rattle.vd_meaning.specs.Instances.{conversed as is_conversed, differ as they_differ, swapped as is_swapped_mode};
ghost use Rattle.vd_port_lists.specs.Modes.{read_mode, read_plain};
ghost use Rattle.vd_port_modes.specs.Readings.{read_oriented, read_plain_some};
ghost use Rattle.vd_value_rules.specs.Designs.{is_view as has_a_view, mode_in as one_mode_of, straight as is_straight};

use vd_port_lists::{Mode, PortMode};

/// A view of a design, by its place in the list of those that the design declares itself; and the instance of a package whose copy
/// it is.
#[derive(Clone, Copy)]
pub struct Found {
    pub view: usize,
    pub instance: Option<usize>,
}

/// A mode or a view, and whether modes are swapped round it.
#[derive(Clone, Copy, PartialEq, Eq, Hash)]
pub struct Oriented {
    pub mode: PortMode,
    pub is_swapped: bool,
}

/// With no modes swapped.
pub fn straight(mode: PortMode) -> Oriented
    ensures { read_oriented result ≡ is_straight (read_mode mode) }
{
    Oriented {
        mode,
        is_swapped: false,
    }
}

pub fn is_view(mode: PortMode) -> bool
    ensures { result ≡ has_a_view (read_mode mode) }
{
    matches!(mode, PortMode::ByView { .. })
}

fn swapped(mode: Mode) -> Mode
    ensures { read_plain result ≡ is_swapped_mode (read_plain mode) }
{
    match mode {
        Mode::Input => Mode::Output,
        Mode::Output => Mode::Input,
        Mode::BothWays => Mode::BothWays,
    }
}

/// The mode, swapped where it is to be.
pub fn conversed(is_swapped: bool, mode: Mode) -> Mode
    ensures { read_plain result ≡ is_conversed is_swapped (read_plain mode) }
{
    if is_swapped { swapped(mode) } else { mode }
}

/// Whether just one of them is true.
pub fn differ(a: bool, b: bool) -> bool
    ensures { result ≡ they_differ a b }
{
    if a { !b } else { b }
}

/// The one mode that it has; something with a view has none.
pub fn mode_in(oriented: Oriented) -> Option<Mode>
    ensures { read_plain_some result ≡ one_mode_of (read_oriented oriented) }
{
    match oriented.mode {
        PortMode::Plain(mode) => Some(conversed(oriented.is_swapped, mode)),
        PortMode::ByView { .. } => None,
    }
}
