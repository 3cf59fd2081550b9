//! A formal's mode or view beside that of its actual.

ghost use Rattle.std.specs.Prelude.{◌≡◌, List, Some, ℕ};
ghost use Rattle.vd_walks.specs.Least.{least_of};
ghost use Rattle.vd_port_associations.specs.Agreement.{by_way, read_kind, read_side, read_view};
ghost use Rattle.vd_port_lists.specs.Modes.{read_mode, read_plain};
ghost use Rattle.vd_port_lists.specs.declared.modes.PortMode.TheVariants.{ByView, Plain};
ghost use Rattle.vd_port_modes.specs.Readings.{read_oriented};
ghost use Rattle.vd_value_rules.specs.Actuals.{disagree, disagree_by, refused_for};
ghost use Rattle.vd_value_rules.specs.Designs.{Design, Oriented as AnyOriented};

use vd_bytes::{Place, Refused};
use vd_declarations::DeclId;
use vd_port_lists::{Mode, PortMode};
use vd_port_modes::Oriented;
use vd_port_modes::found::conversed;

/// A mode or a view in numbers alone, since the keys of a set are made of these.
#[derive(Clone, Copy, PartialEq, Eq, Hash)]
pub struct Side {
    /// 0, 1 and 2 stand for `in`, `out` and `inout`, 3 for a view, and all others for a view that is missing.
    pub kind: u8,
    pub view: u32,
    pub is_converse: bool,
    pub is_swapped: bool,
}

/// What a formal has, and what its actual has.
#[derive(Clone, Copy, PartialEq, Eq, Hash)]
pub struct Pair {
    pub formal: Side,
    pub actual: Side,
}

/// How the two are compared: by their modes, or element by element of a view.
#[derive(Clone, Copy)]
pub enum Way {
    Modes { formal: Mode, actual: Mode },
    Elements { view: Option<DeclId> },
}

fn side_with(kind: u8, view: u32, is_converse: bool, is_swapped: bool) -> Side
    ensures { result ≡ record { kind = kind; view = view; is_converse = is_converse; is_swapped = is_swapped } }
{
    Side {
        kind,
        view,
        is_converse,
        is_swapped,
    }
}

fn side_of_mode(mode: Mode, is_swapped: bool) -> Side
    ensures { read_side result ≡ record { mode = read_mode (Plain mode); is_swapped = is_swapped } }
{
    match mode {
        Mode::Input => side_with(0, 0, false, is_swapped),
        Mode::Output => side_with(1, 0, false, is_swapped),
        Mode::BothWays => side_with(2, 0, false, is_swapped),
    }
}

fn side_of_view(view: Option<DeclId>, is_converse: bool, is_swapped: bool) -> Side
    ensures { read_side result ≡ record { mode = read_mode (ByView view is_converse); is_swapped = is_swapped } }
{
    match view {
        Some(view) => side_with(3, view.number(), is_converse, is_swapped),
        None => side_with(4, 0, is_converse, is_swapped),
    }
}

/// A mode or a view in numbers.
pub fn side_of(oriented: Oriented) -> Side
    ensures { read_side result ≡ read_oriented oriented }
{
    let mode = oriented.mode;
    let is_swapped = oriented.is_swapped;
    match mode {
        PortMode::Plain(mode) => side_of_mode(mode, is_swapped),
        PortMode::ByView { view, is_converse } => side_of_view(view, is_converse, is_swapped),
    }
}

/// The view, where there is one.
fn view_of(side: Side) -> Option<DeclId>
    ensures { result ≡ read_view side.kind side.view }
{
    if side.kind == 3 {
        Some(DeclId::of(side.view))
    } else {
        None
    }
}

fn mode_of(side: Side) -> PortMode
    ensures { read_mode result ≡ read_kind side.kind side.view side.is_converse }
{
    if side.kind == 0 {
        return PortMode::Plain(Mode::Input);
    }
    if side.kind == 1 {
        return PortMode::Plain(Mode::Output);
    }
    if side.kind == 2 {
        return PortMode::Plain(Mode::BothWays);
    }
    PortMode::ByView {
        view: view_of(side),
        is_converse: side.is_converse,
    }
}

/// The mode or view again.
pub fn oriented_as(side: Side) -> Oriented
    ensures { read_oriented result ≡ read_side side }
{
    Oriented {
        mode: mode_of(side),
        is_swapped: side.is_swapped,
    }
}

/// By the modes, where the formal has a mode.
fn way_by_actual(mode: Mode, is_swapped: bool, actual: Oriented) -> Way
    ensures { (go : AnyOriented → AnyOriented → List ℕ) (d : Design)
        → disagree_by go d (record { mode = read_mode (Plain mode); is_swapped = is_swapped }) (read_oriented actual) (read_mode (Plain mode)) (read_oriented actual).mode
        ≡ by_way go d (record { mode = read_mode (Plain mode); is_swapped = is_swapped }) (read_oriented actual) result }
{
    let own = actual.mode;
    let own_swapped = actual.is_swapped;
    match own {
        PortMode::Plain(other) => Way::Modes {
            formal: conversed(is_swapped, mode),
            actual: conversed(own_swapped, other),
        },
        PortMode::ByView { view, .. } => Way::Elements { view },
    }
}

/// How a formal and its actual are compared: by the view of the formal, or else by that of the actual, or else by the modes.
fn way_between(formal: Oriented, actual: Oriented) -> Way
    ensures { (go : AnyOriented → AnyOriented → List ℕ) (d : Design)
        → disagree_by go d (read_oriented formal) (read_oriented actual) (read_oriented formal).mode (read_oriented actual).mode
        ≡ by_way go d (read_oriented formal) (read_oriented actual) result }
{
    let own = formal.mode;
    let own_swapped = formal.is_swapped;
    match own {
        PortMode::Plain(mode) => way_by_actual(mode, own_swapped, actual),
        PortMode::ByView { view, .. } => Way::Elements { view },
    }
}

/// How a pair is compared.
pub fn way_of(pair: Pair) -> Way
    ensures { (go : AnyOriented → AnyOriented → List ℕ) (d : Design)
        → disagree_by go d (read_side pair.formal) (read_side pair.actual) (read_side pair.formal).mode (read_side pair.actual).mode
        ≡ by_way go d (read_side pair.formal) (read_side pair.actual) result }
{
    way_between(oriented_as(pair.formal), oriented_as(pair.actual))
}

/// A refusal at a place.
fn refused(place: Place, rule: u16) -> Option<Refused>
    ensures { result ≡ Some (record { place = place; rule = rule }) }
{
    Some(Refused { place, rule })
}

/// What two modes break: an output is no actual of what is read, and an input none of what is driven.
pub fn refused_modes(place: Place, formal: Mode, actual: Mode) -> Option<Refused>
    ensures { result ≡ least_of (refused_for place (disagree (read_plain formal) (read_plain actual))) }
{
    match (formal, actual) {
        (Mode::Input, Mode::Output) => refused(place, 401),
        (Mode::Output, Mode::Input) => refused(place, 402),
        (Mode::BothWays, Mode::Output) => refused(place, 401),
        (Mode::BothWays, Mode::Input) => refused(place, 402),
        _ => None,
    }
}
