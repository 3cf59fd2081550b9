//! The resolution of `std_ulogic`.

ghost use Rattle.std.specs.Prelude.{◌≡◌, ◌<◌, length};
ghost use Rattle.vd_values.specs.Resolution.{resolution_of, resolved};

use crate::logic::Logic;

/// Two values together: the stronger one, and an unknown one where equally strong values differ.
fn resolve_two(l: Logic, r: Logic) -> Logic
    ensures { result ≡ resolution_of l r }
{
    match (l, r) {
        (Logic::U, _) | (_, Logic::U) => Logic::U,
        (Logic::X | Logic::Dash, _) | (_, Logic::X | Logic::Dash) => Logic::X,
        (Logic::Zero, Logic::One) | (Logic::One, Logic::Zero) => Logic::X,
        (Logic::Zero, _) | (_, Logic::Zero) => Logic::Zero,
        (Logic::One, _) | (_, Logic::One) => Logic::One,
        (Logic::Z, weaker) | (weaker, Logic::Z) => weaker,
        (Logic::L, Logic::L) => Logic::L,
        (Logic::H, Logic::H) => Logic::H,
        _ => Logic::W,
    }
}

/// The sources of a signal, of which there is at least one, together.
pub fn resolve(sources: &[Logic]) -> Logic
    requires { 0 < length sources.now }
    ensures { result ≡ resolved sources.now }
{
    if sources.len() == 1 {
        return sources[0];
    }
    let mut value = Logic::Z;
    for source in sources {
        value = resolve_two(value, *source);
    }
    value
}
