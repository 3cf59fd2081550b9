//! The operators of revision 2019 on `std_ulogic` that match and that make a condition.

ghost use Rattle.std.specs.Prelude.{◌≡◌};
ghost use Rattle.vd_values.specs.Matching.{condition_of, match_of};

use crate::logic::Logic;

/// The operator `?=`.
pub fn matches(l: Logic, r: Logic) -> Logic
    ensures { result ≡ match_of l r }
{
    match (l, r) {
        (Logic::Dash, _) | (_, Logic::Dash) => Logic::One,
        (Logic::U, _) | (_, Logic::U) => Logic::U,
        (Logic::Zero | Logic::L, Logic::Zero | Logic::L) => Logic::One,
        (Logic::One | Logic::H, Logic::One | Logic::H) => Logic::One,
        (Logic::Zero | Logic::L, Logic::One | Logic::H) => Logic::Zero,
        (Logic::One | Logic::H, Logic::Zero | Logic::L) => Logic::Zero,
        _ => Logic::X,
    }
}

/// The operator `??`.
pub fn condition(a: Logic) -> bool
    ensures { result ≡ condition_of a }
{
    matches!(a, Logic::One | Logic::H)
}
