//! The nine values of IEEE 1164, and its logical operators.

ghost use Rattle.std.specs.Prelude.{◌≡◌};
ghost use Rattle.vd_values.specs.LogicTables.{and_of, or_of, xor_of, not_of};

/// A value of `std_ulogic`, in the order of its declaration.
#[derive(Clone, Copy, PartialEq, Eq, Debug)]
pub enum Logic {
    /// Uninitialised.
    U,
    /// Forcing unknown.
    X,
    /// Forcing 0.
    Zero,
    /// Forcing 1.
    One,
    /// High impedance.
    Z,
    /// Weak unknown.
    W,
    /// Weak 0.
    L,
    /// Weak 1.
    H,
    /// Don't care.
    Dash,
}

/// The operator `and`.
pub fn logic_and(l: Logic, r: Logic) -> Logic
    ensures { result ≡ and_of l r }
{
    match (l, r) {
        (Logic::Zero | Logic::L, _) | (_, Logic::Zero | Logic::L) => Logic::Zero,
        (Logic::U, _) | (_, Logic::U) => Logic::U,
        (Logic::One | Logic::H, Logic::One | Logic::H) => Logic::One,
        _ => Logic::X,
    }
}

/// The operator `or`.
pub fn logic_or(l: Logic, r: Logic) -> Logic
    ensures { result ≡ or_of l r }
{
    match (l, r) {
        (Logic::One | Logic::H, _) | (_, Logic::One | Logic::H) => Logic::One,
        (Logic::U, _) | (_, Logic::U) => Logic::U,
        (Logic::Zero | Logic::L, Logic::Zero | Logic::L) => Logic::Zero,
        _ => Logic::X,
    }
}

/// The operator `xor`.
pub fn logic_xor(l: Logic, r: Logic) -> Logic
    ensures { result ≡ xor_of l r }
{
    match (l, r) {
        (Logic::U, _) | (_, Logic::U) => Logic::U,
        (Logic::Zero | Logic::L, Logic::Zero | Logic::L) => Logic::Zero,
        (Logic::One | Logic::H, Logic::One | Logic::H) => Logic::Zero,
        (Logic::Zero | Logic::L, Logic::One | Logic::H) => Logic::One,
        (Logic::One | Logic::H, Logic::Zero | Logic::L) => Logic::One,
        _ => Logic::X,
    }
}

/// The operator `not`.
pub fn logic_not(a: Logic) -> Logic
    ensures { result ≡ not_of a }
{
    match a {
        Logic::U => Logic::U,
        Logic::Zero | Logic::L => Logic::One,
        Logic::One | Logic::H => Logic::Zero,
        _ => Logic::X,
    }
}
