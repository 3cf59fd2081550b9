//! Numbers of signals and drivers.

ghost use Rattle.std.specs.Prelude.{◌≡◌};

use std::marker::Model;

/// A scalar signal, by its place in the list of all signals of a design.
#[derive(Clone, Copy, PartialEq, Eq, Debug)]
pub struct SignalId {
    signal: usize,
}

impl Model for SignalId {
    ghost use Rattle.std.specs.Prelude.{ℕ};
    ghost use Rattle.std.specs.Coded.{coded_ℕ};

    ghost Value = { ℕ };

    ghost coded = { coded_ℕ };

    ghost view = { λ a. a.signal };

    ghost inverse = { λ n. record { signal = n } };
}

impl SignalId {
    /// The signal of this number.
    pub fn of(number: usize) -> SignalId
        ensures { result ≡ number }
    {
        SignalId { signal: number }
    }

    /// Its number.
    pub fn number(&self) -> usize
        ensures { result ≡ self.now }
    {
        self.signal
    }
}

/// A driver of a scalar signal, by its place in the list of all drivers of a design.
#[derive(Clone, Copy, PartialEq, Eq, Debug)]
pub struct DriverId {
    driver: usize,
}

impl Model for DriverId {
    ghost use Rattle.std.specs.Prelude.{ℕ};
    ghost use Rattle.std.specs.Coded.{coded_ℕ};

    ghost Value = { ℕ };

    ghost coded = { coded_ℕ };

    ghost view = { λ a. a.driver };

    ghost inverse = { λ n. record { driver = n } };
}

impl DriverId {
    /// The driver of this number.
    pub fn of(number: usize) -> DriverId
        ensures { result ≡ number }
    {
        DriverId { driver: number }
    }

    /// Its number.
    pub fn number(&self) -> usize
        ensures { result ≡ self.now }
    {
        self.driver
    }
}
