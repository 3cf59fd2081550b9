//! What processes do to drivers.

use crate::ids::{DriverId, SignalId};
use vd_values::Scalar;

/// A value that a driver takes at a time, which is counted in femtoseconds from the start.
#[derive(Clone, Copy, Debug)]
pub struct Transaction {
    pub time: u64,
    pub value: Scalar,
}

/// How an assignment treats what a driver was to do before it.
#[derive(Clone, Copy, PartialEq, Eq, Debug)]
pub enum Delay {
    Transport,
    Inertial,
}

/// A transaction for a driver.
#[derive(Clone, Copy, Debug)]
pub struct Assignment {
    pub driver: DriverId,
    pub delay: Delay,
    pub new: Transaction,
}

/// What gives a signal a value: a driver, or a port inside an instance, of mode `out` or `inout`, that is associated with it.
#[derive(Clone, Copy, Debug)]
pub enum Source {
    Driver(DriverId),
    Port(SignalId),
}
