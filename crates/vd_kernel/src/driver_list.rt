//! One driver: the value that it has now, and its projected transactions.

ghost use Rattle.std.specs.Prelude.{◌≡◌, [], nat_le, OnOk, OnErr};
ghost use Rattle.std.specs.List.{list_any};
ghost use Rattle.vd_kernel.specs.Drivers.{with_assigned, advanced};
ghost use Rattle.vd_kernel.specs.Cycles.{times, least};

use crate::assignments::{Delay, Transaction};
use crate::projections::{after_assignment, due_value};
use std::alloc::{AllocError, Global};
use std::marker::Model;
use vd_values::Scalar;

/// A driver: the value that it has now, and the transactions to come, earliest first.
#[derive(Drop)]
pub struct DriverList {
    current: Scalar,
    waiting: Vec<Transaction>,
}

impl Model for DriverList {
    ghost use Rattle.vd_kernel.specs.Drivers.{Driver};
    ghost use Rattle.vd_kernel.specs.DriverLists.{IsAscending};

    ghost Value = { Driver };

    ghost view = { λ d. record { current = d.current; waiting = d.waiting.items } };

    ghost invariant = { λ d. IsAscending d.waiting.items };
}

impl DriverList {
    /// A driver with this value, for which nothing is projected.
    pub fn new(alloc: Global, initial: Scalar) -> DriverList
        ensures { result ≡ record { current = initial; waiting = [] } }
    {
        DriverList {
            current: initial,
            waiting: Vec::new(alloc),
        }
    }

    /// The value that it has now.
    pub fn current(&self) -> Scalar
        ensures { result ≡ self.now.current }
    {
        self.current
    }

    /// Takes a transaction of an assignment. An `Err` changes nothing.
    pub fn assign(
        &mut self,
        alloc: Global,
        delay: Delay,
        new: Transaction,
    ) -> Result<(), AllocError>
        ensures ok { OnOk result (self.new ≡ with_assigned delay new self.old) }
        ensures err { OnErr result (self.new ≡ self.old) }
        ensures current { self.new.current ≡ self.old.current }
    {
        self.waiting = after_assignment(alloc, &self.waiting, delay, new)?;
        Ok(())
    }

    /// Takes the value that it has at this time. Where nothing is due it goes through no transaction.
    pub fn update(&mut self, now: u64)
        ensures { self.new ≡ advanced now self.old }
    {
        if !self.is_due(now) {
            return;
        }
        self.current = due_value(self.current, &self.waiting, now);
        self.waiting.retain(|t| now < t.time);
    }

    /// Whether a transaction is due at this time. The first one is the earliest.
    pub fn is_due(&self, time: u64) -> bool
        ensures { result ≡ list_any (λ t. nat_le t.time time) self.now.waiting }
    {
        match self.waiting.first() {
            Some(t) => t.time <= time,
            None => false,
        }
    }

    /// The time of the earliest transaction.
    pub fn next_time(&self) -> Option<u64>
        ensures { result ≡ least (times self.now) }
    {
        match self.waiting.first() {
            Some(t) => Some(t.time),
            None => None,
        }
    }
}
