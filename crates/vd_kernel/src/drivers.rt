//! All drivers of a design, and what its signals come to.

ghost use Rattle.std.specs.Prelude.{◌≡◌, ℕ, ◌+◌, ◌^◌, ◌<◌, length, map, nat_le, is_some, flat_map, IfOk, OnOk, OnErr};
ghost use Rattle.std.specs.List.{list_any};
ghost use Rattle.vd_kernel.specs.Drivers.{advanced};
ghost use Rattle.vd_kernel.specs.Cycles.{times, least};
ghost use Rattle.vd_kernel.specs.Orders.{shape_of, IsRingFree};
ghost use Rattle.vd_kernel.specs.Histories.{history_after, history_at};
ghost use Rattle.vd_kernel.specs.Simulated.{effective_of, idle, first_history, made_now, with_assignment};

use crate::assignments::{Delay, Transaction};
use crate::beginnings::{copies, first_histories, idle_drivers};
use crate::driver_list::DriverList;
use crate::histories::{History, note_changes};
use crate::ids::{DriverId, SignalId};
use crate::orders::{Along, order_of};
use crate::shape::{ScalarShape, Shape};
use crate::values::settle;
use crate::walks::{any_is_due, earliest_time, update_all};
use std::alloc::{AllocError, Global};
use std::marker::Model;
use vd_values::Scalar;

/// The drivers of a design, the value of each of its signals, and the events.
#[derive(Drop)]
pub struct Drivers {
    alloc: Global,
    signals: Vec<ScalarShape>,
    inner_first: Vec<usize>,
    outer_first: Vec<usize>,
    lists: Vec<DriverList>,
    driving_values: Vec<Scalar>,
    fresh_values: Vec<Scalar>,
    effective_values: Vec<Scalar>,
    past: Vec<History>,
}

impl Model for Drivers {
    ghost use Rattle.vd_kernel.specs.Simulated.{Simulated, AreKept};

    ghost Value = { Simulated };

    ghost view = { λ d. record { signals = d.signals.items; drivers = d.lists.items; histories = d.past.items } };

    ghost invariant = { λ d. AreKept d.signals.items d.inner_first.items d.outer_first.items d.lists.items d.driving_values.items d.fresh_values.items d.effective_values.items d.past.items };
}

impl Drivers {
    /// The drivers of a design in the beginning.
    pub fn new(alloc: Global, shape: &Shape) -> Result<Drivers, AllocError>
        requires { IsRingFree (shape_of shape.now.scalars.items) }
        ensures signals { IfOk result (λ d. d.signals ≡ shape.now.scalars.items) }
        ensures drivers { IfOk result (λ d. d.drivers ≡ map idle shape.now.drivers.items) }
        ensures histories { IfOk result (λ d. (i : ℕ) → i < length d.signals → history_at d.histories i ≡ first_history (effective_of d i)) }
    {
        let signals = copies(alloc, &shape.scalars)?;
        let inner_first = order_of(alloc, &signals, Along::Sources)?;
        let outer_first = order_of(alloc, &signals, Along::Actuals)?;
        let lists = idle_drivers(alloc, &shape.drivers)?;
        let mut driving_values = vec![in alloc; Scalar::Literal(0); signals.len()]?;
        let mut effective_values = vec![in alloc; Scalar::Literal(0); signals.len()]?;
        settle(
            &signals,
            &inner_first,
            &outer_first,
            &lists,
            &mut driving_values,
            &mut effective_values,
        );
        let fresh_values = Vec::from_slice(alloc, &effective_values)?;
        let past = first_histories(alloc, &effective_values)?;
        Ok(Drivers {
            alloc,
            signals,
            inner_first,
            outer_first,
            lists,
            driving_values,
            fresh_values,
            effective_values,
            past,
        })
    }

    /// Takes an assignment to a driver, made now for a time after this delay. An `Err` changes nothing.
    pub fn assign(
        &mut self,
        driver: DriverId,
        value: Scalar,
        now: u64,
        delay: u64,
        transport: bool,
    ) -> Result<(), AllocError>
        requires time { now + delay < 2 ^ 64 }
        requires driver { driver < length self.old.drivers }
        ensures ok { OnOk result (self.new ≡ with_assignment (made_now driver value (now + delay) transport) self.old) }
        ensures err { OnErr result (self.new ≡ self.old) }
    {
        let mode = if transport {
            Delay::Transport
        } else {
            Delay::Inertial
        };
        let new = Transaction {
            time: now + delay,
            value,
        };
        self.lists[driver.number()].assign(self.alloc, mode, new)
    }

    /// Gives each driver the value that it has at this time, and each signal what follows from it.
    pub fn update(&mut self, time: u64)
        ensures signals { self.new.signals ≡ self.old.signals }
        ensures drivers { self.new.drivers ≡ map (advanced time) self.old.drivers }
        ensures histories { (i : ℕ) → i < length self.old.signals
            → history_at self.new.histories i ≡ history_after (effective_of self.old i) (effective_of self.new i) (history_at self.old.histories i) }
    {
        update_all(&mut self.lists, time);
        settle(
            &self.signals,
            &self.inner_first,
            &self.outer_first,
            &self.lists,
            &mut self.driving_values,
            &mut self.fresh_values,
        );
        note_changes(&mut self.past, &self.effective_values, &self.fresh_values);
        self.effective_values.copy_from_slice(&self.fresh_values);
    }

    /// Whether a transaction is due at this time.
    pub fn due(&self, time: u64) -> bool
        ensures { result ≡ list_any (λ d. list_any (λ t. nat_le t.time time) d.waiting) self.now.drivers }
    {
        any_is_due(&self.lists, time)
    }

    /// The time of the earliest transaction of all drivers.
    pub fn next_time(&self) -> Option<u64>
        ensures { result ≡ least (flat_map times self.now.drivers) }
    {
        earliest_time(&self.lists)
    }

    /// The effective value of a signal.
    pub fn effective(&self, signal: SignalId) -> Scalar
        requires { signal < length self.now.signals }
        ensures { result ≡ effective_of self.now signal }
    {
        self.effective_values[signal.number()]
    }

    /// Whether the latest update gave the signal an event.
    pub fn event(&self, signal: SignalId) -> bool
        requires { signal < length self.now.signals }
        ensures { result ≡ is_some (history_at self.now.histories signal).before }
    {
        self.past[signal.number()].before.is_some()
    }

    /// The value before the signal's latest event.
    pub fn last(&self, signal: SignalId) -> Scalar
        requires { signal < length self.now.signals }
        ensures { result ≡ (history_at self.now.histories signal).last }
    {
        self.past[signal.number()].last
    }
}
