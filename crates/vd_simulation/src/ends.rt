//! How a simulation ends.

use crate::round::ProcessStop;

/// Why a simulation doesn't go on: a process stopped it, or memory ran out.
#[derive(Clone, Copy, PartialEq, Eq, Debug)]
pub enum SimulationEnd {
    Stop(ProcessStop),
    Memory,
}
