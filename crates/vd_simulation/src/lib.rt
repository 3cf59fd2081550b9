//! The simulation cycle in code, for processes of any language.
#![tactic(auto)]

mod ends;
mod net;
mod process;
mod round;
mod seen;
mod simulation;
mod timeouts;
mod views;

pub use ends::SimulationEnd;
pub use process::{Cause, Ending, Process, Seen, Turn};
pub use round::{ProcessStop, Waiting};
pub use simulation::Simulation;
