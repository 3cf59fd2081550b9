//! The text of a trace, written step by step behind what a buffer holds already.
#![tactic(auto)]

mod paths;
mod reports;
pub mod steps;
pub mod types;
mod values;

pub use steps::{add_done, add_quiet, add_shown_step, add_stop, add_stopped_step};
pub use types::TypeText;
