//! The words of the program and its top call.
#![tactic(auto)]

pub mod action;
mod conversion;
pub mod laws;
pub mod top;
pub mod words;

pub use laws::{runs_are_equal, sure_call};
pub use top::{one_outcome, some_outcome, vdown};
pub use vd_first_runs::{Run19, Run93, Top, elaborate19, elaborate93, top19, top93};
pub use vd_first_tracing::{Traced, run19, run93};
