//! What a walk over a design finds out of its nodes ahead of the passes: which indexes and bounds in the names of signals are static, and what they
//! are; which actuals of ports are expressions that a signal stands for; and how statements with choices are written. (IEEE 1076, static expressions;
//! port map aspects; case statement)
#![tactic(auto)]

pub mod actuals;
pub mod brackets;
pub mod choices;
pub mod selecting;
pub mod signals;
pub mod variables;
pub mod walking;

pub use walking::known_notes;
