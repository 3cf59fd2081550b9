//! What processes read: the list of a `process (all)`, and that of a concurrent statement that becomes a process.
#![tactic(auto)]

mod facts;
pub mod orders;
mod reads;
pub mod sensitivity;
mod steps;
mod written;

pub use sensitivity::lower_sensitivity;
