//! Names in functions: no signals, and no variables that the function doesn't declare itself.
#![tactic(auto)]

pub mod counting;
pub mod foreign;
pub mod locals;
pub mod numbers;
pub mod reaching;
pub mod walk;

pub use walk::foreign_refusals;
