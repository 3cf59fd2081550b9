//! Where arrays need bounds.
#![tactic(auto)]

mod aggregates;
pub mod bounds;
mod indications;
mod operands;
mod sorts;
mod written;

pub use bounds::bound_refusals;
