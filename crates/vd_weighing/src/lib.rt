//! The weight of a design: definitions that contracts cite.
//!
//! The weight of a resolved design, by one walk over it and in numbers that stop at the greatest one of 64 bits.
#![tactic(auto)]

mod generates;
mod names;
mod nodes;
mod numbers;
mod ports;
mod table;
mod tables;
mod views;
pub mod weigher;

pub use weigher::weight;
