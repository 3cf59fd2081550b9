//! The ways of every form of an expression.
#![tactic(auto)]

mod attributing;
mod elements;
pub mod laws;
mod making;
pub mod names;
pub mod setting;
pub mod suffixes;
pub mod values;
mod wanted;

pub use setting::{ends_in, ways_in};
