//! The readings of an expression, counted up to two, and the only one made, without recursion.
#![tactic(auto)]

pub mod found;
pub mod language;
pub mod laws;
mod memo;
pub mod reading;
mod search;
mod trials;

pub use found::Found;
pub use language::Language;
pub use laws::{languages_compared, readings_are_typed};
pub use reading::{count, read};
