//! What the parts of a node are to it, in memory: values with or without bounds from their place, actuals, formals, targets.
//! (IEEE 1076, aggregates; association lists)
#![tactic(auto)]

pub mod elements;
pub mod lists;
pub mod rows;
pub mod standings;

pub use standings::{Standing, standings_of};
