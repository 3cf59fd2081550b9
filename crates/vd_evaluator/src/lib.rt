//! The value of an expression, by a plain program beside the definition of what expressions mean.
#![tactic(auto)]

pub mod ends;
mod evaluating;
mod kinds;
mod names;
mod nodes;
mod pieces;
mod senses;
mod stacking;
mod words;

pub use ends::EvaluateEnd;
pub use evaluating::evaluate;
pub use vd_plain_values::{Entry, SubtypeForm};
