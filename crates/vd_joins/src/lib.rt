//! Whether the rows of a map join a signal of the source and one of the text that is written.
#![tactic(auto)]

pub mod joining;
mod labels;
mod levels;
mod names;
mod objects;
mod steps;

pub use joining::join;
