//! The forms of literals: where each ends, and what it means.
#![tactic(auto)]

pub mod bits;
pub mod bytes;
pub mod numbers;
pub mod quoted;
pub mod runs;
pub mod values;

pub use runs::{more_length, run_length};
