//! Aggregates: their choices are locally static, none is given twice, none is left out, and `others` has bounds. (IEEE 1076, aggregates)
#![tactic(auto)]

pub mod aggregates;
mod arrays;
mod elements;
mod fields;
mod spans;

pub use aggregates::aggregate_refusals;
