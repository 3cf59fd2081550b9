//! What is known of names when the text is analysed, made piece by piece. (IEEE 1076, names; static expressions)
//!
//! The fields of record subtypes by their numbers, in few steps.
#![tactic(auto)]

pub mod calls;
pub mod copies;
mod fields;
pub mod firsts;
pub mod grounds;
pub mod indicated_fields;
pub mod jumps;
pub mod operators;
pub mod steps;
pub mod subtypes;
pub mod values;

pub use indicated_fields::FieldTable;
pub use jumps::Jump;
