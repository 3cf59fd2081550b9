//! An elaborated design is consistent.
#![tactic(auto)]

pub mod laws;
