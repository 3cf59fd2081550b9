//! Processes of the first language whose names are resolved, in code.
#![tactic(auto)]

pub mod evaluation;
pub mod expressions;
pub mod names;
pub mod numbers;
pub mod processes;
pub mod resolution;
