//! The states and the ways by which expressions are resolved.
#![tactic(auto)]

pub mod states;
pub mod ways;

pub use states::{Prefix, State, Want};
pub use ways::Way;
