//! The walk that finds out about a design what isn't local, before passes change it.
//!
//! What is known of a node stands in the note at it, and what the passes declare besides stands behind the declarations of the design.
#![tactic(auto)]

pub mod copies;
pub mod implicit;
pub mod noting;
pub mod selectors;

pub use copies::{all_copied, copied};
pub use noting::{Noting, note};
