//! Declarative regions and what is visible in them. (IEEE 1076, scope and visibility)
#![tactic(auto)]

mod adding;
mod catalog;
mod clauses;
pub mod entries;
mod finding;
pub mod laws;
pub mod regions;
mod runs;
mod tables;

pub use regions::{EnterEnd, Regions};
