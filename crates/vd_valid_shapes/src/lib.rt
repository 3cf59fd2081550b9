//! When every shape of a derivation is a valid syntax tree, and readers that give designs.
#![tactic(auto)]

pub mod laws;
mod reading19;
mod reading93;

pub use reading19::read_design19;
pub use reading93::read_design93;
