//! What design units declare at their ends. (IEEE 1076, design units and their analysis; entity declarations; architecture bodies; package
//! declarations; package bodies; context declarations)
//!
//! What a form opens in front of its parts: a region, or what its parts have at hand. (IEEE 1076, declarative regions)
#![tactic(auto)]

pub mod bodies;
pub mod body_openings;
pub mod endings;
pub mod entering;
pub mod hand;
pub mod opening;
pub mod packages;
pub mod regions;
pub mod words;

pub use bodies::instances_in;
pub use endings::{architecture_ends, context_ends, entity_ends, unit_ends};
pub use entering::enter_unit;
pub use opening::{open, within};
pub use packages::{package_body_ends, package_ends};
pub use words::{is_library_word, refused_word};
