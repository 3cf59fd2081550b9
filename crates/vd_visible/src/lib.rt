//! What is known at a place of a design: what names mean, what types are made of, and what stands in lists in brackets.
#![tactic(auto)]

pub mod attributes;
pub mod brackets;
mod calls;
mod characters;
pub mod kinds;
pub mod lists;
pub mod roles;
pub mod surroundings;
pub mod type_lists;
pub mod types;

pub use attributes::Attribute;
pub use brackets::Brackets;
pub use kinds::Kind;
pub use roles::Role;
pub use surroundings::{Surroundings, port_in};
