//! Clauses of units: library clauses, use clauses and references to contexts; the entities of architectures and instances; elements of views;
//! and the packages and functions that are instantiated. (IEEE 1076, design units and their analysis; use clauses; component instantiation
//! statements; IEEE 1076-2019, mode view declarations; generic packages; generic subprograms)
#![tactic(auto)]

pub mod architectures;
pub mod contexts;
pub mod elements;
pub mod entities;
mod found;
pub mod generics;
pub mod libraries;
mod pieces;
pub mod uses;

pub use architectures::instance_architecture;
pub use contexts::context_name;
pub use elements::element_names;
pub use entities::{entity_word, instance_entity};
pub use generics::{generic_function, generic_package};
pub use libraries::library_word;
pub use uses::use_name;
