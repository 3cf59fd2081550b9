//! The elements of a generic map: the generic that each is for, and its actual. (IEEE 1076, association lists; generic map aspects)
//!
//! Generic maps: each element by the generic that it is for, and the actuals of types and functions behind a map. (IEEE 1076-2019, interface
//! declarations; generic map aspects; IEEE 1076, association lists)
#![tactic(auto)]

pub mod associations;
pub mod element;
pub mod elements;
pub mod formals;
pub mod functions;
pub mod given;
pub mod inside;
pub mod maps;
pub mod missing;
pub mod types;

pub use associations::{association_node, choices_node, named_front, names_of_expression};
pub use element::Element;
pub use elements::Elements;
pub use maps::generic_map;
