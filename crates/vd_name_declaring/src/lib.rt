//! What forms declare at their ends: objects, ports, types and subtypes, and what is noted of them. (IEEE 1076, declarations; types;
//! subtype declarations)
//!
//! Mode views at their ends: each element of the record once, and views of its record type for nested ones. (IEEE 1076-2019, mode view
//! declarations; mode view indications)
#![tactic(auto)]

pub mod ends;
mod formals;
pub mod given;
pub mod indications;
mod literals;
pub mod nested;
mod numbers;
pub mod objects;
pub mod ports;
pub mod subtypes;
pub mod types;
pub mod view_endings;
pub mod words;

pub use ends::{clause_ends, first_ends, nothing_ends, typed_ends};
pub use indications::{indication_ends, is_bounded};
pub use objects::{enter_objects, objects_end};
pub use ports::{enter_ports, ports_end};
pub use subtypes::subtype_ends;
pub use types::{enter_type, type_ends};
pub use view_endings::view_ends;
pub use words::declared_word;
