//! Values of every type of the language with their bounds, subtypes, and what it is for a value to be made one of a subtype.
#![tactic(auto)]

pub mod ends;
mod fitting;
pub mod items;
mod joining;
pub mod laws;
mod leaves;
mod nodes;
mod parts;
pub mod ranges;
mod replacing;
pub mod scalars;
pub mod value;
mod vectors;

pub use ends::ValueEnd;
pub use items::Items;
pub use laws::{
    concatenations_join_elements, conversions_keep_values, parts_agree, places_are_indexes,
    values_fit_once,
};
pub use ranges::Bounds;
pub use scalars::{ScalarSubtype, ScalarType};
pub use value::Value;
