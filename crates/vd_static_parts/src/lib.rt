//! Nodes of resolved trees with what is known of them, made from what is known of their parts: what is common to all kinds of nodes.
//! (IEEE 1076, static expressions)
#![tactic(auto)]

pub mod attributes;
pub mod bounds;
pub mod brackets;
pub mod calls;
pub mod conversions;
pub mod copies;
pub mod named;
pub mod nodes;
pub mod numbers;
pub mod parts;
pub mod types;

pub use attributes::{attributed, range_of};
pub use conversions::{conversion, qualified};
pub use types::type_attribute_piece;
