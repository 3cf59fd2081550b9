//! What expressions and subtype indications at a place of a design stand for, by what is known of its declarations there.
//! (IEEE 1076, static expressions; subtype declarations)
#![tactic(auto)]

pub mod evaluating;
pub mod indications;
mod kinds;
mod making;
mod reading;
pub mod surroundings;

pub use evaluating::{node, nodes};
pub use indications::indicated_twice;
pub use kinds::{Leaf, Listing, NodeKind, PieceKind, RangeKind};
pub use reading::{known_node, known_nodes};
pub use surroundings::Surroundings;
