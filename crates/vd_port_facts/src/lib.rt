//! What instances ask of the text of ports and of the generics of entities: defaults, and what subtypes and defaults name.
#![tactic(auto)]

pub mod actuals;
pub mod entities;
pub mod facts;
pub mod generics;
mod lefts;
pub mod names;
mod needs;
pub mod ports;
mod trees;

pub use facts::PortFacts;
