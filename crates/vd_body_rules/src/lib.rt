//! Whether a body is like the declaration of its function: what both declare one by one, and trees that say the same.
//!
//! Bodies that differ from the declarations of their functions.
#![tactic(auto)]

pub mod bodies;
pub mod declaring;
pub mod identified;
pub mod items;
pub mod likeness;
pub mod pairs;
pub mod same;
pub mod texts;
pub mod walk;
pub mod words;

pub use likeness::{differs, is_like};
pub use walk::body_refusals;
