//! Tops: which units of a design a name of a top means. (IEEE 1076, elaboration of a design hierarchy.)
#![tactic(auto)]

mod forms;
mod names;
pub mod tops;
mod units;

pub use tops::{TopId, top};
