//! The map from the names of the 2019 text to those of the written one, and its text.
#![tactic(auto)]

pub mod map;
mod map_writing;

pub use map::{NameMap, Rows, map_of};
pub use map_writing::map_text;
