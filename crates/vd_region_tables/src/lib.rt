//! The tables by which declarations are found, and their keys.
#![tactic(auto)]

pub mod firsts;
pub mod homes;
pub mod keys;
pub mod numbers;
pub mod table;
pub mod used;

pub use firsts::Firsts;
pub use homes::Homes;
pub use keys::{Key, Name, Sort, key_of};
pub use table::Table;
pub use used::Used;
