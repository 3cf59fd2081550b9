//! The lines of a file that are read.
#![tactic(auto)]

mod conditions;
mod groups;
mod kinds;
mod pieces;
pub mod plain;
pub mod select;
pub mod selected;
pub mod settings;
mod stack;
mod words;

pub use selected::{Line, Lines, Selected};
pub use settings::Settings;
