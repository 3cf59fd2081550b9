//! The written text: the tokens of a 1993 tree, and their layout in lines.
#![tactic(auto)]

pub mod layout;
pub mod reading_back;
pub mod writing;

pub use writing::derive93;
