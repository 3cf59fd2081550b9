//! The words of the command line that are taken, and the command that they mean.
#![tactic(auto)]

pub mod command;
mod given;
mod numbers;
mod plan;
pub mod reading;

pub use command::{Command, FileNames, Mode, WordsEnd};
pub use reading::read_words;
