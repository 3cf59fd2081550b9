//! Real files as the tray of a call of the program.
#![tactic(auto)]

pub mod file_tray;

pub use file_tray::FileTray;
