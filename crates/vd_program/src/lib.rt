//! What every mode of the program shares: reading its FILEs, the lines of its answers, and writing the channels.
#![tactic(auto)]

pub mod contents;
pub mod due;
mod lines;
pub mod performing;
pub mod reading;
pub mod task;
mod writing;

pub use contents::Contents;
pub use due::DueBytes;
pub use lines::too_many_units;
pub use performing::{MEMORY, perform, refuse_words};
pub use reading::{FilesEnd, read_files};
pub use task::Task;
