//! Reading files of revision 2019 into one design.
#![tactic(auto)]

pub mod answers;
pub mod files;
pub mod laws;
mod lexing;
mod reading;
mod selecting;

pub use answers::{DesignEnd, DesignFiles, Warnings};
pub use files::design_of_files;
pub use laws::{one_answer, some_answer};
