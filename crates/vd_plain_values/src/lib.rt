//! Values from plain tables: of declarations, of literals and of operators whose operands have been evaluated.
#![tactic(auto)]

pub mod answers;
pub mod environment;
pub mod literals;
pub mod operators;
pub mod strings;

pub use environment::{Entry, SubtypeForm};
