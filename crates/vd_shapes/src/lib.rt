//! Syntax trees from texts of grammars whose tables say what each production does with trees.
#![tactic(auto)]

pub mod actions;
mod entries;
mod growing;
mod reading;
pub mod rows;
pub mod shaping;
mod symbols;
pub mod terminals;

pub use actions::Action;
pub use reading::{GrammarEnd, read};
pub use rows::{Lists, NEXT, Rows};
pub use shaping::{Shaped, shape};
pub use symbols::symbols_of;
