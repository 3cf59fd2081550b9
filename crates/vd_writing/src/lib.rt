//! What is written of a tree of revision 1993, by a loop over a stack in memory.
#![tactic(auto)]

mod finding;
mod items;
mod rows;
mod stack;
mod tokens;

pub use items::{Item, Items};
pub use tokens::derive93;
