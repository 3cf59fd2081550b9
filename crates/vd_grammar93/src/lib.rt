//! The grammar of revision 1993 as a table, and its reader.
#![tactic(auto)]

mod claims;
pub mod laws;
mod nonterminals;
mod reader;
mod rows;

pub use reader::{lists, read93, read93_within};
