//! Resolved trees: syntax trees with a declaration at each name and a type at each expression, and what builds them.
#![tactic(auto)]

pub mod builder;
pub mod node;
mod stack;
pub mod trees;

pub use builder::Builder;
pub use node::Resolved;
pub use trees::{Resolved19, Resolved93, Tree};
use vd_forest::Cursor;

/// A resolved tree's nodes, read from the front.
pub type ResolvedCursor<'a> = Cursor<'a, Resolved>;
