//! Walks over forests, each a loop with a stack in memory. Nothing recurses.
//!
//! The first node of a forest, in the order of its text, for which there is an answer, found by a loop.
//!
//! The least refusal of a forest, by place and then by rule, found by a loop.
//!
//! All answers of the nodes of a forest, in the order of its text, gathered by a loop.
//!
//! Walking over a forest once, by a loop, with a state, a table and the least refusal.
//!
//! Walking over a forest once with a table that follows: it knows what holds at a place from what stood in front of it and round it, and finds what is broken there.
//!
//! What trees come to, from the leaves on, where that of a tree hangs on the tree itself and on what its parts come to. Nothing recurses.
#![tactic(auto)]

pub mod finding;
pub mod following;
pub mod gathering;
pub mod laws;
pub mod least;
mod levels;
mod stacking;
mod visits;
pub mod walking;

pub use finding::{Finding, find_first};
pub use following::{Following, follow};
pub use gathering::find_all;
pub use least::{Judging, find_least, is_before, is_less, lesser};
pub use stacking::{FromLeaves, from_leaves};
pub use walking::{Entry, Outcome, Walking, walk};
