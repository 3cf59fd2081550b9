//! Making trees of another sort from a forest, by one walk over it in the order of its text, with a table that grows. Nothing recurses.
#![tactic(auto)]

pub mod touring;

pub use touring::{Entry, Touring, tour};
