//! The first rule that a design breaks, of both revisions: definitions that contracts cite.
//!
//! Designs that meet the rules of their revision, or else the first rule that they break: names first, then types, values and structure.
#![tactic(auto)]

pub mod accepted;
mod all_groups;
mod groups;
pub mod insides;
pub mod judging;
pub mod levels;
pub mod walking;

pub use accepted::{Accepted, accept19, accept93};
pub use walking::value_refusals;
