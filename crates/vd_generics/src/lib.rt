//! Packages and functions with generics, and their instances.
//!
//! Each instance of a package with generics becomes a package with a body at its place, each instance of a function a function there. What they are
//! instances of is gone. A copy is the text as it became, in which each number stands for another one: what the header declares for what the instance
//! declares in its place, and what bodies declare for new declarations behind all others.
#![tactic(auto)]

mod actuals;
mod copies;
mod declared;
pub mod expansion;
mod fresh;
mod functions;
mod held;
mod instances;
mod packages;
mod renaming;
mod templates;
mod trees;
mod under;
mod units;

pub use expansion::expand;
