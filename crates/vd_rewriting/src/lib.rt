//! Passes over forests, each by a loop: how deep or how long a forest is costs no stack.
#![tactic(auto)]

pub mod folding;
pub mod inheriting;
pub mod laws;
pub mod rewriting;
pub mod same;
mod visits;

pub use folding::{Folding, fold};
pub use inheriting::{Inheriting, rewrite_under};
pub use laws::{
    Relating, changes_of_forms, meanings_of_forests, passes_keep_meanings, passes_relate_meanings,
};
pub use rewriting::{Rewriting, rewrite};
pub use same::{Same, copy_shared};
