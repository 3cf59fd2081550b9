//! Names that are refused by what is visible alone.
#![tactic(auto)]

mod finder;
mod naming;
mod pieces;
mod seen;
mod spots;

pub use finder::first_refusal;
pub use pieces::path_seen;
pub use seen::Seen;
pub use spots::{Need, Spot};
