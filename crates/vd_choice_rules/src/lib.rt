//! Statements with choices, with what is known of them when the text is analysed, and choices of scalar selectors. (IEEE 1076, case statement; selected
//! signal assignment; selected variable assignment; case generate)
//!
//! Statements with choices: these are locally static and of the selector's length, none is given twice or matches an earlier one, and none is missing.
//! (IEEE 1076, case statement; selected signal assignment; selected variable assignment; case generate)
#![tactic(auto)]

mod alternatives;
mod arrays;
mod covering;
mod lengths;
mod matching;
mod positions;
mod repeats;
mod scalars;
pub mod selecting_scalars;
pub mod selecting_statements;
mod selectors;
pub mod statements;
mod texts;

pub use selecting_statements::{Selecting, selecting_of};
pub use statements::choice_refusals;
