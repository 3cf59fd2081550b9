//! Whether choices give all values that they must take, over the ranges of their values and the texts of their elements alone. (IEEE 1076, choices)
//!
//! The choices of statements and aggregates, with what is known of them when the text is analysed. (IEEE 1076, choices)
//!
//! Choices of statements that are compared by `?=`: no value of a choice matches one of an earlier choice. (IEEE 1076-2019, matching case statement)
#![tactic(auto)]

pub mod choices;
pub mod choices_that_match;
pub mod covering;
pub mod covering_ranges;
mod matching;
pub mod ranges;
pub mod refusals;
pub mod texts;
mod values;

pub use choices::{Choice, add_choices, choices_given, place_of};
pub use choices_that_match::first_matching;
pub use covering::{are_covered, counted};
pub use covering_ranges::any_shares;
pub use ranges::{are_all_known, known_bounds};
pub use refusals::{first_not_static, first_repeated};
pub use texts::are_texts_covered;
