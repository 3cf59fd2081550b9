//! What nodes of each kind come to when the text is analysed: words, literals, operators, brackets, ranges, and pieces of names.
//! (IEEE 1076, static expressions; names)
#![tactic(auto)]

mod arguments;
mod attributes;
mod brackets;
pub mod choices;
pub mod elements;
pub mod expressions;
pub mod firsts;
pub mod literals;
pub mod marks;
mod names;
mod parts;
pub mod ranges;
pub mod subtypes;
pub mod words;

pub use attributes::{attribute_piece, qualification_piece, range_piece};
pub use brackets::arguments_piece;
pub use firsts::first_piece;
pub use literals::{character_literal, number_literal, string_literal, time_literal};
pub use names::whole_name;
pub use words::{selection_piece, word};
