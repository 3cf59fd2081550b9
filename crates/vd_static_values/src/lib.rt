//! What is known of declarations and names when the text is analysed, and what it is for an environment to have it: the words of the crates that
//! evaluate static expressions. (IEEE 1076, static expressions)
//!
//! The values of locally static expressions, as functions over values and subtypes as trees: operators, literals, conversions, attributes. Where
//! the definition stops there is no value.
#![tactic(auto)]

pub mod attributes;
mod characters;
pub mod converting;
mod elements;
pub mod entries;
mod finding;
pub mod fitting;
pub mod literals;
pub mod names;
pub mod nodes;
pub mod operating;
pub mod positions;
mod regrouping;
pub mod senses;
mod subtypes;

pub use attributes::{array_bound, array_length, range_of_array, scalar_bound, type_attribute};
pub use converting::convert;
pub use entries::{Entry, Ground};
pub use fitting::{fit, fit_whole};
pub use literals::{integer, physical, string};
pub use names::{KnownName, NameSubtype, Ranging, TypeAttribute};
pub use nodes::{Arguments, Bracketed, Node, Piece};
pub use operating::operate;
pub use positions::position;
pub use senses::{Association, Sense};
