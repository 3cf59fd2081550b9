//! The last step of a conversion: the syntax of revision 1993 in which every name is written so that it is read as it is meant.
//!
//! One walk over a resolved tree, in the order of its text, by the rows of its forms, with the regions that the written text has so far. A name is
//! written alone where that is visible, else behind its library and unit. What is written is read and judged again by whoever asks for it: nothing
//! is proved here but that each call is safe and ends.
#![tactic(auto)]

pub mod apart;
pub mod clauses;
pub mod driver;
pub mod ends;
pub mod entering;
pub mod expressions;
pub mod levels;
pub mod linking;
pub mod marks;
pub mod nodes;
pub mod openings;
pub mod operators;
pub mod qualified;
pub mod roots;
pub mod settling;
pub mod spellings;
pub mod times;
pub mod words;
pub mod writer;

pub use driver::{Written, write_names};
