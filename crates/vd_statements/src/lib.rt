//! Statements and declarations as the text of revision 1993 has them.
//!
//! A design as it is laid out: one declaration a name, no word that may be left out, ends that say what ends, maps by name in the order of what they
//! associate, and calls by position. No name means anything else than before.
#![tactic(auto)]

pub mod associations;
mod lists;
pub mod normal_form;
pub mod places;
pub mod slots;
pub mod words;

pub use normal_form::normal;
