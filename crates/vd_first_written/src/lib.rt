//! The written text is a text of the 1993 language.
#![tactic(auto)]

mod written;

pub use written::{written_are_given, written_is_93};
