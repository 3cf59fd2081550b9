//! The syntax trees of the first language, in both revisions.
#![tactic(auto)]

pub mod designs;
pub mod form;
pub mod form_tests;

pub use designs::{Design19, Design93};
pub use form::Form;
