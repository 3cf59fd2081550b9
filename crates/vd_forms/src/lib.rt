//! The syntax trees of both revisions: the forms of nodes, which trees are valid, and designs.
#![tactic(auto)]

mod designs;
pub mod form;
mod form_tests;

pub use designs::{Design19, Design93};
pub use form::Form;
pub use form_tests::{
    is_concurrent_statement, is_expression, is_leaf, is_list, is_marked, is_sequential_statement,
    is_weighed,
};
