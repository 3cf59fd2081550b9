//! What the operator or given function that a declaration declares does.
//!
//! What some nodes of resolved trees mean, as far as it hangs on no table, environment or value, and what a name names: read from trees and
//! declarations in code.
#![tactic(auto)]

mod literals;
pub mod operations;
pub mod passing;
mod reading;
pub mod roles;
pub mod sorts;
pub mod symbols;
pub mod tables;

pub use literals::quoted;
pub use operations::{Operation, operation_of};
pub use reading::{
    declaration_of, elements_of, formal_of, is_open, is_positional, is_present, number_made,
};
pub use roles::{Role, role_of};
pub use sorts::{Sort, sort_of};
pub use symbols::{Symbol, symbol_named};
pub use tables::{class_of, is_predefined, mark_of};
