//! The modes and views of a design in tables by number, and what names reach.
#![tactic(auto)]

pub mod copies;
mod counts;
pub mod found;
pub mod interfaces;
mod numbers;
pub mod places;
pub mod reaching;

pub use copies::Copies;
pub use found::{Found, Oriented};
pub use interfaces::Interfaces;
pub use places::{
    is_signal_name, is_variable_name, may_be_assigned, may_be_driven, mode_reached,
    names_view_port, oriented, reads_out,
};
pub use reaching::{Reached, is_over, reached_by};
