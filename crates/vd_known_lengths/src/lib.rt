//! The known lengths of expressions, by their form and by locally static bounds alone. (IEEE 1076, case statement)
#![tactic(auto)]

mod arguments;
mod declared;
mod extents;
mod kinds;
pub mod lengths;
mod measuring;
mod names;
pub mod operands;
mod over;
mod pieces;
pub mod shapes;
mod subtypes;

pub use shapes::{Shape, shape_of};
