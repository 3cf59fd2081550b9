//! What is given to each design: `std.standard` and `ieee.std_logic_1164` of both revisions, and the operators that a type brings
//! with it.
#![tactic(auto)]

mod entering;
pub mod numbers;
pub mod operands;
pub mod operators;
mod packages;
pub mod rows;
mod tables;

pub use entering::{bring_operators, declare_operators};
pub use packages::given;
