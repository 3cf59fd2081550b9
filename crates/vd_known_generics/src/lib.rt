//! The actuals of instances, by what they come to when the text is analysed. (IEEE 1076, generic map aspects; subprogram and package instantiation
//! declarations; static expressions)
//!
//! Generics that stand for their actuals, and what instances of functions and packages declare, in memory. (IEEE 1076, generic map aspects;
//! subprogram and package instantiation declarations)
#![tactic(auto)]

pub mod actuals;
mod constants;
mod copies;
mod elements;
mod functions;
mod generics;
pub mod instances;
mod left;

pub use actuals::{Actual, actuals_known};
pub use elements::Given;
pub use functions::{ActualFunction, actual_function, actual_mark, generics_of};
pub use instances::{function_instance_declared, generics_stand, taken};
