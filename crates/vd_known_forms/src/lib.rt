//! What declarations of objects declare for the text behind them, in memory. (IEEE 1076, declarations; static expressions)
//!
//! What functions declare for the text behind them, in memory. (IEEE 1076, subprogram declarations; static expressions)
//!
//! What type definitions define at a place of a design, in memory. (IEEE 1076, types)
//!
//! What declarations declare for the text behind them, by their forms, in memory. (IEEE 1076, declarations)
//!
//! What each form of declaration declares for the text behind it, in memory: objects, functions and packages. (IEEE 1076, declarations)
#![tactic(auto)]

mod arrays;
pub mod constants;
mod enumerations;
pub mod function_forms;
pub mod functions;
mod indexes;
mod lists;
pub mod object_forms;
pub mod objects;
mod records;
mod texts;
pub mod type_forms;
mod types;

pub use function_forms::{function_declared, generic_function_declared, package_declared};
pub use functions::{function_known, result_known};
pub use object_forms::{
    constants_declared, generics_declared, parameters_declared, ports_declared, signals_declared,
    variables_declared, view_ports_declared,
};
pub use type_forms::{subtype_declared, type_declared};
pub use types::type_defined;
