//! Functions where names are resolved: their headers, the declarations that bodies belong to, and functions and types that are generics.
//! (IEEE 1076, subprogram declarations; subprogram bodies; IEEE 1076-2019, interface subprogram declarations)
#![tactic(auto)]

pub mod endings;
pub mod generics;
pub mod headers;
pub mod matching;
pub mod results;
mod tying;

pub use endings::{body_ends, function_ends};
pub use generics::{generic_function_ends, generic_type_ends};
pub use headers::{function_of, written_function};
pub use matching::declaration_of_body;
pub use results::{end_header, result_mark};
