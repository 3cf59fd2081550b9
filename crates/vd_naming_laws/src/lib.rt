//! Laws of the names of a design: resolving them keeps the syntax.
//!
//! Laws of the numbers that names get: what a node or a declaration names is declared.
#![tactic(auto)]

pub mod laws;
pub mod number_laws;
