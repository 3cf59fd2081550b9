//! The rules that hang on forms, texts and the numbers of declarations alone, and on no type or value.
#![tactic(auto)]

pub mod around;
mod choices;
pub mod functions;
mod judging;
pub mod loops;
mod names;
mod statements;
pub mod tables;

pub use judging::first_structure_refusal;
