//! Reading a token list of the first language, in either revision: a syntax tree, or the first place at which there is none.
#![tactic(auto)]

pub mod reader;
mod reader_expressions;
mod reader_known;
mod reader_names;
mod reader_ports;
mod reader_processes;
mod reader_sensitivities;
mod reader_steps;

pub use reader::{GrammarEnd, one_reading, read19, read93};
