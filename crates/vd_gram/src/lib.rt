//! Grammars given by tables: whether a table is fit for reading by one symbol, and reading by it.
#![tactic(auto)]

mod checking;
mod choices;
mod claims;
pub mod derivation;
pub mod laws;
mod numbers;
mod parsing;
mod reading;
mod stack;
pub mod steps;
pub mod tables;

pub use checking::check;
pub use derivation::{Cursor, Derivation, Opened};
pub use parsing::{parse, tell};
pub use steps::{Builder, Step};
pub use tables::{
    CheckedTable, Claim, Claims, END, ParseEnd, Production, Productions, Symbol, Symbols, Table,
};
