//! What the passes from tree to tree know of a design besides the node at hand, and nodes that they make.
//!
//! Nodes with notes; what each form declares, by a table; what a text declares, in its order, and the tables of a design by number; names, calls and
//! literals.
#![tactic(auto)]

pub mod declares;
pub mod entries;
pub mod makers;
pub mod noted;
pub mod tables;

pub use declares::{Names, Row, row_of};
pub use entries::{Entry, declared_in, first_number, made_in, number_at, number_of};
pub use makers::{Bare, absent, call_of, letter, mark_name_of, name_of, number, word};
pub use noted::{CaseForm, Note, Noted};
pub use tables::{Tables, tables_of};
