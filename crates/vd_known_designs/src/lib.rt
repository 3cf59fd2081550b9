//! Subtypes as trees, with what is known of each: how it is inside a process or a function, and how static its bounds are. No tree is looked at
//! twice, however often its subtype is asked for.
//!
//! What is known of declarations when the text is analysed, as a table that a walk takes down and along a tree: it remembers earlier states and
//! goes back to them. (IEEE 1076, static expressions; declarations.)
//!
//! A design with what is known of its declarations at a place of its text, in memory. (IEEE 1076, static expressions; declarations)
#![tactic(auto)]

mod contents;
mod declaring;
pub mod design;
mod entries;
pub mod indications;
mod literals;
mod marks;
pub mod shapes;
mod slots;
mod table;
pub mod tables;

pub use design::KnownDesign;
pub use indications::TwoSubtypes;
pub use marks::given_table;
pub use table::KnownTable;
pub use tables::SubtypeTables;
