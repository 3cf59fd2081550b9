//! The rules that need types, values and static names, for both revisions: definitions that contracts cite.
//!
//! The rules that need types, values and static names, in groups that are asked one by one, and the first refusals of all of them.
#![tactic(auto)]

pub mod array_facts;
pub mod arrays;
pub mod bounds;
pub mod constraints;
pub mod firsts;
pub mod forms;
pub mod group_laws;
pub mod inside;
pub mod laws;
mod nodes;
pub mod objects;
pub mod part_facts;
pub mod parts;
pub mod refusing;
pub mod statics;
pub mod subtypes;
pub mod types;

pub use bounds::{BoundsTable, TreeBounds, all_bounds};
pub use firsts::{Firsts, nothing_refused, together};
pub use forms::IndicatedForm;
pub use refusing::refused_if;
pub use statics::StaticSort;
