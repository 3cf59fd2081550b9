//! Largest expressions of a design: each is resolved by what its place wants, or refused. (IEEE 1076, the context of overload resolution)
//!
//! Expressions where a design has them: conditions, ranges, targets, selectors, and indexes of array types. (IEEE 1076, the context of overload
//! resolution; array types; loop statements)
#![tactic(auto)]

pub mod edges;
pub mod expression_reading;
pub mod expressions;
pub mod indexes;
pub mod known;
pub mod marks;
pub mod ranges;
pub mod reading;
pub mod steps;
pub mod wants;

pub use edges::edge_of_no_signal;
pub use expressions::{mark_of, read_as, read_as_mark, refused_names};
pub use known::{expression, where_known};
pub use marks::{mark_read_beside, only_mark};
pub use reading::{Read, read_beside};
pub use steps::{array_index, index_mark, parameter, selector, surplus, target};
pub use wants::{can_select, fits_wanted, is_absent, mark_declared, wanted_at};
