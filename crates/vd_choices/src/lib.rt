//! The choices of case statements, selected assignments and aggregates: whether they cover what they must take, and which of them is
//! given twice. No call lists values.
#![tactic(auto)]

pub mod covering;
pub mod intervals;
pub mod patterns;
pub mod texts;

pub use covering::texts_cover;
pub use intervals::{Interval, covers, first_repeated, is_repeated};
pub use patterns::{Pattern, first_overlapping};
pub use texts::{Text, first_repeated_text};
