//! What is known of a design while its names are resolved: what is done with each form, what is declared so far, and what is known at a
//! place. (IEEE 1076, scope and visibility)
#![tactic(auto)]

pub mod at;
mod counts;
mod members;
pub mod names;
pub mod notes;
pub mod rows;
pub mod sorts;
pub mod steps;

pub use at::{Actual, At, Word};
pub use names::Names;
pub use notes::{Formal, Note, Span, Taken};
pub use rows::row_of;
pub use sorts::Sort;
pub use steps::{Ending, Opening, Row, Step, Want};
