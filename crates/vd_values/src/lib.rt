//! The values of `std_ulogic` and what its operators give, scalar values, sums of times, and what stops a run.
#![tactic(auto)]

pub mod logic;
pub mod matching;
pub mod resolution;
pub mod scalar;
pub mod times;

pub use logic::{Logic, logic_and, logic_not, logic_or, logic_xor};
pub use matching::{condition, matches};
pub use resolution::resolve;
pub use scalar::{Scalar, StopKind};
pub use times::{time_add, time_div, time_scale, time_sub};
