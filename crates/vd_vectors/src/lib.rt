//! Operators on values of BIT, BOOLEAN and STD_ULOGIC and on arrays of them, and orders of arrays of discrete elements.
#![tactic(auto)]

pub mod laws;
pub mod lists;
pub mod logical;
pub mod logics;
pub mod matching;
pub mod orders;
pub mod shifts;

pub use laws::{results_are_as_long, support_functions_are_operators, two_values_are_bits};
pub use logical::{LogicalOperator, logical_operation, negated, reduction};
pub use logics::LogicType;
pub use matching::{condition, matches};
pub use orders::{Relation, matching_ordered, ordered};
pub use shifts::{ShiftOperator, shift};
