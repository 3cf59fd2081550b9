//! Actuals of generics: marks for types, functions for functions, expressions for constants. (IEEE 1076-2019, interface declarations; generic map
//! aspects)
#![tactic(auto)]

pub mod known;
pub mod meaning;
pub mod outcomes;
pub mod profiles;
pub mod refusals;
pub mod stand_ins;
pub mod trees;

pub use known::Known;
pub use outcomes::outcome_for;
pub use profiles::{function_among, profile_in};
pub use stand_ins::StandIns;
