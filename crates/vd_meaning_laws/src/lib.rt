//! Laws of what trees mean, which passes cite.
//!
//! Places where an expression is only evaluated, which passes cite where they write it in another way.
//!
//! Laws of elaboration, which passes cite.
#![tactic(auto)]

pub mod laws;
pub mod laws_of_elaboration;
pub mod place_laws;
