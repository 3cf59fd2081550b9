//! The grammar of the first language, as a law of its derivations.
#![tactic(auto)]

pub mod law;

pub use law::one_derivation;
