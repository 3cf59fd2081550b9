//! Trees that are written out by hand, and what the definitions say that they mean: facts that are computed.
#![tactic(auto)]

pub mod facts;
