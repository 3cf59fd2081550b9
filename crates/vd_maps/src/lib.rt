//! The map between a 2019 design and the 1993 one that is written from it, the run that both have, and the interface that is kept.
//!
//! Laws of maps, which passes and the conversion cite.
//!
//! Maps that are written out by hand, and what they join: facts that are computed.
#![tactic(auto)]

pub mod facts;
pub mod laws;
