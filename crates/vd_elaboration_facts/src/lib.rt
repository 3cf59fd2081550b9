//! Designs that are written out by hand, and their traces: facts that are computed.
#![tactic(auto)]

pub mod facts;
