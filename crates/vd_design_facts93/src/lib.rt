//! Designs of revision 1993, from their texts, and what they show when they run: facts that are computed.
#![tactic(auto)]

pub mod facts;
