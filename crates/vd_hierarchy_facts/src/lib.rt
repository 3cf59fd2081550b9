//! Designs of revision 2019 with instances, generates and several drivers, from their texts, and what they show when they run: facts that are computed.
#![tactic(auto)]

pub mod facts;
