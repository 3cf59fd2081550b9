//! Designs of revision 2019 whose names are found by the definitions, and what they show when they run. Facts that are computed.
#![tactic(auto)]

pub mod facts;
