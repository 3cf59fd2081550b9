//! What ties a written design to its source: the map is whole, the interface is kept, both have the same run.
#![tactic(auto)]

pub mod laws;
