//! What expressions and statements mean, in both revisions: definitions that contracts cite.
#![tactic(auto)]

pub mod laws;
