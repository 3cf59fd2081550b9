//! What the functions of the support package give for some arguments, by their texts and by the definitions of trees alone: facts that are computed.
#![tactic(auto)]

pub mod facts;
