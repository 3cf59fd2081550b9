//! A worked example of the first language, from the definitions alone.
#![tactic(auto)]

pub mod example;
