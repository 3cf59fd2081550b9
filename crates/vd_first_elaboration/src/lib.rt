//! The elaborated design of a top, for both revisions: definitions that contracts cite.
#![tactic(auto)]
