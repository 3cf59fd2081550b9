//! Derivations of the trees of revision 1993: the tokens of a design have one, and it leads back to the design.
#![tactic(auto)]

pub mod depth;
pub mod laws;
