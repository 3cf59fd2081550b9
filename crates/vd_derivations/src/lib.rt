//! Derivations of trees from pieces: for each form and each place where it may stand a piece of a derivation with holes for
//! the parts. It is decided over the whole table of pieces whether they lead back to the trees.
#![tactic(auto)]

pub mod laws;
