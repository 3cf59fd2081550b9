//! Which tokens of a tree of revision 1993 stand side by side.
#![tactic(auto)]

mod laws;

pub use laws::tokens_stand_side_by_side;
