//! A tree of revision 1993 as tokens, and as text that is laid out in lines.
#![tactic(auto)]

mod layout;
mod printing;
mod tokens;

pub use printing::{print, text_of};
pub use tokens::derive93;
