//! Calls before the end of the called function's body.
//!
//! Chains of calls: that none is longer than 64, in revision 2019.
#![tactic(auto)]

pub mod around;
mod calls;
pub mod chain_events;
mod chains;
pub mod copies;
pub mod events;
pub mod functions;
pub mod inside;
pub mod reaches;
pub mod tables;

pub use calls::first_call_refusal;
pub use chains::first_chain_refusal;
