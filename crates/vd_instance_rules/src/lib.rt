//! Port maps: what may stand for a port by its mode or view, what is left out, and what stands twice.
//! (IEEE 1076, port map aspects; association lists; mode views)
#![tactic(auto)]

mod associations;
mod expressions;
mod firsts;
mod formals;
mod instance;
pub mod instances;
mod missing;
mod modes;
mod signals;

pub use instances::instance_refusals;
