//! Runs of files of the first language, and the text of their traces.
#![tactic(auto)]

mod laws;
pub mod printing;
pub mod runs;

pub use laws::{limits, one_tracing};
pub use printing::{OUTPUT_LIMIT, Traced};
pub use runs::{run19, run93};
