//! Elaboration in code, for both revisions, and runs of what is elaborated.
#![tactic(auto)]

mod elaboration;
mod limits;
mod places;
pub mod run;
pub mod runs;
mod shapes;
pub mod tops;
mod units;

pub use run::Run;
pub use runs::{Run19, Run93, elaborate19, elaborate93};
pub use tops::{Top, top19, top93};
