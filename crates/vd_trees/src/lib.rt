//! The revisions, the rows of a map between names, paths, and what runs give.
#![tactic(auto)]

pub mod paths;
pub mod revision;
pub mod rows;
pub mod trace_examples;
pub mod traces;

pub use paths::{Label, Labels, Level, Levels, Path, PathIndex, PathStep, PathSteps, Scope};
pub use revision::Revision;
pub use rows::{Row, RowKind};
pub use trace_examples::worked_traces;
pub use traces::{Cycle, CycleEnd, Report, RunEnd, Stop};
