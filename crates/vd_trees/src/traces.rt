//! What the runs of both revisions give: reports, stops, and how a run goes on.

use crate::paths::Scope;
use vd_bytes::{Limit, Text};
use vd_values::StopKind;

/// A report: its severity by position (0 note, 1 warning, 2 error, 3 failure), and its text.
#[derive(Debug, Drop)]
pub struct Report {
    pub severity: u8,
    pub text: Text,
}

/// A stop of an elaboration or a run: what stopped it, when (in femtoseconds, and the number of the delta cycle), where, and
/// of a failure the text that was reported, else an empty one.
#[derive(Debug, Drop)]
pub struct Stop {
    pub kind: StopKind,
    pub time: u64,
    pub delta: u32,
    pub scope: Scope,
    pub text: Text,
}

/// Why there is no run: the elaboration stopped, a limit was passed before, or memory ran out.
#[derive(Debug, Drop)]
pub enum RunEnd {
    Stop(Stop),
    Limit(Limit),
    Memory,
}

/// Why a run doesn't go on: it stopped, or memory ran out.
#[derive(Debug, Drop)]
pub enum CycleEnd {
    Stop(Stop),
    Memory,
}

/// What a call for the next cycle came to: there was one, or nothing is left to come.
#[derive(Clone, Copy, PartialEq, Eq, Debug)]
pub enum Cycle {
    Next,
    Quiet,
}
