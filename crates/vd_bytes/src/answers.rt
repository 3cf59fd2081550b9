//! The answers of a call that isn't Ok.

use crate::places::Place;

/// A rule that is broken, and where.
#[derive(Clone, Copy, PartialEq, Eq, Debug)]
pub struct Refused {
    pub place: Place,
    pub rule: u16,
}

/// A rule is broken, or memory ran out.
#[derive(Clone, Copy, PartialEq, Eq, Debug)]
pub enum Refusal {
    Refused(Refused),
    Memory,
}

/// A count that has a greatest number.
#[derive(Clone, Copy, PartialEq, Eq, Debug)]
pub enum Limit {
    Files,
    Input,
    Tokens,
    Nesting,
    Units,
    Nodes,
    Nesting93,
    Output,
    Signals,
    Processes,
    Depth,
}

/// A limit is passed, or memory ran out.
#[derive(Clone, Copy, PartialEq, Eq, Debug)]
pub enum PassEnd {
    Limit(Limit),
    Memory,
}
