//! Forests whose ways are being tried.

use crate::found::Found;
use vd_states::{State, Way};

/// A forest, by its number, in a state.
#[derive(Clone, Copy, PartialEq, Eq, Hash)]
pub(crate) struct Asked {
    pub(crate) number: u32,
    pub(crate) state: State,
}

/// A forest that is being read: the ways of its first node, how many of them are taken, and what
/// was found by those that are done.
#[derive(Drop)]
pub(crate) struct Trial {
    pub(crate) asked: Asked,
    pub(crate) ways: Vec<Way>,
    pub(crate) tried: usize,
    pub(crate) found: Found,
}

/// How far the way at hand is.
#[derive(Clone, Copy)]
pub(crate) enum Stage {
    /// What stands inside the node is being read.
    Inside,
    /// That was found inside, and what stands behind the node is being read.
    After(Found),
}

/// A forest that waits for what stands inside its first node or behind it, as the way says.
#[derive(Drop)]
pub(crate) struct Waiting {
    pub(crate) trial: Trial,
    pub(crate) way: Way,
    pub(crate) stage: Stage,
}

/// What to do next.
#[derive(Drop)]
pub(crate) enum Step {
    /// To wait for what is asked.
    Wait(Waiting, Asked),
    /// Nothing more: that was found of the forest.
    Done(Found),
}
