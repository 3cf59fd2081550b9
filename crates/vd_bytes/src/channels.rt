//! Where a call writes, and the faults of opening, reading and writing.

use thiserror::Error;

/// One of the three things that are written.
#[derive(Clone, Copy, PartialEq, Eq, Debug)]
pub enum Channel {
    Design,
    Map,
    Console,
}

/// A file couldn't be opened or read, or a channel couldn't be written.
#[derive(Clone, Copy, PartialEq, Eq, Debug, Error)]
#[error("a file or a channel failed")]
pub struct Failed;

/// A channel couldn't be written whole.
#[derive(Clone, Copy, PartialEq, Eq, Debug, Error)]
#[error("write fault")]
pub struct WriteFault;
