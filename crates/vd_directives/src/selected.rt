//! The lines of a file that are read.

use std::alloc::{AllocError, Global};
use std::marker::Model;
use vd_bytes::Bytes;

/// A line's number, from 1, and its bytes without the line end. Of a warning the bytes are its text, each doubled
/// quotation mark single.
#[derive(Debug, Drop)]
pub struct Line {
    pub number: u32,
    pub bytes: Bytes,
}

/// Lines in their order.
#[derive(Debug, Drop)]
pub struct Lines {
    lines: Vec<Line>,
}

impl Model for Lines {
    ghost use Rattle.std.specs.Prelude.{List};
    ghost use Rattle.vd_directives.specs.declared.selected.Line.{Line};

    ghost Value = { List Line };

    ghost view = { λ a. a.lines.items };
}

impl Lines {
    ghost use Rattle.std.specs.Prelude.{◌≡◌};

    /// These lines.
    pub fn of(lines: Vec<Line>) -> Lines
        ensures { result ≡ lines.items }
    {
        Lines { lines }
    }

    /// The lines.
    pub fn as_slice(&self) -> &[Line]
        ensures { result.now ≡ self.now }
    {
        self.lines.as_slice()
    }
}

/// A file's number, its lines that are read, and its warnings. A warning's place is the first column of its line.
#[derive(Debug, Drop)]
pub struct Selected {
    pub file: u32,
    pub lines: Lines,
    pub warnings: Lines,
}
