//! What a text is answered.

use std::alloc::{AllocError, Global};
use vd_bytes::{Refusal, Refused};
use vd_shapes::GrammarEnd;

/// Longer texts aren't taken.
pub const LONGEST: usize = 1 << 24;

/// That nothing is refused, the first rule that is broken, or what is short.
#[derive(Drop)]
pub enum Answer {
    Ok,
    Refused(Refused),
    Nesting,
    Memory,
}

impl Answer {
    /// `ok`, the rule and the place, or what is short.
    pub fn shown(&self, alloc: Global) -> Result<String, AllocError> {
        match self {
            Answer::Ok => format!(in alloc; "ok"),
            Answer::Nesting => format!(in alloc; "nesting"),
            Answer::Memory => format!(in alloc; "no memory"),
            Answer::Refused(e) => {
                let rule = e.rule;
                let line = e.place.line;
                let column = e.place.column;
                format!(in alloc; "{rule} {line}:{column}")
            }
        }
    }
}

impl From<Refusal> for Answer {
    fn from(end: Refusal) -> Answer {
        match end {
            Refusal::Refused(e) => Answer::Refused(e),
            Refusal::Memory => Answer::Memory,
        }
    }
}

impl From<GrammarEnd> for Answer {
    fn from(end: GrammarEnd) -> Answer {
        match end {
            GrammarEnd::Refused(e) => Answer::Refused(e),
            GrammarEnd::Nesting => Answer::Nesting,
            GrammarEnd::Memory => Answer::Memory,
        }
    }
}

impl From<Option<Refused>> for Answer {
    fn from(first: Option<Refused>) -> Answer {
        match first {
            Some(e) => Answer::Refused(e),
            None => Answer::Ok,
        }
    }
}
