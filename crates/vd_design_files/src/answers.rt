//! What files hold, and why they hold no design.

ghost use Rattle.std.specs.Prelude.{◌≡◌};
ghost use Rattle.vd_design_files.specs.Ends.{end_of_grammar, end_of_refusal};
ghost use Rattle.vd_design_files.specs.declared.answers.DesignEnd.TheVariants.{Memory};

use std::alloc::AllocError;
use std::marker::Model;
use thiserror::Error;
use vd_bytes::{Limit, Refusal, Refused};
use vd_directives::selected::Lines;
use vd_forms::Design19;
use vd_shapes::GrammarEnd;

/// The warnings of some files, in the order of these. Contracts see a list of lists of lines.
#[derive(Debug, Drop)]
pub struct Warnings {
    files: Vec<Lines>,
}

impl Model for Warnings {
    ghost use Rattle.std.specs.Prelude.{List};
    ghost use Rattle.vd_directives.specs.declared.selected.Line.{Line};

    ghost Value = { List (List Line) };

    ghost view = { λ a. a.files.items };
}

impl Warnings {
    /// These warnings, as they are.
    pub fn of(files: Vec<Lines>) -> Warnings
        ensures { result ≡ files.items }
    {
        Warnings { files }
    }

    /// The warnings of each file.
    pub fn as_slice(&self) -> &[Lines]
        ensures { result.now ≡ self.now }
    {
        self.files.as_slice()
    }
}

/// The design units of all files, in order; how many they are; and the warnings of each file.
#[derive(Drop)]
pub struct DesignFiles {
    pub design: Design19,
    pub units: u32,
    pub warnings: Warnings,
}

/// Why files hold no design.
#[derive(Clone, Copy, PartialEq, Eq, Debug, Error)]
pub enum DesignEnd {
    /// A rule is broken at the place: of 111 to 113, of 101 to 107, 201 or 202.
    #[error("a rule is broken")]
    Refused(Refused),
    /// There are more than 2,000,000 tokens or 4,096 units, or more than 200 expressions and statements stand in one another.
    #[error("a limit is passed")]
    Limit(Limit),
    /// Memory ran out.
    #[error("out of memory")]
    Memory,
}

impl From<AllocError> for DesignEnd {
    ghost from_gives = { λ _ end. end ≡ Memory };

    fn from(_: AllocError) -> Self {
        DesignEnd::Memory
    }
}

/// What a broken rule of a file is to all files.
pub(crate) fn end_of_refusal(refusal: Refusal) -> DesignEnd
    ensures { result ≡ end_of_refusal refusal }
{
    match refusal {
        Refusal::Refused(refused) => DesignEnd::Refused(refused),
        Refusal::Memory => DesignEnd::Memory,
    }
}

/// What the end of reading a file is to all files.
pub(crate) fn end_of_grammar(end: GrammarEnd) -> DesignEnd
    ensures { result ≡ end_of_grammar end }
{
    match end {
        GrammarEnd::Refused(refused) => DesignEnd::Refused(refused),
        GrammarEnd::Nesting => DesignEnd::Limit(Limit::Nesting),
        GrammarEnd::Memory => DesignEnd::Memory,
    }
}
