//! Reading again what is about to be written.

ghost use Rattle.std.specs.Prelude.{◌≡◌, ◌+◌, ◌<◌, ◌^◌, IfOk, OnOk, length};
ghost use Rattle.std.specs.List.{AllByRecursion};
ghost use Rattle.vd_accepting.specs.Phases.{IsAccepted};
ghost use Rattle.vd_directives.specs.Lines.{plain_of};
ghost use Rattle.vd_lex.specs.Lexis.{IsTokenList};
ghost use Rattle.vd_print93.specs.Layout.{layout_of};
ghost use Rattle.vd_tokens.specs.Spellings.{EndsOnce, IsPossible};
ghost use Rattle.vd_trees.specs.declared.revision.Revision.TheVariants.{V1993};
ghost use Rattle.vd_modes.specs.Texts.{IsIn93, IsRead};

use crate::sameness::are_same;
use std::alloc::{AllocError, Global};
use thiserror::Error;
use vd_accepting::accept93;
use vd_bytes::{Refusal, Refused};
use vd_directives::plain::plain;
use vd_forest::Cursor;
use vd_forms::{Design93, Form};
use vd_grammar93::read93_within;
use vd_lex::lex93;
use vd_print93::print;
use vd_shapes::GrammarEnd;
use vd_tokens::Tokens;

/// How long a text is too long to be read: its places have columns of 32 bits.
const LONGEST: usize = 4_294_967_295;

/// Why a text isn't one of revision 1993 as it is to be written.
#[derive(Clone, Copy, PartialEq, Eq, Debug, Error)]
pub enum RereadEnd {
    /// It breaks a rule of texts, of the grammar, or of designs, at the place in it.
    #[error("a rule of revision 1993 is broken")]
    Refused(Refused),
    /// It isn't read as what was to be written, or isn't laid out as its design is.
    #[error("the text isn't read as it is meant")]
    Differs,
    /// Memory ran out, or places that have numbers of 32 bits.
    #[error("out of memory")]
    Memory,
}

impl From<AllocError> for RereadEnd {
    ghost use Rattle.vd_modes.specs.declared.rereading.RereadEnd.TheVariants.{Memory};

    ghost from_gives = { λ _ end. end ≡ Memory };

    fn from(_: AllocError) -> Self {
        RereadEnd::Memory
    }
}

/// What a refusal is here.
fn end_of_refusal(refusal: Refusal) -> RereadEnd {
    match refusal {
        Refusal::Refused(refused) => RereadEnd::Refused(refused),
        Refusal::Memory => RereadEnd::Memory,
    }
}

/// What the end of reading is here.
fn end_of_grammar(end: GrammarEnd) -> RereadEnd {
    match end {
        GrammarEnd::Refused(refused) => RereadEnd::Refused(refused),
        GrammarEnd::Nesting => RereadEnd::Differs,
        GrammarEnd::Memory => RereadEnd::Memory,
    }
}

/// The tokens of a text of revision 1993.
fn tokens_of(alloc: Global, text: &[u8]) -> Result<Tokens, RereadEnd>
    requires { length text.now + 1 < 2 ^ 32 }
    ensures read { IfOk result (λ tokens. IsTokenList V1993 (plain_of 0 text.now) tokens) }
    ensures possible { IfOk result (λ tokens. AllByRecursion (IsPossible V1993) tokens) }
    ensures ends { IfOk result (λ tokens. EndsOnce tokens) }
{
    let selected = plain(alloc, 0, text)?;
    match lex93(alloc, &selected) {
        Ok(tokens) => Ok(tokens),
        Err(refusal) => Err(end_of_refusal(refusal)),
    }
}

/// The design of a text of revision 1993.
fn design_of(alloc: Global, text: &[u8]) -> Result<Design93, RereadEnd>
    requires { length text.now + 1 < 2 ^ 32 }
    ensures { IfOk result (λ design. IsRead text.now design) }
{
    let tokens = tokens_of(alloc, text)?;
    match read93_within(alloc, &tokens, u32::MAX) {
        Ok(design) => Ok(design),
        Err(end) => Err(end_of_grammar(end)),
    }
}

/// That a design breaks no rule of revision 1993.
fn judge(alloc: Global, design: &Design93) -> Result<(), RereadEnd>
    ensures { OnOk result (IsAccepted V1993 design.now) }
{
    match accept93(alloc, design) {
        Ok(_) => Ok(()),
        Err(refusal) => Err(end_of_refusal(refusal)),
    }
}

/// That a text is the layout of a design.
fn compare(alloc: Global, text: &[u8], design: &Design93) -> Result<(), RereadEnd>
    ensures { OnOk result (text.now ≡ layout_of design.now) }
{
    let printed = print(alloc, design)?;
    if printed.as_slice() == text {
        Ok(())
    } else {
        Err(RereadEnd::Differs)
    }
}

/// That what is read of a text are the trees that were to be written. A form that revision 1993 lacks has no words there, so it would be left out.
fn recognise(alloc: Global, design: &Design93, trees: &Cursor<'_, Form>) -> Result<(), RereadEnd> {
    if are_same(alloc, &design.units(), trees)? {
        Ok(())
    } else {
        Err(RereadEnd::Differs)
    }
}

/// That the text of some trees is one of revision 1993 in which no rule is broken, laid out, and that these trees are read of it.
pub fn reread(alloc: Global, text: &[u8], trees: &Cursor<'_, Form>) -> Result<(), RereadEnd>
    ensures { OnOk result (IsIn93 text.now) }
{
    if text.len() >= LONGEST {
        return Err(RereadEnd::Memory);
    }
    let design = design_of(alloc, text)?;
    recognise(alloc, &design, trees)?;
    judge(alloc, &design)?;
    compare(alloc, text, &design)
}
