//! Accepting a file: its tokens are counted, its tree is read, and each name in it is a port.

ghost use Rattle.std.specs.Prelude.{◌≡◌, None, OnOk, IfOk, IfErr};
ghost use Rattle.std.specs.List.{AllByRecursion};
ghost use Rattle.vd_trees.specs.declared.revision.Revision.TheVariants.{V2019, V1993};
ghost use Rattle.vd_first_lex.specs.declared.selected.Selected.{Selected};
ghost use Rattle.vd_first_lex.specs.Lexis.{IsTokenList};
ghost use Rattle.vd_first_lex.specs.Lexings.{ColumnsFit, EndsOnce, IsBreakOf, IsPossible};
ghost use Rattle.vd_first_grammar.specs.Readings.{tree, IsReading};
ghost use Rattle.vd_first_accept.specs.Unknown.{first_unknown};
ghost use Rattle.vd_first_accept.specs.Acceptance.{HasTokens, IsAccepted, IsUnaccepted, HasOneAcceptance};
ghost use Rattle.vd_first_accept.specs.Steps.{unread_end, NamesEnd};

use crate::unknown::find_unknown;
use std::alloc::Global;
use vd_bytes::{Limit, Refusal, Refused};
use vd_first_grammar::{GrammarEnd, read19, read93};
use vd_first_lex::tokens::TOKENS_LIMIT;
use vd_first_lex::{Selected, Token, lex19, lex93};
use vd_first_trees::{Design19, Design93, Form};
use vd_forest::Cursor;
use vd_trees::Revision;

/// Why a text is not accepted: the first broken rule, a limit that is passed before one, or want of memory.
#[derive(Debug, Drop)]
pub enum ConvertEnd {
    Refused(Refused),
    Limit(Limit),
    Memory,
}

/// The tree of a 2019 file, if nothing in it is refused.
pub fn accept19(alloc: Global, file: &Selected) -> Result<Design19, ConvertEnd>
    requires { ColumnsFit file.now }
    ensures accepted { IfOk result (IsAccepted V2019 file.now) }
    ensures ends { IfErr result (IsUnaccepted V2019 file.now) }
{
    let tokens = tokens_of(alloc, Revision::V2019, file)?;
    let design = tree19(alloc, tokens.as_slice())?;
    check_names(alloc, &design.units())?;
    Ok(design)
}

/// The tree of a 1993 file, if nothing in it is refused.
pub fn accept93(alloc: Global, file: &Selected) -> Result<Design93, ConvertEnd>
    requires { ColumnsFit file.now }
    ensures accepted { IfOk result (IsAccepted V1993 file.now) }
    ensures ends { IfErr result (IsUnaccepted V1993 file.now) }
{
    let tokens = tokens_of(alloc, Revision::V1993, file)?;
    let design = tree93(alloc, tokens.as_slice())?;
    check_names(alloc, &design.units())?;
    Ok(design)
}

/// A file has one answer in each revision, so what `accept19` and `accept93` answer is determined, unless memory runs
/// out.
pub fn one_acceptance()
    ensures { HasOneAcceptance }
{}

// The token list of a file, the end of the file standing last, if there are not too many.
fn tokens_of(alloc: Global, revision: Revision, file: &Selected) -> Result<Vec<Token>, ConvertEnd>
    requires { ColumnsFit file.now }
    ensures tokens { IfOk result (λ v. HasTokens revision file.now v.items) }
    ensures possible { IfOk result (λ v. AllByRecursion (IsPossible revision) v.items) }
    ensures ends { IfOk result (λ v. EndsOnce v.items) }
    ensures stops { IfErr result (IsUnaccepted revision file.now) }
{
    match lexed(alloc, revision, file) {
        Ok(tokens) if tokens.len() > TOKENS_LIMIT as usize + 1 => Err(ConvertEnd::Limit(
            Limit::Tokens,
        )),
        Ok(tokens) => Ok(tokens),
        Err(Refusal::Refused(refused)) => Err(ConvertEnd::Refused(refused)),
        Err(Refusal::Memory) => Err(ConvertEnd::Memory),
    }
}

// What the lexer of a revision gives.
fn lexed(alloc: Global, revision: Revision, file: &Selected) -> Result<Vec<Token>, Refusal>
    requires { ColumnsFit file.now }
    ensures read { IfOk result (λ v. IsTokenList revision file.now v.items) }
    ensures possible { IfOk result (λ v. AllByRecursion (IsPossible revision) v.items) }
    ensures ends { IfOk result (λ v. EndsOnce v.items) }
    ensures broken { IfErr result (IsBreakOf revision file.now) }
{
    match revision {
        Revision::V2019 => lex19(alloc, file),
        Revision::V1993 => lex93(alloc, file),
    }
}

// The tree of a 2019 file's tokens.
fn tree19(alloc: Global, tokens: &[Token]) -> Result<Design19, ConvertEnd>
    requires possible { AllByRecursion (IsPossible V2019) tokens.now }
    requires ends { EndsOnce tokens.now }
    ensures read { IfOk result (λ design. IsReading V2019 tokens.now (tree design)) }
    ensures stops { (file : Selected) → HasTokens V2019 file tokens.now → IfErr result (IsUnaccepted V2019 file) }
{
    match read19(alloc, tokens) {
        Ok(design) => Ok(design),
        Err(end) => Err(unread(Revision::V2019, end)),
    }
}

// The tree of a 1993 file's tokens.
fn tree93(alloc: Global, tokens: &[Token]) -> Result<Design93, ConvertEnd>
    requires possible { AllByRecursion (IsPossible V1993) tokens.now }
    requires ends { EndsOnce tokens.now }
    ensures read { IfOk result (λ design. IsReading V1993 tokens.now (tree design)) }
    ensures stops { (file : Selected) → HasTokens V1993 file tokens.now → IfErr result (IsUnaccepted V1993 file) }
{
    match read93(alloc, tokens) {
        Ok(design) => Ok(design),
        Err(end) => Err(unread(Revision::V1993, end)),
    }
}

// What is answered where no tree is read. Each revision has a nesting limit of its own.
fn unread(revision: Revision, end: GrammarEnd) -> ConvertEnd
    ensures { result ≡ unread_end revision end }
{
    match end {
        GrammarEnd::Refused(refused) => ConvertEnd::Refused(refused),
        GrammarEnd::Nesting => ConvertEnd::Limit(match revision {
            Revision::V2019 => Limit::Nesting,
            Revision::V1993 => Limit::Nesting93,
        }),
        GrammarEnd::Memory => ConvertEnd::Memory,
    }
}

// Each name of a tree is a port's, or the first that is none is refused.
fn check_names(alloc: Global, units: &Cursor<'_, Form>) -> Result<(), ConvertEnd>
    ensures known { OnOk result (first_unknown units.now ≡ None) }
    ensures ends { IfErr result (NamesEnd units.now) }
{
    match find_unknown(alloc, units) {
        Ok(Some(place)) => Err(ConvertEnd::Refused(Refused { place, rule: 303 })),
        Ok(None) => Ok(()),
        Err(_) => Err(ConvertEnd::Memory),
    }
}
