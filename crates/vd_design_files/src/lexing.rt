//! The tokens of texts.

ghost use Rattle.std.specs.Prelude.{◌≡◌, ◌<◌, map, length, IfOk, IfErr, IsTrue, ◌↔◌};
ghost use Rattle.std.specs.List.{AllByRecursion};
ghost use Rattle.vd_design_files.specs.Files.{IsLexed, IsUnlexed, token_count, warnings_of};
ghost use Rattle.vd_design_files.specs.InOrder.{HaveEach, IsFirstEnd};
ghost use Rattle.vd_design_files.specs.Laws.{IsEnd};
ghost use Rattle.vd_directives.specs.Lines.{ColumnsFit};
ghost use Rattle.vd_tokens.specs.Spellings.{EndsOnce, IsPossible};
ghost use Rattle.vd_trees.specs.declared.revision.Revision.TheVariants.{V2019};

use crate::answers::{DesignEnd, Warnings, end_of_refusal};
use std::alloc::{AllocError, Global};
use vd_directives::selected::Selected;
use vd_lex::lex19;
use vd_tokens::Tokens;

/// How many tokens all files may have.
const MOST: usize = 2_000_000;

/// The tokens of each text, or the first text that breaks a rule.
pub(crate) fn lexed(alloc: Global, texts: &[Selected]) -> Result<Vec<Tokens>, DesignEnd>
    requires fit { AllByRecursion ColumnsFit texts.now }
    ensures have { IfOk result (λ lists. HaveEach IsLexed texts.now lists.items) }
    ensures end_once { IfOk result (λ lists. AllByRecursion EndsOnce lists.items) }
    ensures possible { IfOk result (λ lists. AllByRecursion (AllByRecursion (IsPossible V2019)) lists.items) }
    ensures end { IfErr result (IsEnd (IsFirstEnd IsLexed IsUnlexed texts.now)) }
{
    let mut lists = Vec::with_capacity(alloc, texts.len())?;
    for text in texts {
        let tokens = match lex19(alloc, text) {
            Ok(tokens) => tokens,
            Err(end) => return Err(end_of_refusal(end)),
        };
        match lists.push(tokens) {
            Ok(()) => {}
            Err(_) => return Err(DesignEnd::Memory),
        }
    }
    Ok(lists)
}

/// The warnings of each text.
pub(crate) fn warnings_of(alloc: Global, texts: Vec<Selected>) -> Result<Warnings, AllocError>
    ensures { IfOk result (λ warnings. warnings ≡ warnings_of texts.items) }
{
    let mut warnings = Vec::with_capacity(alloc, texts.len())?;
    for text in texts {
        let Selected { warnings: own, .. } = text;
        warnings.push(own)?;
    }
    Ok(Warnings::of(warnings))
}

/// Whether there are more tokens than there may be, without the ends of the files.
pub(crate) fn has_many_tokens(lists: &[Tokens]) -> bool
    ensures { IsTrue result ↔ (2000000 < token_count lists.now) }
{
    let mut left = MOST;
    for tokens in lists {
        let count = tokens.len().saturating_sub(1);
        if count > left {
            return true;
        }
        left -= count;
    }
    false
}
