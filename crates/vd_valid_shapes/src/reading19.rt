//! Designs of revision 2019, by a table whose shapes are designs.

ghost use Rattle.std.specs.Prelude.{◌≡◌, MatchResult};
ghost use Rattle.std.specs.List.{AllByRecursion};
ghost use Rattle.vd_trees.specs.declared.revision.Revision.TheVariants.{V2019};
ghost use Rattle.vd_tokens.specs.Spellings.{EndsOnce, IsPossible};
ghost use Rattle.vd_shapes.specs.Reading.{IsReadEnd};
ghost use Rattle.vd_valid_shapes.specs.Laws.{IsShapeOf, ShapesAreDesigns};

use std::alloc::Global;
use vd_forms::Design19;
use vd_gram::CheckedTable;
use vd_shapes::{Action, GrammarEnd, read};
use vd_tokens::Tokens;

/// The design of a token list of revision 2019: the tree of its derivation. Or the first token
/// with which no text goes on, or that expressions and statements stand deeper in one another than
/// `deep` before such a token.
#[tactic(auto, using(crate::proofs::ReadingLemmas::designing))]
pub fn read_design19<'a>(
    alloc: Global,
    table: &CheckedTable<'_>,
    actions: &'a [Action],
    tokens: &'a Tokens,
    deep: u32,
) -> Result<Design19, GrammarEnd>
    requires ends { EndsOnce tokens.now }
    requires possible { AllByRecursion (IsPossible V2019) tokens.now }
    requires designs { ShapesAreDesigns V2019 table.now.table actions.now }
    ensures { MatchResult result (λ design. IsShapeOf table.now.table actions.now tokens.now deep design)
        (λ end. IsReadEnd table.now.table tokens.now deep end) }
{
    match read(alloc, table, actions, tokens, deep) {
        Ok(shaped) => Ok(Design19::of(shaped.store, shaped.number)),
        Err(end) => Err(end),
    }
}
