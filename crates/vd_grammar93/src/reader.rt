//! The design of a token list of revision 1993.

ghost use Rattle.std.specs.Prelude.{◌≡◌, MatchResult};
ghost use Rattle.std.specs.List.{AllByRecursion};
ghost use Rattle.vd_trees.specs.declared.revision.Revision.TheVariants.{V1993};
ghost use Rattle.vd_tokens.specs.Spellings.{EndsOnce, IsPossible};
ghost use Rattle.vd_shapes.specs.Reading.{IsReadEnd};
ghost use Rattle.vd_valid_shapes.specs.Laws.{IsShapeOf};
ghost use Rattle.vd_grammar93.specs.Grammar.{grammar, actions, AreTheLists};

use crate::claims::{CLAIMS, EMPTIES};
use crate::nonterminals::N_FILE;
use crate::rows::{ACTIONS, MARKED, ROWS};
use std::alloc::Global;
use vd_forms::Design93;
use vd_gram::CheckedTable;
use vd_shapes::terminals::TERMINALS;
use vd_shapes::{GrammarEnd, Lists, Rows};
use vd_tokens::Tokens;
use vd_valid_shapes::read_design93;

/// How many expressions and statements may stand in one another.
const DEEP: u32 = 2000;

/// The rows and claims of the grammar.
pub fn lists() -> Lists
    ensures { AreTheLists result }
{
    Lists {
        terminals: TERMINALS,
        start: N_FILE,
        marked: MARKED,
        rows: ROWS,
        claims: CLAIMS,
        empties: EMPTIES,
    }
}

/// The design of a token list: the tree of its derivation. Or the first token with which no text of
/// the grammar goes on, or that expressions and statements stand deeper in one another than `deep` before it.
pub fn read93_within(alloc: Global, tokens: &Tokens, deep: u32) -> Result<Design93, GrammarEnd>
    requires ends { EndsOnce tokens.now }
    requires possible { AllByRecursion (IsPossible V1993) tokens.now }
    ensures { MatchResult result (λ design. IsShapeOf grammar actions tokens.now deep design)
        (λ end. IsReadEnd grammar tokens.now deep end) }
{
    let rows = Rows::of(alloc, lists())?;
    let table = CheckedTable::of(rows.table());
    read_design93(alloc, &table, ACTIONS, tokens, deep)
}

/// The design of a token list: the tree of its derivation. Or the first token with which no text of
/// the grammar goes on, or that expressions and statements stand too deep in one another before it.
pub fn read93(alloc: Global, tokens: &Tokens) -> Result<Design93, GrammarEnd>
    requires ends { EndsOnce tokens.now }
    requires possible { AllByRecursion (IsPossible V1993) tokens.now }
    ensures { MatchResult result (λ design. IsShapeOf grammar actions tokens.now 2000 design)
        (λ end. IsReadEnd grammar tokens.now 2000 end) }
{
    read93_within(alloc, tokens, DEEP)
}
