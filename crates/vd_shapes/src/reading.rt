//! Trees of token lists, or why there is none.

ghost use Rattle.std.specs.Prelude.{◌≡◌, ◌<◌, ℕ, length, MatchResult};
ghost use Rattle.std.specs.List.{list_any};
ghost use Rattle.vd_gram.specs.Claims.{has};
ghost use Rattle.vd_gram.specs.Derivations.{IsRefused};
ghost use Rattle.vd_gram.specs.Readings.{IsEnd};
ghost use Rattle.vd_tokens.specs.Spellings.{EndsOnce};
ghost use Rattle.vd_shapes.specs.Answers.{IsShaped};
ghost use Rattle.vd_shapes.specs.Reading.{symbols_in, is_used, rule_at, IsReadEnd, IsRefusedAt};

use crate::actions::Action;
use crate::shaping::{Shaped, shape};
use crate::symbols::{symbol_of, symbols_of};
use std::alloc::{AllocError, Global};
use vd_bytes::Refused;
use vd_gram::{CheckedTable, ParseEnd, Symbol};
use vd_tokens::{Kind, Tokens};

/// Why a token list has no tree.
#[derive(Clone, Copy, Debug, PartialEq, Eq, Drop)]
pub enum GrammarEnd {
    /// No text of the grammar goes on with the token at the place. Rule 202 where it is a reserved
    /// word that the grammar has nowhere, and else 201.
    Refused(Refused),
    /// Expressions and statements stand too deep in one another.
    Nesting,
    Memory,
}

impl From<AllocError> for GrammarEnd {
    ghost use Rattle.vd_shapes.specs.declared.reading.GrammarEnd.TheVariants.{Memory};

    ghost from_gives = { λ _ end. end ≡ Memory };

    fn from(_: AllocError) -> Self {
        GrammarEnd::Memory
    }
}

/// Whether a symbol stands on the right of some production.
fn is_used(table: &CheckedTable<'_>, symbol: Symbol) -> bool
    ensures { result ≡ is_used table.now.table symbol }
{
    table
        .table()
        .productions
        .iter()
        .any(|production| production.right.contains(&symbol))
}

/// The rule that a token breaks with which no text goes on.
fn rule_at(table: &CheckedTable<'_>, kind: Kind) -> u16
    ensures { result ≡ rule_at table.now.table kind }
{
    match kind {
        Kind::Word(_) => {
            if is_used(table, symbol_of(kind)) {
                201
            } else {
                202
            }
        }
        _ => 201,
    }
}

/// What is answered where a text is refused at a token.
fn refusal(table: &CheckedTable<'_>, tokens: &Tokens, number: usize) -> Refused
    requires { number < length tokens.now }
    ensures { (deep : ℕ) → IsRefused table.now.table (symbols_in tokens.now) deep number → IsRefusedAt table.now.table tokens.now deep result }
{
    let token = tokens.get(number);
    Refused {
        place: token.place,
        rule: rule_at(table, token.kind),
    }
}

/// The tree of the tokens' derivation by a table, whose productions do what the actions say; or
/// the first token with which no text goes on; or that expressions and statements stand deeper in
/// one another than `deep` before such a token.
#[tactic(auto, using(crate::proofs::SymbolLemmas::refused_within))]
pub fn read<'a>(
    alloc: Global,
    table: &CheckedTable<'_>,
    actions: &'a [Action],
    tokens: &'a Tokens,
    deep: u32,
) -> Result<Shaped, GrammarEnd>
    requires { EndsOnce tokens.now }
    ensures { MatchResult result (λ shaped. IsShaped table.now.table actions.now tokens.now (symbols_in tokens.now) deep shaped)
        (λ end. IsReadEnd table.now.table tokens.now deep end) }
{
    let symbols = symbols_of(alloc, tokens)?;
    match shape(alloc, table, actions, &symbols, tokens, deep) {
        Ok(shaped) => Ok(shaped),
        Err(ParseEnd::At(number)) => Err(GrammarEnd::Refused(refusal(table, tokens, number))),
        Err(ParseEnd::TooDeep) => Err(GrammarEnd::Nesting),
        Err(ParseEnd::Memory) => Err(GrammarEnd::Memory),
    }
}
