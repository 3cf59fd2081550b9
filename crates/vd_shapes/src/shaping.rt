//! The tree of a text, made while the text is read.

ghost use Rattle.std.specs.Prelude.{◌≡◌, MatchResult};
ghost use Rattle.vd_gram.specs.Readings.{IsEnd};
ghost use Rattle.vd_shapes.specs.Answers.{IsShaped};

use crate::actions::Action;
use crate::entries::gather;
use crate::growing::Growing;
use std::alloc::Global;
use vd_forest::Store;
use vd_forms::Form;
use vd_gram::{CheckedTable, ParseEnd, Symbol, tell};
use vd_tokens::Tokens;

/// A forest in a store of its own.
#[derive(Drop)]
pub struct Shaped {
    pub store: Store<Form>,
    pub number: u32,
}

/// The tree of a text's derivation by a table, whose productions do what the actions say. The
/// symbols are those of the tokens, and their texts and places are taken from there. `At` and
/// `TooDeep` say why there is none, and want of memory says nothing of the text.
pub fn shape<'a>(
    alloc: Global,
    table: &CheckedTable<'_>,
    actions: &'a [Action],
    symbols: &[Symbol],
    tokens: &'a Tokens,
    deep: u32,
) -> Result<Shaped, ParseEnd>
    ensures { MatchResult result (λ shaped. IsShaped table.now.table actions.now tokens.now symbols.now deep shaped)
        (λ end. IsEnd table.now.table symbols.now deep end) }
{
    let mut growing = Growing::new(alloc, actions, tokens)?;
    tell(alloc, table, symbols, deep, &mut growing)?;
    let mut store = growing.store;
    let mut entries = growing.entries;
    let number = gather(&mut store, tokens, &mut entries, 0, true)?;
    Ok(Shaped { store, number })
}
