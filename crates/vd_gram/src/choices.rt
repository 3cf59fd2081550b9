//! Which production comes next.

ghost use Rattle.std.specs.Prelude.{◌≡◌, ◌+◌, ◌*◌, ◌<◌, ℕ, IfOk, MatchOption};
ghost use Rattle.vd_gram.specs.declared.tables.Table.{Table};
ghost use Rattle.vd_gram.specs.Runs.{IsChoice, IsNoChoice, AreChoices, IsKnown, tells};

use crate::claims::is_sign;
use crate::numbers::narrow;
use crate::tables::{Production, Symbol, Table};
use std::alloc::{AllocError, Global};
use std::collections::HashMap;

/// The production that comes next for a nonterminal and the symbol ahead, as far as it was looked
/// for already.
#[derive(Drop)]
pub(crate) struct Choices {
    pub(crate) known: HashMap<u32, u32>,
}

impl Choices {
    /// Nothing was looked for yet.
    pub(crate) fn new(alloc: Global) -> Self
        ensures { (t : Table) → AreChoices t result.known }
    {
        Choices {
            known: HashMap::new(alloc),
        }
    }

    /// The production of a nonterminal of which the symbol ahead tells. It is looked for once.
    #[tactic(auto, using(crate::proofs::ChoiceLemmas::choices))]
    pub(crate) fn choice(
        &mut self,
        table: &Table<'_>,
        nonterminal: Symbol,
        ahead: Symbol,
    ) -> Result<Option<u32>, AllocError>
        requires { AreChoices table.now self.old.known }
        ensures choice { IfOk result (λ choice. MatchOption choice (IsNoChoice table.now nonterminal ahead)
            (λ production. IsChoice table.now nonterminal ahead production)) }
        ensures choices { AreChoices table.now self.new.known }
        ensures known { IfOk result (λ choice. IsKnown self.new.known nonterminal ahead choice) }
    {
        let key = key(nonterminal, ahead);
        if let Some(production) = self.known.get(&key) {
            return Ok(Some(*production));
        }
        match find_choice(table, nonterminal, ahead) {
            None => Ok(None),
            Some(place) => {
                let production = narrow(place)?;
                self.known.insert(key, production)?;
                Ok(Some(production))
            }
        }
    }
}

/// A number for two symbols.
fn key(nonterminal: Symbol, ahead: Symbol) -> u32
    ensures { result ≡ nonterminal * 65536 + ahead }
{
    u32::from(nonterminal) * 65536 + u32::from(ahead)
}

/// Whether a symbol tells of a production, and it is one of the nonterminal.
fn tells(table: &Table<'_>, production: &Production<'_>, nonterminal: Symbol, ahead: Symbol) -> bool
    ensures { result ≡ tells table.now nonterminal ahead production.now }
{
    production.left == nonterminal && is_sign(table, production, ahead)
}

/// The first production of a nonterminal of which a symbol tells.
#[tactic(auto, using(crate::proofs::ChoiceLemmas::finding))]
fn find_choice(table: &Table<'_>, nonterminal: Symbol, ahead: Symbol) -> Option<usize>
    ensures { MatchOption result (IsNoChoice table.now nonterminal ahead) (λ production. IsChoice table.now nonterminal ahead production) }
{
    for (place, production) in table.productions.iter().enumerate() {
        if tells(table, production, nonterminal, ahead) {
            return Some(place);
        }
    }
    None
}
