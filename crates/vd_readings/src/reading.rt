//! The only reading of an expression.

ghost use Rattle.std.specs.Prelude.{◌≡◌, [], length, min, IfOk};
ghost use Rattle.vd_forest.specs.Store.{Extends};
ghost use Rattle.vd_readings.specs.Readings.{readings_in};
ghost use Rattle.vd_readings.specs.Found.{IsFound};

use crate::found::Found;
use crate::language::Language;
use crate::search::{Known, Search};
use crate::trials::Asked;
use indexmap::IndexMap;
use std::alloc::{AllocError, Global};
use vd_forest::{Cursor, Store};
use vd_forms::Form;
use vd_resolved::Resolved;
use vd_states::State;

/// What is found of a forest's readings in some states. The only one is made in a store.
#[tactic(auto, using(crate::proofs::FoundLemmas::giving, vd_forest::proofs::StoreLemmas::growing))]
pub fn read<L: Language>(
    alloc: Global,
    language: &L,
    tree: &Cursor<'_, Form>,
    states: &[State],
    out: &mut Store<Resolved>,
) -> Result<Found, AllocError>
    ensures found { IfOk result (λ found. IsFound out.new found (readings_in (L.rules language.now) tree.now states.now)) }
    ensures extends { Extends out.old out.new }
{
    let mut known = Known {
        memo: IndexMap::new(alloc),
        out: Store::new(alloc),
    };
    let found = read_all(alloc, language, tree, states, &mut known)?;
    match found {
        Found::Nothing => Ok(Found::Nothing),
        Found::Only(number) => {
            let made = out.copy(&known.out.cursor(number))?;
            Ok(Found::Only(made))
        }
        Found::Several => Ok(Found::Several),
    }
}

/// How many readings a forest has in some states, up to two.
pub fn count<L: Language>(
    alloc: Global,
    language: &L,
    tree: &Cursor<'_, Form>,
    states: &[State],
) -> Result<u8, AllocError>
    ensures { IfOk result (λ count. count ≡ min 2 (length (readings_in (L.rules language.now) tree.now states.now))) }
{
    let mut known = Known {
        memo: IndexMap::new(alloc),
        out: Store::new(alloc),
    };
    let found = read_all(alloc, language, tree, states, &mut known)?;
    match found {
        Found::Nothing => Ok(0),
        Found::Only(_) => Ok(1),
        Found::Several => Ok(2),
    }
}

/// What is found in some states, one after another.
#[tactic(auto, using(crate::proofs::FoundLemmas::giving, vd_forest::proofs::StoreLemmas::growing))]
fn read_all<L: Language>(
    alloc: Global,
    language: &L,
    tree: &Cursor<'_, Form>,
    states: &[State],
    known: &mut Known,
) -> Result<Found, AllocError>
    requires { known.old.memo.entries ≡ [] }
    ensures { IfOk result (λ found. IsFound known.new.out found (readings_in (L.rules language.now) tree.now states.now)) }
{
    let (store, number) = tree.stands();
    let search = Search { language, store };
    let mut found = Found::Nothing;
    for state in states {
        let asked = Asked {
            number,
            state: *state,
        };
        let more = search.find(alloc, known, asked)?;
        found = found.and(more);
    }
    Ok(found)
}
