//! Places of a design, where expressions are resolved.

ghost use Rattle.std.specs.Prelude.{◌≡◌, IfOk};
ghost use Rattle.vd_visible.specs.Sights.{sight_from};
ghost use Rattle.vd_overloads.specs.Environment.{want_of, condition_operators};

use crate::possible_states;
use crate::setting::Setting;
use crate::unknown::first_unknown;
use crate::wanted::Wanted;
use std::alloc::{AllocError, Global};
use vd_bytes::{Place, Refused};
use vd_declarations::{DeclId, TypeId};
use vd_forest::{Cursor, Opened};
use vd_forms::Form;
use vd_predefined::numbers::{BOOLEAN, STANDARD, STD_LOGIC_1164};
use vd_readings::Language;
use vd_refusals::first_refusal;
use vd_states::{State, Want, Way};
use vd_trees::Revision;
use vd_visible::Surroundings;
use vd_visible::types::is_discrete;
use vd_ways::{ends_in, ways_in};

/// A place of a design, with all that is declared so far.
#[derive(Drop)]
pub struct Env<'a> {
    pub surroundings: Surroundings<'a>,
}

impl<'a> Language for Env<'a> {
    ghost use Rattle.vd_overloads.specs.Environment.{rules_at};

    ghost rules = { λ env. rules_at env.surroundings };

    fn ends(&self, state: State) -> bool {
        ends_in(&self.surroundings, &state)
    }

    fn ways(
        &self,
        alloc: Global,
        state: State,
        node: &Opened<'_, Form>,
    ) -> Result<Vec<Way>, AllocError> {
        ways_in(&self.surroundings, alloc, &state, node)
    }
}

impl<'a> Setting for Env<'a> {
    ghost use Rattle.vd_overloads.specs.Environment.{scene_at};

    ghost scene = { λ env. scene_at env.surroundings };

    fn revision(&self) -> Revision {
        self.surroundings.revision()
    }

    fn types(&self) -> &[TypeId] {
        self.surroundings.types()
    }

    fn is_discrete(&self, mark: TypeId) -> bool {
        is_discrete(self.surroundings.class_of(DeclId::of(mark.number())))
    }

    fn possible(
        &self,
        alloc: Global,
        tree: &Cursor<'_, Form>,
        states: Vec<State>,
    ) -> Result<Vec<State>, AllocError> {
        possible_states(alloc, &self.surroundings, tree, states)
    }

    fn operators(&self, alloc: Global) -> Result<Vec<DeclId>, AllocError> {
        condition_operators(alloc, &self.surroundings)
    }

    fn refused(
        &self,
        alloc: Global,
        wanted: &Wanted,
        tree: &Cursor<'_, Form>,
    ) -> Result<Option<Refused>, AllocError> {
        first_refusal(&self.surroundings, alloc, &want_of(wanted), tree)
    }

    fn unknown(&self, alloc: Global, tree: &Cursor<'_, Form>) -> Result<Option<Place>, AllocError> {
        first_unknown(alloc, &self.surroundings, tree)
    }
}

/// As what a name is wanted.
fn want_of(wanted: &Wanted) -> Want
    ensures { result ≡ want_of wanted.now }
{
    match wanted {
        Wanted::OfType(mark) => Want::Value(*mark),
        Wanted::Condition | Wanted::Discrete | Wanted::Free => Want::Value(TypeId::of(BOOLEAN)),
        Wanted::Range(mark) => Want::Range(*mark),
        Wanted::DiscreteRange(mark) => Want::DiscreteRange(*mark),
        Wanted::AnyDiscreteRange => Want::DiscreteRange(TypeId::of(BOOLEAN)),
        Wanted::Choice(mark) => Want::Choice(*mark),
    }
}

/// The operators `??` that can be implied.
fn condition_operators(alloc: Global, place: &Surroundings<'_>) -> Result<Vec<DeclId>, AllocError>
    ensures { IfOk result (λ found. found.items ≡ condition_operators (sight_from place.now)) }
{
    let mut found = place.selected(alloc, DeclId::of(STANDARD), b"\"??\"")?;
    let others = place.selected(alloc, DeclId::of(STD_LOGIC_1164), b"\"??\"")?;
    found.extend_from_slice(others.as_slice())?;
    Ok(found)
}
