//! Parts of expressions that are written as qualified expressions, where the text of revision 1993 would have several interpretations.

ghost use Rattle.std.specs.Prelude.{◌≡◌, ◌≤◌, IfOk, length};
ghost use Rattle.vd_forest.specs.Store.{Extends};

use crate::apart::Apart;
use crate::levels::Root;
use crate::settling::{Settled, copy_with};
use crate::writer::Writer;
use std::alloc::{AllocError, Global};
use vd_declarations::{DeclId, TypeId};
use vd_forest::{Cursor, Opened, Store};
use vd_forms::Form;
use vd_name_rows::Want;
use vd_overloads::{Env, Setting};
use vd_predefined::numbers::BOOLEAN;
use vd_readings::{Language, count};
use vd_resolved::Resolved;
use vd_states::{State, Want as Wanted};

/// A literal, an aggregate, a concatenation, or a name of one piece, in the order of the text.
#[derive(Clone, Copy)]
pub(crate) struct Candidate {
    /// The mark by which it can be qualified.
    pub(crate) mark: Option<u32>,
    /// The type that it has in the text that is written.
    pub(crate) own: Option<TypeId>,
    /// Whether it is written as such.
    pub(crate) is_written: bool,
}

/// The number of a type.
fn number_of_type(mark: &Option<TypeId>) -> Option<u32> {
    match mark {
        Some(mark) => Some(mark.number()),
        None => None,
    }
}

/// A value of a type.
fn value(mark: TypeId) -> State {
    State::Only(Wanted::Value(mark))
}

/// A discrete range of a type.
fn discrete_range(mark: TypeId) -> State {
    State::Only(Wanted::DiscreteRange(mark))
}

/// Whether a type that is declared so far is discrete.
fn is_discrete(env: &Env<'_>, mark: TypeId) -> bool {
    Setting::is_discrete(env, mark)
}

/// Values of each type that is declared so far.
fn values(alloc: Global, env: &Env<'_>) -> Result<Vec<State>, AllocError> {
    Setting::types(env)
        .iter()
        .map(|mark| value(*mark))
        .collect(alloc)
}

/// The discrete types that are declared so far.
fn discrete_types(alloc: Global, env: &Env<'_>) -> Result<Vec<TypeId>, AllocError> {
    let mut found = Vec::new(alloc);
    for mark in Setting::types(env) {
        if is_discrete(env, *mark) {
            found.push(*mark)?;
        }
    }
    Ok(found)
}

/// Discrete ranges of each discrete type that is declared so far.
fn discrete_ranges(alloc: Global, env: &Env<'_>) -> Result<Vec<State>, AllocError> {
    let marks = discrete_types(alloc, env)?;
    marks
        .iter()
        .map(|mark| discrete_range(*mark))
        .collect(alloc)
}

/// One state, where there is a type for it.
fn one_state(alloc: Global, state: Option<State>) -> Result<Vec<State>, AllocError> {
    match state {
        Some(state) => Vec::from_slice(alloc, &[state]),
        None => Ok(Vec::new(alloc)),
    }
}

/// What a place wants of an expression, given the type that it has there and that of the selector.
fn state_of(want: Want, mark: Option<TypeId>, selector: Option<TypeId>) -> Option<State> {
    match want {
        Want::AtHand => mark.map(value),
        Want::Given(number) => Some(value(TypeId::of(number))),
        Want::Condition => Some(value(TypeId::of(BOOLEAN))),
        Want::Choice => match selector {
            Some(selector) => Some(State::Only(Wanted::Choice(selector))),
            None => None,
        },
        Want::Range => match mark {
            Some(mark) => Some(State::Only(Wanted::Range(mark))),
            None => None,
        },
        Want::Index => mark.map(discrete_range),
        Want::Free | Want::AnyRange => None,
    }
}

/// The states in which an expression is read at its place.
fn states_of(
    alloc: Global,
    env: &Env<'_>,
    want: Want,
    mark: Option<TypeId>,
    selector: Option<TypeId>,
    tree: &Cursor<'_, Form>,
) -> Result<Vec<State>, AllocError> {
    match want {
        Want::Free => {
            let states = values(alloc, env)?;
            Setting::possible(env, alloc, tree, states)
        }
        Want::AnyRange => discrete_ranges(alloc, env),
        _ => one_state(alloc, state_of(want, mark, selector)),
    }
}

/// How often an expression can be read in some states, up to two.
fn readings<L: Language>(
    alloc: Global,
    language: &L,
    tree: &Cursor<'_, Form>,
    states: &[State],
) -> Result<u8, AllocError> {
    count(alloc, language, tree, states)
}

impl<'a> Writer<'a> {
    /// Notes a part of the expression that is being written, and gives its place among all.
    pub(crate) fn add_candidate(
        &mut self,
        mark: Option<TypeId>,
        is_written: bool,
    ) -> Result<usize, AllocError> {
        let place = self.candidates.len();
        let own = self.linked_type(mark);
        self.candidates.push(Candidate {
            mark: number_of_type(&mark),
            own,
            is_written,
        })?;
        Ok(place)
    }

    /// A part is written as this.
    pub(crate) fn put_candidate(&mut self, place: Option<usize>, candidate: Candidate) {
        if let Some(place) = place {
            if place < self.candidates.len() {
                self.candidates[place] = candidate;
            }
        }
    }

    /// No part is noted.
    pub(crate) fn begin_candidates(&mut self) {
        self.candidates = Vec::new(self.alloc);
    }

    /// Those parts that are written as such.
    fn written_candidates(&self) -> Result<Vec<Candidate>, AllocError> {
        let mut written = Vec::new(self.alloc);
        for candidate in &self.candidates {
            if candidate.is_written {
                written.push(*candidate)?;
            }
        }
        Ok(written)
    }

    /// Whether a part can be qualified.
    fn has_candidates(&self) -> bool {
        for candidate in &self.candidates {
            if candidate.is_written && candidate.mark.is_some() && candidate.own.is_some() {
                return true;
            }
        }
        false
    }

    /// What stands round an expression at the place, and in which states it is read.
    fn states_here(
        &self,
        root: &Root,
        mark: Option<TypeId>,
        tree: &Cursor<'_, Form>,
    ) -> Result<Vec<State>, AllocError> {
        let env = Env {
            surroundings: self.names.surroundings(&self.at)?,
        };
        let selector = self.linked_type(self.selector);
        let own = self.linked_type(mark);
        states_of(self.alloc, &env, root.want, own, selector, tree)
    }

    /// How often an expression can be read at the place, up to two.
    fn readings_here(&self, tree: &Cursor<'_, Form>, states: &[State]) -> Result<u8, AllocError> {
        let env = Env {
            surroundings: self.names.surroundings(&self.at)?,
        };
        readings(self.alloc, &env, tree, states)
    }

    /// The same where the part that is marked has another type than this.
    fn other_readings(
        &self,
        tree: &Cursor<'_, Form>,
        own: TypeId,
        states: &[State],
    ) -> Result<u8, AllocError> {
        let apart = Apart {
            env: Env {
                surroundings: self.names.surroundings(&self.at)?,
            },
            mark: own,
        };
        readings(self.alloc, &apart, tree, states)
    }

    /// Whether a part of an expression can have another type than the one that is meant.
    fn is_open(
        &self,
        out: &Store<Form>,
        trees: u32,
        parts: &[Option<Settled<'a>>],
        place: usize,
        own: TypeId,
        states: &[State],
    ) -> Result<bool, AllocError>
        requires { trees ≤ length out.now }
    {
        let mut scratch = Store::new(self.alloc);
        let tree = out.cursor(trees);
        let copy = copy_with(self.alloc, &tree, parts, Some(place), &mut scratch)?;
        let others = self.other_readings(&scratch.cursor(copy), own, states)?;
        Ok(others > 0)
    }

    /// Whether an expression, in which some parts are qualified, can be read in several ways.
    fn is_ambiguous(
        &self,
        out: &Store<Form>,
        trees: u32,
        parts: &[Option<Settled<'a>>],
        states: &[State],
    ) -> Result<bool, AllocError>
        requires { trees ≤ length out.now }
    {
        let mut scratch = Store::new(self.alloc);
        let tree = out.cursor(trees);
        let copy = copy_with(self.alloc, &tree, parts, None, &mut scratch)?;
        let found = self.readings_here(&scratch.cursor(copy), states)?;
        Ok(found > 1)
    }

    /// How a part is qualified by a mark.
    fn settle(&mut self, mark: u32) -> Result<Settled<'a>, AllocError> {
        let spelling = self.spell(mark)?;
        Ok(Settled {
            spelling,
            name: self.name_of(mark),
        })
    }

    /// Which part is qualified next, from a place on: the first one that can have another type than the one that is meant.
    fn next_open(
        &self,
        out: &Store<Form>,
        trees: u32,
        written: &[Candidate],
        parts: &[Option<Settled<'a>>],
        from: usize,
        states: &[State],
    ) -> Result<Option<usize>, AllocError>
        requires { trees ≤ length out.now }
    {
        let mut place = from;
        while place < written.len() {
            if let (Some(_), Some(own)) = (written[place].mark, written[place].own) {
                if self.is_open(out, trees, parts, place, own, states)? {
                    return Ok(Some(place));
                }
            }
            place += 1;
        }
        Ok(None)
    }

    /// The parts of an expression that are qualified, from the outermost inwards and from the left.
    fn settled_parts(
        &mut self,
        out: &Store<Form>,
        trees: u32,
        states: &[State],
    ) -> Result<Vec<Option<Settled<'a>>>, AllocError>
        requires { trees ≤ length out.now }
    {
        let written = self.written_candidates()?;
        let mut parts: Vec<Option<Settled<'a>>> = vec![in self.alloc; None; written.len()]?;
        let mut from = 0usize;
        for _ in 0..written.len() {
            let next = self.next_open(
                out,
                trees,
                written.as_slice(),
                parts.as_slice(),
                from,
                states,
            )?;
            let Some(place) = next else {
                return Ok(parts);
            };
            self.settle_part(written.as_slice(), &mut parts, place)?;
            if !self.is_ambiguous(out, trees, parts.as_slice(), states)? {
                return Ok(parts);
            }
            from = place.saturating_add(1);
        }
        Ok(parts)
    }

    /// Qualifies the part of this place.
    fn settle_part(
        &mut self,
        written: &[Candidate],
        parts: &mut Vec<Option<Settled<'a>>>,
        place: usize,
    ) -> Result<(), AllocError> {
        let Some(
            Candidate {
                mark: Some(mark),
                ..
            },
        ) = written.get(place)
        else {
            return Ok(());
        };
        let part = self.settle(*mark)?;
        if place < parts.len() {
            parts[place] = Some(part);
        }
        Ok(())
    }

    /// An expression with those parts qualified that have to be.
    #[tactic(auto, using(vd_forest::proofs::StoreLemmas::growing))]
    fn with_settled(
        &mut self,
        out: &mut Store<Form>,
        trees: u32,
        states: &[State],
    ) -> Result<u32, AllocError>
        requires { trees ≤ length out.old }
        ensures within { IfOk result (λ made. made ≤ length out.new) }
        ensures extends { Extends out.old out.new }
    {
        let parts = self.settled_parts(out, trees, states)?;
        let mut scratch = Store::new(self.alloc);
        let copy = copy_with(
            self.alloc,
            &out.cursor(trees),
            parts.as_slice(),
            None,
            &mut scratch,
        )?;
        out.copy(&scratch.cursor(copy))
    }

    /// A largest expression as it is written: where it could be read in several ways, with qualified parts.
    #[tactic(auto, using(vd_forest::proofs::StoreLemmas::growing))]
    pub(crate) fn qualify(
        &mut self,
        out: &mut Store<Form>,
        root: &Root,
        node: &Opened<'a, Resolved>,
        trees: u32,
    ) -> Result<u32, AllocError>
        requires { trees ≤ length out.old }
        ensures within { IfOk result (λ made. made ≤ length out.new) }
        ensures extends { Extends out.old out.new }
    {
        if !self.has_candidates() {
            return Ok(trees);
        }
        let tree = out.cursor(trees);
        let states = self.states_here(root, node.form.mark, &tree)?;
        if self.readings_here(&tree, states.as_slice())? < 2 {
            return Ok(trees);
        }
        self.with_settled(out, trees, states.as_slice())
    }

    /// Whether a declaration is one that stands for a value by its name alone.
    pub(crate) fn is_value(&self, number: u32) -> bool {
        let class = self.class_of(number);
        matches!(class, vd_declarations::Class::EnumerationLiteral) || class.is_function()
    }

    /// The mark by which a name of one piece is qualified: of the result of a function, or the type of a literal.
    pub(crate) fn mark_of_value(&self, number: u32, mark: Option<TypeId>) -> Option<u32> {
        match self.tables.mark(number) {
            Some(own) => Some(own),
            None => match mark {
                Some(mark) => Some(DeclId::of(mark.number()).number()),
                None => None,
            },
        }
    }
}
