//! The search for readings, by a loop with the forests that wait in memory. Each forest is read once in each state that is asked of
//! it, and what stands behind a node only where what stands inside it fits.

ghost use Rattle.std.specs.Prelude.{◌≡◌, ◌<◌, ◌≤◌, None, IfSome, IfOk, OnOk, length};
ghost use Rattle.vd_forest.specs.Forest.{parts_of, next_of};
ghost use Rattle.vd_forest.specs.Store.{at, Extends};
ghost use Rattle.vd_readings.specs.Readings.{readings};
ghost use Rattle.vd_readings.specs.Found.{IsFound};
ghost use Rattle.vd_readings.specs.Search.{given_by, asked_readings, asked_cost, awaited, trial_cost, waiting_cost, step_cost, AreKnown, IsTrial, IsWaiting, IsStep};

use crate::found::Found;
use crate::language::Language;
use crate::memo::{keep, recall};
use crate::trials::{Asked, Stage, Step, Trial, Waiting};
use indexmap::IndexMap;
use std::alloc::{AllocError, Global};
use vd_forest::{Opened, Store};
use vd_forms::Form;
use vd_resolved::Resolved;
use vd_states::Way;

/// What is known of forests in states, and a store of their only readings.
#[derive(Drop)]
pub(crate) struct Known {
    pub(crate) memo: IndexMap<Asked, Found>,
    pub(crate) out: Store<Resolved>,
}

/// A store of forests, and the language in which they are read.
#[derive(Drop)]
pub(crate) struct Search<'a, L: Language> {
    pub(crate) language: &'a L,
    pub(crate) store: &'a Store<Form>,
}

impl<'a, L: Language> Search<'a, L> {
    /// What is known at once.
    fn look(&self, known: &Known, asked: &Asked) -> Option<Found>
        requires known { AreKnown (L.rules self.now.language.now) self.now.store.now known.now.out known.now.memo.entries }
        requires within { asked.now.number ≤ length self.now.store.now }
        ensures found { IfSome result (λ found. IsFound known.now.out found (asked_readings (L.rules self.now.language.now) self.now.store.now asked.now)) }
        ensures some { result ≡ None → 0 < asked.now.number }
    {
        if asked.number == 0 {
            let found = if self.language.ends(asked.state) {
                Found::Only(0)
            } else {
                Found::Nothing
            };
            return Some(found);
        }
        recall(&known.memo, asked)
    }

    /// Begins with a forest.
    fn begin(&self, alloc: Global, known: &Known, asked: Asked) -> Result<Trial, AllocError>
        requires some { 0 < asked.number }
        requires within { asked.number ≤ length self.now.store.now }
        ensures trial { IfOk result (λ trial. IsTrial (L.rules self.now.language.now) self.now.store.now known.now.out trial) }
        ensures same { IfOk result (λ trial. trial.asked ≡ asked) }
        ensures less { IfOk result (λ trial. trial_cost (L.rules self.now.language.now) self.now.store.now trial
            < asked_cost (L.rules self.now.language.now) self.now.store.now asked) }
    {
        let head = self.store.node(asked.number);
        let node = Opened {
            form: head.form,
            text: head.text,
            place: head.place,
            parts: self.store.cursor(head.parts),
            next: self.store.cursor(head.next),
        };
        let ways = self.language.ways(alloc, asked.state, &node)?;
        Ok(Trial {
            asked,
            ways,
            tried: 0,
            found: Found::Nothing,
        })
    }

    /// Goes on with the next way, or keeps what was found by all of them.
    fn advance(&self, known: &mut Known, trial: Trial) -> Result<Step, AllocError>
        requires known { AreKnown (L.rules self.now.language.now) self.now.store.now known.old.out known.old.memo.entries }
        requires trial { IsTrial (L.rules self.now.language.now) self.now.store.now known.old.out trial }
        ensures step { IfOk result (λ step. IsStep (L.rules self.now.language.now) self.now.store.now known.new.out
            (asked_readings (L.rules self.now.language.now) self.now.store.now trial.asked) step) }
        ensures less { IfOk result (λ step. step_cost (L.rules self.now.language.now) self.now.store.now step
            < trial_cost (L.rules self.now.language.now) self.now.store.now trial) }
        ensures known { OnOk result (AreKnown (L.rules self.now.language.now) self.now.store.now known.new.out known.new.memo.entries) }
        ensures out { known.new.out ≡ known.old.out }
    {
        match trial.ways.get(trial.tried) {
            None => {
                keep(&mut known.memo, trial.asked, trial.found)?;
                Ok(Step::Done(trial.found))
            }
            Some(way) => {
                let way = *way;
                let asked = Asked {
                    number: self.store.node(trial.asked.number).parts,
                    state: way.inside,
                };
                let mut trial = trial;
                trial.tried += 1;
                let waiting = Waiting {
                    trial,
                    way,
                    stage: Stage::Inside,
                };
                Ok(Step::Wait(waiting, asked))
            }
        }
    }

    /// What is found by a way of a node, from what is found inside it and behind it.
    #[tactic(auto, using(vd_forest::proofs::StoreLemmas::growing, crate::proofs::FoundLemmas::giving))]
    fn give(
        &self,
        known: &mut Known,
        number: u32,
        way: &Way,
        inner: Found,
        rest: Found,
    ) -> Result<Found, AllocError>
        requires some { 0 < number }
        requires within { number ≤ length self.now.store.now }
        requires inner { IsFound known.old.out inner (readings (L.rules self.now.language.now) (parts_of (at self.now.store.now number)) way.now.inside) }
        requires rest { IsFound known.old.out rest (readings (L.rules self.now.language.now) (next_of (at self.now.store.now number)) way.now.after) }
        ensures found { IfOk result (λ found. IsFound known.new.out found (given_by (L.rules self.now.language.now) (at self.now.store.now number) way.now)) }
        ensures extends { Extends known.old.out known.new.out }
        ensures memo { known.new.memo.entries ≡ known.old.memo.entries }
    {
        let head = self.store.node(number);
        match inner {
            Found::Nothing => Ok(Found::Nothing),
            Found::Only(inner) => match rest {
                Found::Nothing => Ok(Found::Nothing),
                Found::Only(rest) => {
                    let node = Resolved {
                        form: head.form,
                        declaration: way.declaration,
                        mark: way.mark,
                        position: way.position,
                    };
                    let made = known.out.add(node, head.text, head.place, inner, rest)?;
                    Ok(Found::Only(made))
                }
                Found::Several => Ok(Found::Several),
            },
            Found::Several => match rest {
                Found::Nothing => Ok(Found::Nothing),
                Found::Only(_) | Found::Several => Ok(Found::Several),
            },
        }
    }

    /// The first step of a forest.
    #[tactic(auto, using(crate::proofs::SearchLemmas::cost_some))]
    fn start(&self, alloc: Global, known: &mut Known, asked: Asked) -> Result<Step, AllocError>
        requires known { AreKnown (L.rules self.now.language.now) self.now.store.now known.old.out known.old.memo.entries }
        requires within { asked.number ≤ length self.now.store.now }
        ensures step { IfOk result (λ step. IsStep (L.rules self.now.language.now) self.now.store.now known.new.out
            (asked_readings (L.rules self.now.language.now) self.now.store.now asked) step) }
        ensures less { IfOk result (λ step. step_cost (L.rules self.now.language.now) self.now.store.now step
            < asked_cost (L.rules self.now.language.now) self.now.store.now asked) }
        ensures known { OnOk result (AreKnown (L.rules self.now.language.now) self.now.store.now known.new.out known.new.memo.entries) }
        ensures out { known.new.out ≡ known.old.out }
    {
        match self.look(known, &asked) {
            Some(found) => Ok(Step::Done(found)),
            None => {
                let trial = self.begin(alloc, known, asked)?;
                let step = self.advance(known, trial)?;
                Ok(step)
            }
        }
    }

    /// Goes on with a forest that waited, where that was found.
    #[tactic(auto, using(crate::proofs::SearchLemmas::known_grown, crate::proofs::SearchLemmas::trial_more))]
    fn resume(&self, known: &mut Known, waiting: Waiting, found: Found) -> Result<Step, AllocError>
        requires known { AreKnown (L.rules self.now.language.now) self.now.store.now known.old.out known.old.memo.entries }
        requires waiting { IsWaiting (L.rules self.now.language.now) self.now.store.now known.old.out waiting }
        requires found { IsFound known.old.out found (awaited (L.rules self.now.language.now) self.now.store.now waiting) }
        ensures step { IfOk result (λ step. IsStep (L.rules self.now.language.now) self.now.store.now known.new.out
            (asked_readings (L.rules self.now.language.now) self.now.store.now waiting.trial.asked) step) }
        ensures less { IfOk result (λ step. step_cost (L.rules self.now.language.now) self.now.store.now step
            < waiting_cost (L.rules self.now.language.now) self.now.store.now waiting) }
        ensures known { OnOk result (AreKnown (L.rules self.now.language.now) self.now.store.now known.new.out known.new.memo.entries) }
        ensures extends { Extends known.old.out known.new.out }
    {
        let Waiting {
            mut trial,
            way,
            stage,
        } = waiting;
        match stage {
            Stage::Inside => match found {
                Found::Nothing => {
                    let step = self.advance(known, trial)?;
                    Ok(step)
                }
                Found::Only(_) | Found::Several => {
                    let asked = Asked {
                        number: self.store.node(trial.asked.number).next,
                        state: way.after,
                    };
                    let waiting = Waiting {
                        trial,
                        way,
                        stage: Stage::After(found),
                    };
                    Ok(Step::Wait(waiting, asked))
                }
            },
            Stage::After(inner) => {
                let more = self.give(known, trial.asked.number, &way, inner, found)?;
                trial.found = trial.found.and(more);
                let step = self.advance(known, trial)?;
                Ok(step)
            }
        }
    }

    /// What is found of a forest in a state.
    #[tactic(auto, using(crate::proofs::SearchLemmas::searching))]
    pub(crate) fn find(
        &self,
        alloc: Global,
        known: &mut Known,
        asked: Asked,
    ) -> Result<Found, AllocError>
        requires known { AreKnown (L.rules self.now.language.now) self.now.store.now known.old.out known.old.memo.entries }
        requires within { asked.number ≤ length self.now.store.now }
        ensures found { IfOk result (λ found. IsFound known.new.out found (asked_readings (L.rules self.now.language.now) self.now.store.now asked)) }
        ensures known { OnOk result (AreKnown (L.rules self.now.language.now) self.now.store.now known.new.out known.new.memo.entries) }
        ensures extends { Extends known.old.out known.new.out }
    {
        let mut waiting: Vec<Waiting> = Vec::new(alloc);
        let mut step = self.start(alloc, known, asked)?;
        loop {
            match step {
                Step::Wait(last, next) => {
                    waiting.push(last)?;
                    step = self.start(alloc, known, next)?;
                }
                Step::Done(found) => match waiting.pop() {
                    None => return Ok(found),
                    Some(last) => step = self.resume(known, last, found)?,
                },
            }
        }
    }
}
