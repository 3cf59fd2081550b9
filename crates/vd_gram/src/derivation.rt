//! The derivation of a text, as nodes in the order of the text.

ghost use Rattle.std.specs.Prelude.{◌≡◌, ◌+◌, ◌<◌, ◌≤◌, length, IfOk, MatchOption};
ghost use Rattle.vd_gram.specs.Derivations.{nothing};
ghost use Rattle.vd_gram.specs.Links.{trees_of, IsLinked, IsLinkedFrom, IsSpan, first_trees, trees_from};
ghost use Rattle.vd_gram.specs.Openings.{opened};

use crate::numbers::narrow;
use crate::steps::Step;
use crate::tables::Symbol;
use std::alloc::{AllocError, Global};
use std::marker::Model;

/// The derivation of a text. Contracts see it as trees.
#[derive(Drop)]
pub struct Derivation {
    steps: Vec<Step>,
    ends: Vec<u32>,
}

impl Model for Derivation {
    ghost use Rattle.vd_gram.specs.Derivations.{Trees};
    ghost use Rattle.vd_gram.specs.Code.{coded_trees};

    ghost Value = { Trees };

    ghost coded = { coded_trees };

    ghost use Rattle.vd_gram.specs.Links.{trees_of, IsLinked};

    ghost view = { λ a. trees_of a.steps.items };

    ghost invariant = { λ a. IsLinked a.steps.items a.ends.items };
}

impl Derivation {
    /// The trees that steps stand for.
    pub(crate) fn of(alloc: Global, steps: Vec<Step>) -> Result<Self, AllocError>
        ensures { IfOk result (λ made. made ≡ trees_of steps.items) }
    {
        let ends = ends_of(alloc, &steps)?;
        Ok(Derivation { steps, ends })
    }

    /// The derivation's trees, to be read.
    #[tactic(auto, using(crate::proofs::LinkLemmas::all_trees))]
    pub fn cursor(&self) -> Cursor<'_>
        ensures { result ≡ self.now }
    {
        Cursor {
            steps: &self.steps,
            ends: &self.ends,
            start: 0,
            count: self.steps.len(),
        }
    }
}

/// The step behind some trees that stand side by side from a step on.
#[tactic(auto, using(crate::proofs::LinkLemmas::spans))]
fn end_of(steps: &[Step], ends: &[u32], start: usize, count: u32) -> usize
    requires start_in { start ≤ length steps.now }
    requires linked { IsLinkedFrom steps.now start ends.now }
    ensures { IsSpan steps.now start count result }
{
    let mut end = start;
    for _ in 0..count {
        if end >= steps.len() {
            return end;
        }
        end = ends[end] as usize;
    }
    end
}

/// The step behind the tree of a step, where those of the steps behind it are known.
#[tactic(auto, using(crate::proofs::LinkLemmas::tree_spans))]
fn tree_end(steps: &[Step], ends: &[u32], start: usize) -> usize
    requires start_in { start < length steps.now }
    requires linked { IsLinkedFrom steps.now (start + 1) ends.now }
    ensures { IsSpan steps.now start 1 result }
{
    match steps[start] {
        Step::Leaf { .. } => start + 1,
        Step::Node { parts, .. } => end_of(steps, ends, start + 1, parts),
    }
}

/// The step behind the tree of each step.
#[tactic(auto, using(crate::proofs::LinkLemmas::links))]
fn ends_of(alloc: Global, steps: &[Step]) -> Result<Vec<u32>, AllocError>
    ensures { IfOk result (λ ends. IsLinked steps.now ends.items) }
{
    let mut ends = vec![in alloc; 0; steps.len()]?;
    let mut start = steps.len();
    while start > 0 {
        start -= 1;
        let end = tree_end(steps, &ends, start);
        ends[start] = narrow(end)?;
    }
    Ok(ends)
}

/// Some trees of a derivation, side by side.
#[derive(Drop)]
pub struct Cursor<'a> {
    steps: &'a [Step],
    ends: &'a [u32],
    start: usize,
    count: usize,
}

impl<'a> Model for Cursor<'a> {
    ghost use Rattle.vd_gram.specs.Derivations.{Trees};
    ghost use Rattle.vd_gram.specs.Code.{coded_trees};

    ghost Value = { Trees };

    ghost coded = { coded_trees };

    ghost use Rattle.vd_gram.specs.Links.{first_trees, trees_from, IsLinked};

    ghost view = { λ a. first_trees a.count (trees_from a.steps.now a.start) };

    ghost invariant = { λ a. IsLinked a.steps.now a.ends.now };
}

/// The first of some trees, with the trees after it: a leaf with its symbol and its place in the
/// text, or a node with the number of its production and the trees of its right side.
#[derive(Drop)]
pub enum Opened<'a> {
    Leaf {
        symbol: Symbol,
        place: u32,
        next: Cursor<'a>,
    },
    Node {
        production: u32,
        parts: Cursor<'a>,
        next: Cursor<'a>,
    },
}

impl<'a> Cursor<'a> {
    /// Another cursor over these trees.
    pub fn fork(&self) -> Cursor<'a>
        ensures { result ≡ self.now }
    {
        Cursor {
            steps: self.steps,
            ends: self.ends,
            start: self.start,
            count: self.count,
        }
    }

    /// The first tree, or `None` where there is none.
    #[tactic(auto, using(crate::proofs::LinkLemmas::openings))]
    pub fn open(&self) -> Option<Opened<'a>>
        ensures { MatchOption result (self.now ≡ nothing) (λ first. self.now ≡ opened first) }
    {
        if self.count == 0 {
            return None;
        }
        if self.start >= self.steps.len() {
            return None;
        }
        let end = self.ends[self.start] as usize;
        let next = Cursor {
            steps: self.steps,
            ends: self.ends,
            start: end,
            count: self.count - 1,
        };
        match self.steps[self.start] {
            Step::Leaf { symbol, place } => Some(Opened::Leaf {
                symbol,
                place,
                next,
            }),
            Step::Node { production, parts } => Some(Opened::Node {
                production,
                parts: Cursor {
                    steps: self.steps,
                    ends: self.ends,
                    start: self.start + 1,
                    count: parts as usize,
                },
                next,
            }),
        }
    }
}
