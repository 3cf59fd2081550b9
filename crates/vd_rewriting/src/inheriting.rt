//! Passes in which each node has a state that comes from outside.

ghost use Rattle.std.specs.Prelude.{◌≡◌, ◌≤◌, IfOk, length};
ghost use Rattle.vd_forest.specs.Store.{at, Holds, Extends};
ghost use Rattle.vd_rewriting.specs.Inheriting.{Rules, rewritten_under};

use crate::visits::visit;
use std::alloc::{AllocError, Global};
use vd_forest::{Cursor, Opened, Store};

/// A pass from forests of the forms `F` to forests of the forms `G`, in which each node has a
/// state.
pub trait Inheriting<F: Copy + Drop, G: Copy + Drop, S: Copy + Drop> {
    ghost rules: { Self → Rules F G S };

    /// The state of the first of a node's parts.
    fn down(&mut self, state: S, node: &Opened<'_, F>) -> Result<S, AllocError>
        ensures is { IfOk result (λ s.
            s ≡ (rules self.old).down state node.now.form node.now.text.now node.now.place node.now.parts) }
        ensures same_rules { rules self.new ≡ rules self.old };

    /// The state of the tree after a node.
    fn along(&mut self, state: S, node: &Opened<'_, F>) -> Result<S, AllocError>
        ensures is { IfOk result (λ s.
            s ≡ (rules self.old).along state node.now.form node.now.text.now node.now.place node.now.parts) }
        ensures same_rules { rules self.new ≡ rules self.old };

    /// Makes what a node and the trees after it become. Its parts and those trees are rewritten
    /// already, and stand at `parts` and at `next`.
    fn make(
        &mut self,
        out: &mut Store<G>,
        state: S,
        node: &Opened<'_, F>,
        parts: u32,
        next: u32,
    ) -> Result<u32, AllocError>
        requires parts_in { parts ≤ length out.old }
        requires next_in { next ≤ length out.old }
        ensures holds { IfOk result (λ made. Holds out.new made
            ((rules self.old).pass state node.now.form node.now.text.now node.now.place node.now.parts (at out.old parts) (at out.old next))) }
        ensures extends { Extends out.old out.new }
        ensures same_rules { rules self.new ≡ rules self.old };
}

/// How far the rewriting of a node is.
#[derive(Clone, Copy)]
enum Stage {
    /// Its parts are being rewritten.
    Parts,
    /// They stand at this number, and the trees after the node are being rewritten.
    Next(u32),
}

/// A node that is being rewritten, by its number, and its state.
#[derive(Clone, Copy)]
struct Waiting<S> {
    number: u32,
    state: S,
    stage: Stage,
}

/// Rewrites a forest into another store, where its first tree has this state. What is visited is
/// what the forest has, in the order of its text, so a tree that two nodes share is rewritten for
/// each of them, under the state that it has there.
#[tactic(auto, using(crate::proofs::InheritingLemmas::inheriting_steps))]
pub fn rewrite_under<F: Copy + Drop, G: Copy + Drop, S: Copy + Drop, P: Inheriting<F, G, S>>(
    alloc: Global,
    from: &Cursor<'_, F>,
    state: S,
    out: &mut Store<G>,
    by: &mut P,
) -> Result<u32, AllocError>
    ensures holds { IfOk result (λ made. Holds out.new made (rewritten_under (P.rules by.old) state from.now)) }
    ensures extends { Extends out.old out.new }
    ensures same_rules { P.rules by.new ≡ P.rules by.old }
{
    let (store, number) = from.stands();
    let mut waiting: Vec<Waiting<S>> = Vec::new(alloc);
    let mut left = number;
    let mut here = state;
    let mut made = 0;
    while left > 0 || !waiting.is_empty() {
        if left > 0 {
            let visited = visit(store, left);
            waiting.push(Waiting {
                number: left,
                state: here,
                stage: Stage::Parts,
            })?;
            here = by.down(here, &visited.node)?;
            left = visited.parts;
            made = 0;
        } else if let Some(last) = waiting.pop() {
            let visited = visit(store, last.number);
            match last.stage {
                Stage::Parts => {
                    waiting.push(Waiting {
                        number: last.number,
                        state: last.state,
                        stage: Stage::Next(made),
                    })?;
                    here = by.along(last.state, &visited.node)?;
                    left = visited.next;
                    made = 0;
                }
                Stage::Next(parts) => {
                    made = by.make(out, last.state, &visited.node, parts, made)?;
                }
            }
        }
    }
    Ok(made)
}
