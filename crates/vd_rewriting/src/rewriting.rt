//! Passes that make each node anew from its rewritten parts.

ghost use Rattle.std.specs.Prelude.{◌≡◌, ◌≤◌, IfOk, length};
ghost use Rattle.vd_forest.specs.Store.{at, Holds, Extends};
ghost use Rattle.vd_rewriting.specs.Rewriting.{Pass, rewritten};

use crate::visits::visit;
use std::alloc::{AllocError, Global};
use vd_forest::{Cursor, Opened, Store};

/// A pass from forests of the forms `F` to forests of the forms `G`.
pub trait Rewriting<F: Copy + Drop, G: Copy + Drop> {
    ghost pass: { Self → Pass F G };

    /// Makes what a node and the trees after it become. Its parts and those trees are rewritten
    /// already, and stand at `parts` and at `next`.
    fn make(
        &mut self,
        out: &mut Store<G>,
        node: &Opened<'_, F>,
        parts: u32,
        next: u32,
    ) -> Result<u32, AllocError>
        requires parts_in { parts ≤ length out.old }
        requires next_in { next ≤ length out.old }
        ensures holds { IfOk result (λ made. Holds out.new made
            (pass self.old node.now.form node.now.text.now node.now.place node.now.parts (at out.old parts) (at out.old next))) }
        ensures extends { Extends out.old out.new }
        ensures same_pass { pass self.new ≡ pass self.old };
}

/// Rewrites a forest into another store. Each number of its store up to its own is rewritten
/// once, from the lowest on: trees that share parts go on sharing them, and trees that nobody
/// has are rewritten too.
#[tactic(auto, using(crate::proofs::RewritingLemmas::rewriting_steps))]
pub fn rewrite<F: Copy + Drop, G: Copy + Drop, P: Rewriting<F, G>>(
    alloc: Global,
    from: &Cursor<'_, F>,
    out: &mut Store<G>,
    by: &mut P,
) -> Result<u32, AllocError>
    ensures holds { IfOk result (λ made. Holds out.new made (rewritten (P.pass by.old) from.now)) }
    ensures extends { Extends out.old out.new }
    ensures same_pass { P.pass by.new ≡ P.pass by.old }
{
    let (store, number) = from.stands();
    let mut table: Vec<u32> = Vec::with_capacity(alloc, number as usize + 1)?;
    table.push(0)?;
    for older in 0..number {
        let visited = visit(store, older + 1);
        let parts = table[visited.parts as usize];
        let next = table[visited.next as usize];
        let made = by.make(out, &visited.node, parts, next)?;
        table.push(made)?;
    }
    Ok(table[number as usize])
}
