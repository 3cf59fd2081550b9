//! Copies of forests, by a loop with the trees that are open in memory.

ghost use Rattle.std.specs.Prelude.{◌≡◌, IfOk};
ghost use Rattle.vd_forest.specs.Store.{Holds, Extends};

use crate::cursor::Cursor;
use crate::store::Store;
use std::alloc::AllocError;

/// A tree whose parts are being copied, by its number in the store that is read, and the trees
/// before it in its list, which are copied and stand in the other order.
#[derive(Clone, Copy)]
struct Open {
    number: u32,
    made: u32,
}

impl<F: Copy + Drop> Store<F> {
    /// The forest of a cursor, in this store. It takes no stack, and as many steps as the forest
    /// has nodes.
    #[tactic(auto, using(crate::proofs::CopyLemmas::copying_steps, crate::proofs::StoreLemmas::growing))]
    pub fn copy(&mut self, from: &Cursor<'_, F>) -> Result<u32, AllocError>
        ensures holds { IfOk result (λ number. Holds self.new number from.now) }
        ensures extends { Extends self.old self.new }
    {
        let (store, number) = from.stands();
        let mut pending: Vec<Open> = Vec::new(self.alloc());
        let mut left = number;
        let mut made = 0;
        while left > 0 || !pending.is_empty() {
            if left > 0 {
                pending.push(Open { number: left, made })?;
                left = store.node(left).parts;
                made = 0;
            } else if let Some(tree) = pending.pop() {
                let parts = self.turn(made, 0)?;
                let head = store.node(tree.number);
                made = self.add(head.form, head.text, head.place, parts, tree.made)?;
                left = head.next;
            }
        }
        let copied = self.turn(made, 0)?;
        Ok(copied)
    }
}
