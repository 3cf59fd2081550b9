//! The pass that leaves each node as it is.

ghost use Rattle.std.specs.Prelude.{IfOk};
ghost use Rattle.vd_forest.specs.Store.{Holds, Extends};
ghost use Rattle.vd_rewriting.specs.Inheriting.{same_rules};
ghost use Rattle.vd_rewriting.specs.Rewriting.{same_pass};

use crate::inheriting::Inheriting;
use crate::rewriting::{Rewriting, rewrite};
use std::alloc::{AllocError, Global};
use vd_forest::{Cursor, Opened, Store};

/// Leaves each node as it is.
#[derive(Clone, Copy, Drop)]
pub struct Same;

impl<F: Copy + Drop> Rewriting<F, F> for Same {
    ghost pass = { λ _. same_pass };

    fn make(
        &mut self,
        out: &mut Store<F>,
        node: &Opened<'_, F>,
        parts: u32,
        next: u32,
    ) -> Result<u32, AllocError> {
        out.add(node.form, node.text, node.place, parts, next)
    }
}

impl<F: Copy + Drop> Inheriting<F, F, ()> for Same {
    ghost rules = { λ _. same_rules };

    fn down(&mut self, _state: (), _node: &Opened<'_, F>) -> Result<(), AllocError> {
        Ok(())
    }

    fn along(&mut self, _state: (), _node: &Opened<'_, F>) -> Result<(), AllocError> {
        Ok(())
    }

    fn make(
        &mut self,
        out: &mut Store<F>,
        _state: (),
        node: &Opened<'_, F>,
        parts: u32,
        next: u32,
    ) -> Result<u32, AllocError> {
        out.add(node.form, node.text, node.place, parts, next)
    }
}

/// A forest in another store, with all that its store has under smaller numbers: trees that share
/// parts go on sharing them. `Store::copy` copies what the forest has, and nothing else.
#[tactic(auto, using(crate::proofs::RewritingLaws::holds_same))]
pub fn copy_shared<F: Copy + Drop>(
    alloc: Global,
    from: &Cursor<'_, F>,
    out: &mut Store<F>,
) -> Result<u32, AllocError>
    ensures holds { IfOk result (λ made. Holds out.new made from.now) }
    ensures extends { Extends out.old out.new }
{
    let made = rewrite(alloc, from, out, &mut Same)?;
    Ok(made)
}
