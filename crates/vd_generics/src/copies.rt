//! Copies of texts.
#![tactic(auto, using(vd_forest::proofs::StoreLemmas::growing))]

ghost use Rattle.std.specs.Prelude.{◌≡◌, ◌≤◌, IfOk, length};
ghost use Rattle.vd_forest.specs.Store.{Extends};

use crate::under::Under;
use std::alloc::{AllocError, Global};
use vd_forest::{Cursor, Opened, Store};
use vd_resolved::Resolved;
use vd_tours::{Entry, Touring, tour};

impl<'t, 'd, 'a, 'r> Touring<'t, Resolved, Resolved> for Under<'d, 'a, 'r> {
    ghost knows = { λ _ _ _. Unit {0} };

    ghost Frame = { Unit {0} };

    ghost frame = { λ _. tt };

    ghost replaces = { λ _ _ _ _. Unit {0} };

    ghost becomes = { λ _ _ _ _ _. Unit {0} };

    fn enter(
        &mut self,
        _alloc: Global,
        _out: &mut Store<Resolved>,
        _node: &Opened<'t, Resolved>,
    ) -> Result<Entry, AllocError> {
        Ok(Entry::Inside)
    }

    fn leave(
        &mut self,
        _alloc: Global,
        out: &mut Store<Resolved>,
        node: &Opened<'t, Resolved>,
        parts: u32,
    ) -> Result<u32, AllocError> {
        let form = self.node(&node.form);
        let made = out.add(form, node.text, node.place, parts, 0)?;
        Ok(made)
    }
}

impl<'d, 'a, 'r> Under<'d, 'a, 'r> {
    /// Copies of some trees.
    #[tactic(auto, using(crate::proofs::TourLemmas::at_start))]
    pub(crate) fn all(
        &self,
        alloc: Global,
        out: &mut Store<Resolved>,
        trees: &Cursor<'_, Resolved>,
    ) -> Result<u32, AllocError>
        ensures within { IfOk result (λ made. made ≤ length out.new) }
        ensures extends { Extends out.old out.new }
    {
        let mut by = Under {
            declared: self.declared,
            renaming: self.renaming,
        };
        tour(alloc, trees, out, &mut by)
    }

    /// A copy of the first of some trees, in front of others.
    pub(crate) fn first(
        &self,
        alloc: Global,
        out: &mut Store<Resolved>,
        trees: &Cursor<'_, Resolved>,
        next: u32,
    ) -> Result<u32, AllocError>
        requires { next ≤ length out.old }
        ensures within { IfOk result (λ made. made ≤ length out.new) }
        ensures extends { Extends out.old out.new }
    {
        let Some(first) = trees.open() else {
            return Ok(next);
        };
        let parts = self.all(alloc, out, &first.parts)?;
        let form = self.node(&first.form);
        let made = out.add(form, first.text, first.place, parts, next)?;
        Ok(made)
    }
}
