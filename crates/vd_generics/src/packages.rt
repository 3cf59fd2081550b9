//! Packages that are instances.
#![tactic(auto, using(vd_forest::proofs::StoreLemmas::growing))]

ghost use Rattle.std.specs.Prelude.{◌≡◌, ◌≤◌, IfOk, length};
ghost use Rattle.vd_forest.specs.Store.{Extends};

use crate::actuals::Actuals;
use crate::trees::{closing, package_body, plain};
use crate::under::Under;
use std::alloc::{AllocError, Global};
use vd_forest::{Cursor, Opened, Store};
use vd_forms::Form;
use vd_notes::absent;
use vd_resolved::{Resolved, Tree};

impl<'d, 'a, 'r> Under<'d, 'a, 'r> {
    /// What the instance of a package declares: what stands for its generics, and a copy of the rest.
    fn package_part(
        &self,
        alloc: Global,
        out: &mut Store<Resolved>,
        text: &Opened<'_, Resolved>,
        actuals: &Actuals<'_>,
    ) -> Result<u32, AllocError>
        ensures within { IfOk result (λ made. made ≤ length out.new) }
        ensures extends { Extends out.old out.new }
    {
        let items = self.all(alloc, out, &text.parts.skip(2).parts())?;
        let front = self.generics(alloc, out, &text.parts.skip(1).parts(), actuals)?;
        let whole = out.turn(front, items)?;
        let end = closing(out, text.place, 0)?;
        let form = plain(Form::DeclarativePart);
        let made = out.add(form, &[], text.place, whole, end)?;
        Ok(made)
    }

    /// A package that is an instance.
    pub(crate) fn package(
        &self,
        alloc: Global,
        out: &mut Store<Resolved>,
        text: &Opened<'_, Resolved>,
        name: &Cursor<'_, Resolved>,
        actuals: &Actuals<'_>,
    ) -> Result<u32, AllocError>
        ensures within { IfOk result (λ made. made ≤ length out.new) }
        ensures extends { Extends out.old out.new }
    {
        let part = self.package_part(alloc, out, text, actuals)?;
        let without_generics = absent(out, text.place, part)?;
        let parts = self.named(out, &text.parts, name, without_generics)?;
        let form = self.node(&text.form);
        let made = out.add(form, text.text, text.place, parts, 0)?;
        Ok(made)
    }

    /// The body of a package that is an instance, by itself.
    pub(crate) fn package_body(
        &self,
        alloc: Global,
        body: &Tree,
        package: u32,
    ) -> Result<Tree, AllocError> {
        let mut store = Store::new(alloc);
        let made = self.body_in(alloc, &mut store, &body.cursor(), package)?;
        Ok(Tree::of(store, made, Vec::new(alloc)))
    }

    /// The same in a store.
    fn body_in(
        &self,
        alloc: Global,
        out: &mut Store<Resolved>,
        body: &Cursor<'_, Resolved>,
        package: u32,
    ) -> Result<u32, AllocError>
        ensures within { IfOk result (λ made. made ≤ length out.new) }
        ensures extends { Extends out.old out.new }
    {
        let Some(text) = body.open() else {
            return Ok(0);
        };
        let items = self.all(alloc, out, &text.parts.skip(1).parts())?;
        let name = self.declared.name_of(package);
        package_body(out, package, name, text.place, items)
    }

    /// A function with generics that the instance declares, by itself.
    pub(crate) fn template(&self, alloc: Global, function: &Tree) -> Result<Tree, AllocError> {
        let mut store = Store::new(alloc);
        let made = self.all(alloc, &mut store, &function.cursor())?;
        Ok(Tree::of(store, made, Vec::new(alloc)))
    }
}
