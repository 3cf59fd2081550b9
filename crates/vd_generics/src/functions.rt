//! Functions that are instances.
#![tactic(auto, using(vd_forest::proofs::StoreLemmas::growing))]

ghost use Rattle.std.specs.Prelude.{◌≡◌, ◌≤◌, IfOk, length};
ghost use Rattle.vd_forest.specs.Store.{Extends};

use crate::under::Under;
use std::alloc::{AllocError, Global};
use vd_forest::{Cursor, Opened, Store};
use vd_forms::Form;
use vd_notes::absent;
use vd_resolved::{Resolved, Tree};

impl<'d, 'a, 'r> Under<'d, 'a, 'r> {
    /// The name of an instance where that of its package or function stands, in front of others.
    pub(crate) fn named(
        &self,
        out: &mut Store<Resolved>,
        old: &Cursor<'_, Resolved>,
        name: &Cursor<'_, Resolved>,
        next: u32,
    ) -> Result<u32, AllocError>
        requires { next ≤ length out.old }
        ensures within { IfOk result (λ made. made ≤ length out.new) }
        ensures extends { Extends out.old out.new }
    {
        let Some(old) = old.open() else {
            return Ok(next);
        };
        let Some(name) = name.open() else {
            return Ok(next);
        };
        let form = Resolved {
            form: name.form.form,
            ..self.node(&old.form)
        };
        let made = out.add(form, name.text, name.place, 0, next)?;
        Ok(made)
    }

    /// The parameters of a function and its result.
    fn profile(
        &self,
        alloc: Global,
        out: &mut Store<Resolved>,
        parts: &Cursor<'_, Resolved>,
    ) -> Result<u32, AllocError>
        ensures within { IfOk result (λ made. made ≤ length out.new) }
        ensures extends { Extends out.old out.new }
    {
        let result = self.first(alloc, out, &parts.skip(5), 0)?;
        let made = self.first(alloc, out, &parts.skip(4), result)?;
        Ok(made)
    }

    /// A function of this form that is an instance, of whose parts these stand there already: the parameters and what is behind them. There are no
    /// generics any more.
    fn function(
        &self,
        alloc: Global,
        out: &mut Store<Resolved>,
        text: &Opened<'_, Resolved>,
        form: Form,
        name: &Cursor<'_, Resolved>,
        rest: u32,
    ) -> Result<u32, AllocError>
        requires { rest ≤ length out.old }
        ensures within { IfOk result (λ made. made ≤ length out.new) }
        ensures extends { Extends out.old out.new }
    {
        let without_word = absent(out, text.place, rest)?;
        let without_generics = absent(out, text.place, without_word)?;
        let named = self.named(out, &text.parts.skip(1), name, without_generics)?;
        let parts = self.first(alloc, out, &text.parts, named)?;
        let node = Resolved {
            form,
            ..self.node(&text.form)
        };
        let made = out.add(node, text.text, text.place, parts, 0)?;
        Ok(made)
    }

    /// The declaration of a function that is an instance.
    pub(crate) fn function_declaration(
        &self,
        alloc: Global,
        out: &mut Store<Resolved>,
        text: &Opened<'_, Resolved>,
        name: &Cursor<'_, Resolved>,
    ) -> Result<u32, AllocError>
        ensures within { IfOk result (λ made. made ≤ length out.new) }
        ensures extends { Extends out.old out.new }
    {
        let rest = self.profile(alloc, out, &text.parts)?;
        self.function(alloc, out, text, Form::FunctionDeclaration, name, rest)
    }

    /// A function that is an instance, with its body.
    pub(crate) fn function_body(
        &self,
        alloc: Global,
        out: &mut Store<Resolved>,
        text: &Opened<'_, Resolved>,
        name: &Cursor<'_, Resolved>,
    ) -> Result<u32, AllocError>
        ensures within { IfOk result (λ made. made ≤ length out.new) }
        ensures extends { Extends out.old out.new }
    {
        let rest = self.all(alloc, out, &text.parts.skip(4))?;
        self.function(alloc, out, text, Form::FunctionBody, name, rest)
    }

    /// The same by itself.
    pub(crate) fn function_tree(
        &self,
        alloc: Global,
        text: &Opened<'_, Resolved>,
        name: &Cursor<'_, Resolved>,
    ) -> Result<Tree, AllocError> {
        let mut store = Store::new(alloc);
        let made = self.function_body(alloc, &mut store, text, name)?;
        Ok(Tree::of(store, made, Vec::new(alloc)))
    }
}
