//! What an instance has in the place of generics.
#![tactic(auto, using(vd_forest::proofs::StoreLemmas::growing))]

ghost use Rattle.std.specs.Prelude.{◌≡◌, ◌≤◌, IfOk, length};
ghost use Rattle.vd_forest.specs.Store.{Extends};

use crate::actuals::Actuals;
use crate::trees::{copy_first, plain};
use crate::under::Under;
use std::alloc::{AllocError, Global};
use vd_bytes::Place;
use vd_declarations::{Class, DeclId};
use vd_forest::{Cursor, Opened, Store};
use vd_forms::Form;
use vd_notes::{absent, first_number, mark_name_of, number_at, number_of, word};
use vd_resolved::Resolved;

/// An instance as it is written: what it is one of, its own number, its name, and the elements of its map.
#[derive(Drop)]
pub(crate) struct Instance<'t> {
    pub(crate) template: u32,
    pub(crate) number: u32,
    pub(crate) name: Cursor<'t, Resolved>,
    pub(crate) elements: Cursor<'t, Resolved>,
}

/// The number of an instance, which stands at its node or at its name.
fn number_by(node: &Opened<'_, Resolved>, name: &Cursor<'_, Resolved>) -> Option<u32> {
    match number_of(&node.form.declaration) {
        Some(number) => Some(number),
        None => first_number(name),
    }
}

impl<'t> Instance<'t> {
    /// An instance whose name, whose package or function and whose map are the first of these trees.
    fn at(
        node: &Opened<'t, Resolved>,
        name: Cursor<'t, Resolved>,
        template: &Cursor<'t, Resolved>,
        map: &Cursor<'t, Resolved>,
    ) -> Option<Instance<'t>> {
        let number = number_by(node, &name)?;
        let template = first_number(template)?;
        Some(Instance {
            template,
            number,
            name,
            elements: map.parts(),
        })
    }

    /// An instance of a package.
    pub(crate) fn of_package(node: &Opened<'t, Resolved>) -> Option<Instance<'t>> {
        let name = node.parts.fork();
        Instance::at(node, name, &node.parts.skip(1), &node.parts.skip(2))
    }

    /// An instance of a function.
    pub(crate) fn of_function(node: &Opened<'t, Resolved>) -> Option<Instance<'t>> {
        let name = node.parts.skip(1);
        Instance::at(node, name, &node.parts.skip(2), &node.parts.skip(3))
    }
}

impl<'d, 'a, 'r> Under<'d, 'a, 'r> {
    /// The name that stands for a generic, where it is declared.
    fn name(
        &self,
        out: &mut Store<Resolved>,
        number: u32,
        place: Place,
        next: u32,
    ) -> Result<u32, AllocError>
        requires { next ≤ length out.old }
        ensures within { IfOk result (λ made. made ≤ length out.new) }
        ensures extends { Extends out.old out.new }
    {
        let text = self.declared.name_of(number);
        let made = word(out, text, Some(DeclId::of(number)), None, place, next)?;
        Ok(made)
    }

    /// What a constant is: the actual of the generic, or a copy of its default.
    fn value(
        &self,
        alloc: Global,
        out: &mut Store<Resolved>,
        generic: u32,
        default: &Cursor<'_, Resolved>,
        actuals: &Actuals<'_>,
    ) -> Result<u32, AllocError>
        ensures within { IfOk result (λ made. made ≤ length out.new) }
        ensures extends { Extends out.old out.new }
    {
        match actuals.get(generic) {
            Some(actual) => copy_first(out, actual, 0),
            None => self.first(alloc, out, default, 0),
        }
    }

    /// The constant that stands for a generic, in front of others.
    fn constant(
        &self,
        alloc: Global,
        out: &mut Store<Resolved>,
        generic: u32,
        node: &Opened<'_, Resolved>,
        actuals: &Actuals<'_>,
        next: u32,
    ) -> Result<u32, AllocError>
        requires { next ≤ length out.old }
        ensures within { IfOk result (λ made. made ≤ length out.new) }
        ensures extends { Extends out.old out.new }
    {
        let value = self.value(alloc, out, generic, &node.parts.skip(4), actuals)?;
        let subtype = self.first(alloc, out, &node.parts.skip(3), value)?;
        let name = self.name(out, self.number(generic), node.place, 0)?;
        let names = out.add(plain(Form::IdentifierList), &[], node.place, name, subtype)?;
        let form = plain(Form::ConstantDeclaration);
        let made = out.add(form, &[], node.place, names, next)?;
        Ok(made)
    }

    /// The constants that stand for the generics of a list, in front of others, the last one first.
    fn constants(
        &self,
        alloc: Global,
        out: &mut Store<Resolved>,
        node: &Opened<'_, Resolved>,
        actuals: &Actuals<'_>,
        next: u32,
    ) -> Result<u32, AllocError>
        requires { next ≤ length out.old }
        ensures within { IfOk result (λ made. made ≤ length out.new) }
        ensures extends { Extends out.old out.new }
    {
        let mut made = next;
        let mut left = node.parts.skip(1).parts();
        while let Some(first) = left.open() {
            if let Some(generic) = number_of(&first.form.declaration) {
                made = self.constant(alloc, out, generic, node, actuals, made)?;
            }
            left = first.next;
        }
        Ok(made)
    }

    /// The subtype of which another one is, without bounds of its own.
    fn indication(
        &self,
        out: &mut Store<Resolved>,
        mark: DeclId,
        place: Place,
    ) -> Result<u32, AllocError>
        ensures within { IfOk result (λ made. made ≤ length out.new) }
        ensures extends { Extends out.old out.new }
    {
        let bounds = absent(out, place, 0)?;
        let parts = match self.declared.get(mark.number()) {
            Some(declaration) => mark_name_of(out, mark, declaration, place, bounds)?,
            None => bounds,
        };
        let made = out.add(plain(Form::SubtypeIndication), &[], place, parts, 0)?;
        Ok(made)
    }

    /// The subtype that stands for a generic, in front of others.
    fn subtype(
        &self,
        out: &mut Store<Resolved>,
        number: u32,
        mark: DeclId,
        place: Place,
        next: u32,
    ) -> Result<u32, AllocError>
        requires { next ≤ length out.old }
        ensures within { IfOk result (λ made. made ≤ length out.new) }
        ensures extends { Extends out.old out.new }
    {
        let indication = self.indication(out, mark, place)?;
        let parts = self.name(out, number, place, indication)?;
        let form = Resolved {
            declaration: Some(DeclId::of(number)),
            ..plain(Form::SubtypeDeclaration)
        };
        let made = out.add(form, &[], place, parts, next)?;
        Ok(made)
    }

    /// The subtype that stands for a type that is a generic, in front of others.
    fn actual_type(
        &self,
        out: &mut Store<Resolved>,
        node: &Opened<'_, Resolved>,
        next: u32,
    ) -> Result<u32, AllocError>
        requires { next ≤ length out.old }
        ensures within { IfOk result (λ made. made ≤ length out.new) }
        ensures extends { Extends out.old out.new }
    {
        let Some(generic) = number_at(node) else {
            return Ok(next);
        };
        let number = self.number(generic);
        match self.declared.class_of(number) {
            Class::Subtype { mark } => self.subtype(out, number, mark, node.place, next),
            _ => Ok(next),
        }
    }

    /// What stands for a generic, in front of others: constants, a subtype, or for a function nothing, since names mean its actual.
    fn generic(
        &self,
        alloc: Global,
        out: &mut Store<Resolved>,
        node: &Opened<'_, Resolved>,
        actuals: &Actuals<'_>,
        next: u32,
    ) -> Result<u32, AllocError>
        requires { next ≤ length out.old }
        ensures within { IfOk result (λ made. made ≤ length out.new) }
        ensures extends { Extends out.old out.new }
    {
        match node.form.form {
            Form::GenericConstant => self.constants(alloc, out, node, actuals, next),
            Form::GenericType => self.actual_type(out, node, next),
            _ => Ok(next),
        }
    }

    /// What stands for the generics of a clause, the last one first.
    pub(crate) fn generics(
        &self,
        alloc: Global,
        out: &mut Store<Resolved>,
        clause: &Cursor<'_, Resolved>,
        actuals: &Actuals<'_>,
    ) -> Result<u32, AllocError>
        ensures within { IfOk result (λ made. made ≤ length out.new) }
        ensures extends { Extends out.old out.new }
    {
        let mut made = 0;
        let mut left = clause.fork();
        while let Some(first) = left.open() {
            made = self.generic(alloc, out, &first, actuals, made)?;
            left = first.next;
        }
        Ok(made)
    }
}
