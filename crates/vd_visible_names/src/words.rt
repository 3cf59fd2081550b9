//! Words, names that are declared, labels and closing names.
#![tactic(auto, using(vd_forest::proofs::StoreLemmas::growing))]

ghost use Rattle.std.specs.Prelude.{◌≡◌, ◌≤◌, IfOk, length};
ghost use Rattle.vd_forest.specs.Store.{Extends};

use crate::nodes::leaf;
use crate::writer::Writer;
use std::alloc::AllocError;
use vd_declarations::Class;
use vd_forest::{Cursor, Opened, Store};
use vd_forms::Form;
use vd_resolved::Resolved;

/// Whether a tree is a word with a text.
fn is_word(form: Form) -> bool {
    matches!(form, Form::Identifier | Form::Letter | Form::Quoted)
}

/// Whether a tree is a word that may close something by its name.
fn is_closing(form: Form) -> bool {
    matches!(form, Form::Identifier | Form::Quoted)
}

/// The node of a tree that has no parts.
fn alone(out: &mut Store<Form>, node: &Opened<'_, Resolved>) -> Result<u32, AllocError>
    ensures within { IfOk result (λ made. made ≤ length out.new) }
    ensures extends { Extends out.old out.new }
{
    out.add(node.form.form, node.text, node.place, 0, 0)
}

/// The nodes of some trees that have no parts, one by one.
fn all_alone(out: &mut Store<Form>, trees: &Cursor<'_, Resolved>) -> Result<u32, AllocError>
    ensures within { IfOk result (λ made. made ≤ length out.new) }
    ensures extends { Extends out.old out.new }
{
    let mut made = 0;
    let mut left = trees.fork();
    while let Some(node) = left.open() {
        made = out.add(node.form.form, node.text, node.place, 0, made)?;
        left = node.next;
    }
    out.turn(made, 0)
}

impl<'a> Writer<'a> {
    /// A tree as it stands, which has nothing or words inside.
    pub(crate) fn copied(
        &mut self,
        out: &mut Store<Form>,
        node: &Opened<'a, Resolved>,
    ) -> Result<u32, AllocError>
        ensures within { IfOk result (λ made. made ≤ length out.new) }
        ensures extends { Extends out.old out.new }
    {
        let parts = all_alone(out, &node.parts)?;
        out.add(node.form.form, node.text, node.place, parts, 0)
    }

    /// The name of a declaration as one word, where a tree stands.
    pub(crate) fn word_of(
        &mut self,
        out: &mut Store<Form>,
        number: u32,
        node: &Opened<'a, Resolved>,
        next: u32,
    ) -> Result<u32, AllocError>
        requires { next ≤ length out.old }
        ensures within { IfOk result (λ made. made ≤ length out.new) }
        ensures extends { Extends out.old out.new }
    {
        let name = self.name_of(number);
        leaf(out, name, node.place, next)
    }

    /// A word that is the name of a declaration, where it is known.
    fn word_or_copy(
        &mut self,
        out: &mut Store<Form>,
        number: Option<u32>,
        node: &Opened<'a, Resolved>,
    ) -> Result<u32, AllocError>
        ensures within { IfOk result (λ made. made ≤ length out.new) }
        ensures extends { Extends out.old out.new }
    {
        match number {
            Some(number) if is_word(node.form.form) => self.word_of(out, number, node, 0),
            _ => alone(out, node),
        }
    }

    /// The name of what the tree round it declares.
    pub(crate) fn write_word(
        &mut self,
        out: &mut Store<Form>,
        own: Option<u32>,
        node: &Opened<'a, Resolved>,
    ) -> Result<u32, AllocError>
        ensures within { IfOk result (λ made. made ≤ length out.new) }
        ensures extends { Extends out.old out.new }
    {
        let number = match node.form.declaration {
            Some(id) => Some(id.number()),
            None => own,
        };
        self.word_or_copy(out, number, node)
    }

    /// A word that declares nothing: a closing name, the name of a loop, or any other word.
    pub(crate) fn write_other_word(
        &mut self,
        out: &mut Store<Form>,
        node: &Opened<'a, Resolved>,
    ) -> Result<u32, AllocError>
        ensures within { IfOk result (λ made. made ≤ length out.new) }
        ensures extends { Extends out.old out.new }
    {
        let closed = if is_closing(node.form.form) {
            self.closed()
        } else {
            None
        };
        self.write_word(out, closed, node)
    }

    /// The names of a list.
    pub(crate) fn write_names(
        &mut self,
        out: &mut Store<Form>,
        node: &Opened<'a, Resolved>,
    ) -> Result<u32, AllocError>
        ensures within { IfOk result (λ made. made ≤ length out.new) }
        ensures extends { Extends out.old out.new }
    {
        let turned = self.turned_names(out, &node.parts)?;
        let parts = out.turn(turned, 0)?;
        out.add(node.form.form, &[], node.place, parts, 0)
    }

    /// One of the names of a list, in front of others.
    fn name_in_list(
        &mut self,
        out: &mut Store<Form>,
        node: &Opened<'a, Resolved>,
        next: u32,
    ) -> Result<u32, AllocError>
        requires { next ≤ length out.old }
        ensures within { IfOk result (λ made. made ≤ length out.new) }
        ensures extends { Extends out.old out.new }
    {
        match node.form.declaration {
            Some(id) => self.word_of(out, id.number(), node, next),
            None => out.add(node.form.form, node.text, node.place, 0, next),
        }
    }

    /// The names of a list, the last one first.
    fn turned_names(
        &mut self,
        out: &mut Store<Form>,
        list: &Cursor<'a, Resolved>,
    ) -> Result<u32, AllocError>
        ensures within { IfOk result (λ made. made ≤ length out.new) }
        ensures extends { Extends out.old out.new }
    {
        let mut made = 0;
        let mut left = list.fork();
        while let Some(node) = left.open() {
            made = self.name_in_list(out, &node, made)?;
            left = node.next;
        }
        Ok(made)
    }

    /// A label, which is declared where it stands.
    pub(crate) fn write_label(
        &mut self,
        out: &mut Store<Form>,
        node: &Opened<'a, Resolved>,
    ) -> Result<u32, AllocError>
        ensures within { IfOk result (λ made. made ≤ length out.new) }
        ensures extends { Extends out.old out.new }
    {
        if let Some(id) = node.form.declaration {
            let region = self.at.region;
            self.enter_plain(id.number(), region, Class::Label, None)?;
        }
        self.write_word(out, None, node)
    }
}
