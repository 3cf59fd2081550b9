//! Copies of expressions in which some parts are qualified.
#![tactic(auto, using(vd_forest::proofs::StoreLemmas::growing))]

ghost use Rattle.std.specs.Prelude.{◌≡◌, ◌≤◌, IfOk, length};
ghost use Rattle.vd_forest.specs.Store.{Extends};
ghost use Rattle.vd_tours.specs.Tours.{IsWithin};

use crate::apart::MARKED;
use crate::marks::plain_pieces;
use crate::spellings::Spelling;
use std::alloc::{AllocError, Global};
use vd_forest::{Cursor, Opened, Store};
use vd_forms::Form;
use vd_tours::{Entry, Touring, tour};

/// A part that is qualified: how its mark is written.
#[derive(Clone, Copy)]
pub(crate) struct Settled<'a> {
    pub(crate) spelling: Spelling<'a>,
    pub(crate) name: &'a [u8],
}

/// A copy that is being made: the parts that may be qualified, in the order of the text, and which of them is marked.
#[derive(Drop)]
struct Copying<'s> {
    alloc: Global,
    parts: &'s [Option<Settled<'s>>],
    marked: Option<usize>,
    /// The number of the part that comes next.
    next: usize,
    /// Whether the tree that comes next is the first piece of a name, or the word behind a point.
    is_piece: bool,
    /// The number of each tree that is open, where it is such a part.
    open: Vec<Option<usize>>,
}

/// Whether a tree is a literal that may be qualified.
fn is_literal(form: Form) -> bool {
    matches!(form, Form::Quoted | Form::Letter | Form::Bits)
}

/// Whether a tree is a name with one piece.
fn is_single(node: &Opened<'_, Form>) -> bool {
    node.form == Form::Name && node.parts.next().open().is_none()
}

/// Whether a tree with parts may be qualified.
fn is_part(node: &Opened<'_, Form>) -> bool {
    matches!(node.form, Form::Aggregate | Form::Concatenate) || is_single(node)
}

/// Whether the first tree inside another is the word of a name.
fn begins_with_piece(form: Form) -> bool {
    matches!(form, Form::Name | Form::OperatorName | Form::Selection)
}

/// A text with the byte in front of it that marks a part.
fn marked_text(alloc: Global, text: &[u8]) -> Result<Vec<u8>, AllocError> {
    let mut marked = Vec::new(alloc);
    marked.push(MARKED)?;
    marked.extend_from_slice(text)?;
    Ok(marked)
}

/// A tree, as a qualified expression. The elements of an aggregate stand in its brackets.
fn qualified(
    out: &mut Store<Form>,
    settled: &Settled<'_>,
    node: &Opened<'_, Form>,
    parts: u32,
) -> Result<u32, AllocError>
    requires { parts ≤ length out.old }
    ensures within { IfOk result (λ made. made ≤ length out.new) }
    ensures extends { Extends out.old out.new }
{
    let inside = match node.form {
        Form::Aggregate => parts,
        form => out.add(form, node.text, node.place, parts, 0)?,
    };
    let brackets = out.add(Form::Qualification, &[], node.place, inside, 0)?;
    let pieces = plain_pieces(out, &settled.spelling, settled.name, node.place, brackets)?;
    out.add(Form::Name, &[], node.place, pieces, 0)
}

impl<'s> Copying<'s> {
    /// The number of the next part.
    fn count(&mut self) -> usize {
        let number = self.next;
        self.next = number.saturating_add(1);
        number
    }

    /// A tree with these parts, marked.
    fn marked_node(
        &mut self,
        out: &mut Store<Form>,
        node: &Opened<'_, Form>,
        parts: u32,
    ) -> Result<u32, AllocError>
        requires { parts ≤ length out.old }
        ensures within { IfOk result (λ made. made ≤ length out.new) }
        ensures extends { Extends out.old out.new }
    {
        let text = marked_text(self.alloc, node.text)?;
        out.add(node.form, text.as_slice(), node.place, parts, 0)
    }

    /// The part of a number: qualified, marked, or as it stands.
    fn part(
        &mut self,
        out: &mut Store<Form>,
        number: usize,
        node: &Opened<'_, Form>,
        parts: u32,
    ) -> Result<u32, AllocError>
        requires { parts ≤ length out.old }
        ensures within { IfOk result (λ made. made ≤ length out.new) }
        ensures extends { Extends out.old out.new }
    {
        if self.marked == Some(number) {
            return self.marked_node(out, node, parts);
        }
        match self.parts.get(number) {
            Some(Some(settled)) => qualified(out, settled, node, parts),
            _ => out.add(node.form, node.text, node.place, parts, 0),
        }
    }

    /// Notes that the copy goes into a tree.
    fn go_inside(&mut self, node: &Opened<'_, Form>) -> Result<(), AllocError> {
        let number = if is_part(node) {
            Some(self.count())
        } else {
            None
        };
        self.open.push(number)?;
        self.is_piece = begins_with_piece(node.form);
        Ok(())
    }

    /// A literal, which may be qualified.
    fn literal(&mut self, out: &mut Store<Form>, node: &Opened<'_, Form>) -> Result<u32, AllocError>
        ensures within { IfOk result (λ made. made ≤ length out.new) }
        ensures extends { Extends out.old out.new }
    {
        let number = self.count();
        self.part(out, number, node, 0)
    }
}

impl<'a, 's> Touring<'a, Form, Form> for Copying<'s> {
    ghost knows = { λ _ _ _. Unit {0} };

    ghost Frame = { Unit {0} };

    ghost frame = { λ _. tt };

    ghost replaces = { λ _ _ _ _. Unit {0} };

    ghost becomes = { λ _ _ _ _ _. Unit {0} };

    fn enter(
        &mut self,
        _alloc: Global,
        out: &mut Store<Form>,
        node: &Opened<'a, Form>,
    ) -> Result<Entry, AllocError> {
        if self.is_piece {
            self.is_piece = false;
            let made = out.add(node.form, node.text, node.place, 0, 0)?;
            return Ok(Entry::Done(made));
        }
        if is_literal(node.form) {
            return Ok(Entry::Done(self.literal(out, node)?));
        }
        self.go_inside(node)?;
        Ok(Entry::Inside)
    }

    fn leave(
        &mut self,
        _alloc: Global,
        out: &mut Store<Form>,
        node: &Opened<'a, Form>,
        parts: u32,
    ) -> Result<u32, AllocError> {
        self.is_piece = false;
        match self.open.pop() {
            Some(Some(number)) => self.part(out, number, node, parts),
            _ => out.add(node.form, node.text, node.place, parts, 0),
        }
    }
}

/// A copy of an expression in which some parts are qualified, and one is marked.
pub(crate) fn copy_with(
    alloc: Global,
    tree: &Cursor<'_, Form>,
    parts: &[Option<Settled<'_>>],
    marked: Option<usize>,
    out: &mut Store<Form>,
) -> Result<u32, AllocError>
    ensures within { IfOk result (λ made. made ≤ length out.new) }
    ensures extends { Extends out.old out.new }
{
    let mut copying = Copying {
        alloc,
        parts,
        marked,
        next: 0,
        is_piece: false,
        open: Vec::new(alloc),
    };
    tour(alloc, tree, out, &mut copying)
}
