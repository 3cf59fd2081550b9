//! Expressions, names and maps.
#![tactic(auto, using(vd_forest::proofs::StoreLemmas::growing))]

ghost use Rattle.std.specs.Prelude.{◌≡◌, ◌≤◌, IfOk, IfSome, length};
ghost use Rattle.vd_forest.specs.Store.{Extends};
ghost use Rattle.vd_tours.specs.Tours.{IsWithin};

use crate::levels::{Head, Level, Parts, Root};
use crate::linking::is_unit;
use crate::marks::{form_by, head_by};
use crate::nodes::selection;
use crate::qualified::Candidate;
use crate::roots::root_of;
use crate::writer::Writer;
use std::alloc::AllocError;
use vd_forest::{Opened, Store};
use vd_forms::Form;
use vd_name_rows::{Step, Want};
use vd_resolved::Resolved;
use vd_tours::Entry;
use vd_visible::kinds::{Kind, kind_of};

/// An expression of the type at hand.
const OF_TYPE: Root = Root {
    want: Want::AtHand,
    parameter: None,
};

/// An expression of any type.
const FREE: Root = Root {
    want: Want::Free,
    parameter: None,
};

/// Whether nothing inside a tree is named.
fn is_plain(form: Form) -> bool {
    matches!(
        form,
        Form::Number
            | Form::Identifier
            | Form::Attribute
            | Form::RangeAttribute
            | Form::Others
            | Form::Open
            | Form::All
            | Form::Absent
    )
}

/// Whether some pieces are one.
fn is_single(out: &Store<Form>, pieces: u32) -> bool
    requires { pieces ≤ length out.now }
{
    match out.head(pieces) {
        Some(head) => head.next == 0,
        None => false,
    }
}

/// The formal that a name of one piece names.
fn formal_of(node: &Opened<'_, Resolved>) -> Option<u32> {
    if node.form.form != Form::Name {
        return None;
    }
    if let Some(id) = node.form.declaration {
        return Some(id.number());
    }
    let first = node.parts.open()?;
    if first.next.open().is_some() {
        return None;
    }
    match first.form.declaration {
        Some(id) => Some(id.number()),
        None => None,
    }
}

/// What is done with the parts of an expression.
fn parts_of(form: Form, root: Option<Root>) -> Parts {
    match form {
        Form::Name | Form::OperatorName => Parts::Pieces,
        Form::DiscreteSubtype if root.is_some() => Parts::Narrowed,
        _ => Parts::Expression,
    }
}

/// What is done with the parts of an element of a map.
fn association_of(parts: Parts) -> Parts {
    match parts {
        Parts::Ports => Parts::PortAssociation,
        _ => Parts::GenericAssociation,
    }
}

impl<'a> Writer<'a> {
    /// A tree inside an expression that is written at once, where it is one.
    fn written_at_once(
        &mut self,
        out: &mut Store<Form>,
        node: &Opened<'a, Resolved>,
    ) -> Result<Option<u32>, AllocError>
        ensures within { IfOk result (λ made. IfSome made (λ trees. trees ≤ length out.new)) }
        ensures extends { Extends out.old out.new }
    {
        match node.form.form {
            Form::Letter => Ok(Some(self.write_letter(out, node)?)),
            Form::PhysicalLiteral => Ok(Some(self.write_time(out, node)?)),
            Form::Name | Form::OperatorName => self.write_formal(out, node),
            Form::Quoted | Form::Bits => Ok(Some(self.write_literal(out, node)?)),
            form if is_plain(form) => Ok(Some(self.copied(out, node)?)),
            _ => Ok(None),
        }
    }

    /// A literal as it stands, which may be qualified.
    fn write_literal(
        &mut self,
        out: &mut Store<Form>,
        node: &Opened<'a, Resolved>,
    ) -> Result<u32, AllocError>
        ensures within { IfOk result (λ made. made ≤ length out.new) }
        ensures extends { Extends out.old out.new }
    {
        self.add_candidate(node.form.mark, true)?;
        self.copied(out, node)
    }

    /// A character literal.
    fn write_letter(
        &mut self,
        out: &mut Store<Form>,
        node: &Opened<'a, Resolved>,
    ) -> Result<u32, AllocError>
        ensures within { IfOk result (λ made. made ≤ length out.new) }
        ensures extends { Extends out.old out.new }
    {
        let Some(id) = node.form.declaration else {
            return self.write_literal(out, node);
        };
        let name = self.name_of(id.number());
        if self.is_visible(id.number(), name)? {
            return self.write_literal(out, node);
        }
        self.name_node(out, id.number(), node.place, 0)
    }

    /// A name that stands for an element or a formal, in front of `=>`.
    fn write_formal(
        &mut self,
        out: &mut Store<Form>,
        node: &Opened<'a, Resolved>,
    ) -> Result<Option<u32>, AllocError>
        ensures within { IfOk result (λ made. IfSome made (λ trees. trees ≤ length out.new)) }
        ensures extends { Extends out.old out.new }
    {
        let Some(id) = node.form.declaration else {
            return Ok(None);
        };
        self.add_candidate(None, true)?;
        let word = self.word_of(out, id.number(), node, 0)?;
        let made = out.add(Form::Name, &[], node.place, word, 0)?;
        Ok(Some(made))
    }

    /// Goes into a tree of an expression, or writes it at once.
    pub(crate) fn enter_expression(
        &mut self,
        out: &mut Store<Form>,
        node: &Opened<'a, Resolved>,
        root: Option<Root>,
    ) -> Result<Entry, AllocError>
        ensures within { IfOk result (IsWithin out.new) }
        ensures extends { Extends out.old out.new }
    {
        if root.is_some() {
            self.begin_candidates();
        }
        if let Some(made) = self.written_at_once(out, node)? {
            let trees = self.finish(out, &root, node, made)?;
            return Ok(Entry::Done(trees));
        }
        self.open_expression(node, root)?;
        Ok(Entry::Inside)
    }

    /// Goes into a tree of an expression.
    fn open_expression(
        &mut self,
        node: &Opened<'a, Resolved>,
        root: Option<Root>,
    ) -> Result<(), AllocError> {
        let candidate = match node.form.form {
            Form::Aggregate | Form::Concatenate => Some(self.add_candidate(node.form.mark, true)?),
            Form::Name => Some(self.add_candidate(None, false)?),
            _ => None,
        };
        self.go_inside(parts_of(node.form.form, root))?;
        if let Some(level) = self.levels.last_mut() {
            level.root = root;
            level.candidate = candidate;
        }
        Ok(())
    }

    /// A largest expression, by its step.
    pub(crate) fn enter_root(
        &mut self,
        out: &mut Store<Form>,
        node: &Opened<'a, Resolved>,
        step: Step,
    ) -> Result<Entry, AllocError>
        ensures within { IfOk result (IsWithin out.new) }
        ensures extends { Extends out.old out.new }
    {
        if matches!(step, Step::Selector) {
            self.selector = node.form.mark;
        }
        self.enter_expression(out, node, Some(root_of(step)))
    }

    /// The first piece of a name is written as this, and names a declaration.
    fn put_head(&mut self, head: Head, number: Option<u32>) {
        if let Some(level) = self.levels.last_mut() {
            level.head = head;
            level.number = number;
        }
    }

    /// The first piece of a name that names more than a library or a unit.
    fn write_head(
        &mut self,
        out: &mut Store<Form>,
        number: u32,
        node: &Opened<'a, Resolved>,
    ) -> Result<u32, AllocError>
        ensures within { IfOk result (λ made. made ≤ length out.new) }
        ensures extends { Extends out.old out.new }
    {
        let spelling = self.spell(number)?;
        self.put_head(head_by(&spelling, self.name_of(number)), Some(number));
        self.pieces(out, number, &spelling, node.place, 0)
    }

    /// One of the first pieces of a name: none, where it is a library or a unit in front of what it declares.
    fn first_piece(
        &mut self,
        out: &mut Store<Form>,
        node: &Opened<'a, Resolved>,
    ) -> Result<Entry, AllocError>
        ensures within { IfOk result (IsWithin out.new) }
        ensures extends { Extends out.old out.new }
    {
        match node.form.declaration {
            None => {
                self.put_head(Head::Word, None);
                Ok(Entry::Done(self.copied(out, node)?))
            }
            Some(id) if is_unit(self.class_of(id.number())) => Ok(Entry::Done(0)),
            Some(id) => Ok(Entry::Done(self.write_head(out, id.number(), node)?)),
        }
    }

    /// An element of a record behind a point.
    fn write_field(
        &mut self,
        out: &mut Store<Form>,
        node: &Opened<'a, Resolved>,
    ) -> Result<u32, AllocError>
        ensures within { IfOk result (λ made. made ≤ length out.new) }
        ensures extends { Extends out.old out.new }
    {
        match node.form.declaration {
            Some(id) => {
                let name = self.name_of(id.number());
                selection(out, name, node.place, 0)
            }
            None => self.copied(out, node),
        }
    }

    /// A piece of a name.
    fn enter_piece(
        &mut self,
        out: &mut Store<Form>,
        level: &Level,
        node: &Opened<'a, Resolved>,
    ) -> Result<Entry, AllocError>
        ensures within { IfOk result (IsWithin out.new) }
        ensures extends { Extends out.old out.new }
    {
        if level.head == Head::Missing {
            return self.first_piece(out, node);
        }
        match node.form.form {
            Form::Selection => Ok(Entry::Done(self.write_field(out, node)?)),
            _ => self.enter_expression(out, node, None),
        }
    }

    /// Goes into the choices of an association of a port map, where the ports of the entity are looked up first.
    fn enter_front(&mut self, is_ports: bool) -> Result<(), AllocError> {
        self.go_inside(Parts::Front)?;
        if is_ports {
            self.at.ports = self.inside_of(self.entity);
        }
        Ok(())
    }

    /// What stands in front of `=>` in a map: the word of a formal, or a conversion of a port.
    fn enter_formal(
        &mut self,
        out: &mut Store<Form>,
        node: &Opened<'a, Resolved>,
    ) -> Result<Entry, AllocError>
        ensures within { IfOk result (IsWithin out.new) }
        ensures extends { Extends out.old out.new }
    {
        match formal_of(node) {
            Some(number) => {
                let word = self.word_of(out, number, node, 0)?;
                let made = out.add(Form::Name, &[], node.place, word, 0)?;
                Ok(Entry::Done(made))
            }
            None => self.enter_expression(out, node, Some(FREE)),
        }
    }

    /// A part of an association of a map: what stands in front of `=>`, or its actual.
    fn enter_actual(
        &mut self,
        out: &mut Store<Form>,
        level: &Level,
        node: &Opened<'a, Resolved>,
    ) -> Result<Entry, AllocError>
        ensures within { IfOk result (IsWithin out.new) }
        ensures extends { Extends out.old out.new }
    {
        if node.form.form == Form::AssociationChoices {
            self.enter_front(level.parts == Parts::PortAssociation)?;
            return Ok(Entry::Inside);
        }
        self.enter_expression(out, node, Some(OF_TYPE))
    }

    /// An element of a map.
    fn enter_element(
        &mut self,
        out: &mut Store<Form>,
        level: &Level,
        node: &Opened<'a, Resolved>,
    ) -> Result<Entry, AllocError>
        ensures within { IfOk result (IsWithin out.new) }
        ensures extends { Extends out.old out.new }
    {
        if node.form.form == Form::Association {
            self.go_inside(association_of(level.parts))?;
            return Ok(Entry::Inside);
        }
        self.enter_expression(out, node, Some(OF_TYPE))
    }

    /// A part of a mark with a range.
    fn enter_narrowed(
        &mut self,
        out: &mut Store<Form>,
        level: &Level,
        node: &Opened<'a, Resolved>,
    ) -> Result<Entry, AllocError>
        ensures within { IfOk result (IsWithin out.new) }
        ensures extends { Extends out.old out.new }
    {
        if level.next == 0 {
            return self.enter_expression(out, node, None);
        }
        self.go_inside(Parts::Bounds)?;
        Ok(Entry::Inside)
    }

    /// A part of what has no steps.
    pub(crate) fn enter_part(
        &mut self,
        out: &mut Store<Form>,
        level: &Level,
        node: &Opened<'a, Resolved>,
    ) -> Result<Entry, AllocError>
        ensures within { IfOk result (IsWithin out.new) }
        ensures extends { Extends out.old out.new }
    {
        match level.parts {
            Parts::Pieces => self.enter_piece(out, level, node),
            Parts::Narrowed => self.enter_narrowed(out, level, node),
            Parts::Bounds => self.enter_expression(out, node, Some(OF_TYPE)),
            Parts::Generics | Parts::Ports => self.enter_element(out, level, node),
            Parts::GenericAssociation | Parts::PortAssociation => {
                self.enter_actual(out, level, node)
            }
            Parts::Front => self.enter_formal(out, node),
            _ => self.enter_expression(out, node, None),
        }
    }

    /// A name whose pieces are written.
    fn leave_name(
        &mut self,
        out: &mut Store<Form>,
        level: &Level,
        node: &Opened<'a, Resolved>,
        pieces: u32,
    ) -> Result<u32, AllocError>
        requires { pieces ≤ length out.old }
        ensures within { IfOk result (λ made. made ≤ length out.new) }
        ensures extends { Extends out.old out.new }
    {
        self.note_name(level, node, is_single(out, pieces));
        if level.head == Head::Letter {
            return Ok(pieces);
        }
        out.add(form_by(level.head), &[], node.place, pieces, 0)
    }

    /// Notes whether a name is written as one piece, and whether it may be qualified.
    fn note_name(&mut self, level: &Level, node: &Opened<'a, Resolved>, is_single: bool) {
        let mark = match level.number {
            Some(number) if self.is_value(number) => self.mark_of_value(number, node.form.mark),
            _ => None,
        };
        let candidate = Candidate {
            mark,
            own: self.linked_type(node.form.mark),
            is_written: is_single && level.head != Head::Symbol,
        };
        self.put_candidate(level.candidate, candidate);
    }

    /// A tree of an expression whose parts are written.
    fn leave_expression(
        &mut self,
        out: &mut Store<Form>,
        level: &Level,
        node: &Opened<'a, Resolved>,
        parts: u32,
    ) -> Result<u32, AllocError>
        requires { parts ≤ length out.old }
        ensures within { IfOk result (λ made. made ≤ length out.new) }
        ensures extends { Extends out.old out.new }
    {
        if level.parts == Parts::Pieces {
            return self.leave_name(out, level, node, parts);
        }
        match kind_of(node.form.form) {
            Kind::Operator => self.leave_operator(out, level, node, parts),
            _ => out.add(node.form.form, node.text, node.place, parts, 0),
        }
    }

    /// What has no steps, and its parts are written.
    pub(crate) fn leave_part(
        &mut self,
        out: &mut Store<Form>,
        level: &Level,
        node: &Opened<'a, Resolved>,
        parts: u32,
    ) -> Result<u32, AllocError>
        requires { parts ≤ length out.old }
        ensures within { IfOk result (λ made. made ≤ length out.new) }
        ensures extends { Extends out.old out.new }
    {
        if level.parts == Parts::Front {
            self.at.ports = None;
        }
        let made = self.leave_expression(out, level, node, parts)?;
        self.finish(out, &level.root, node, made)
    }
}
