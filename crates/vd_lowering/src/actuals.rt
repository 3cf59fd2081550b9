//! Signals that stand for the expressions of port maps. (IEEE 1076-2019, 6.5.6.3 and 6.5.7.3: an actual that is an expression and isn't static is
//! associated with a port by an implicit signal, to which a concurrent assignment assigns it)
//!
//! At an element of a port map with such a note the signal's name takes the place of the expression. The assignment stands in front of the instance,
//! and the signal behind the other declarations of the body that has it, with the subtype of the port.

ghost use Rattle.std.specs.Prelude.{◌≤◌, IfOk, length};
ghost use Rattle.vd_forest.specs.Store.{Extends};

use crate::indications::{Indications, name_generics};
use std::alloc::{AllocError, Global};
use vd_bytes::Place;
use vd_declarations::{DeclId, Declaration};
use vd_forest::{Cursor, Opened, Store};
use vd_forms::{Form, is_expression};
use vd_notes::{Note, Noted, absent, name_of, word};
use vd_operations::tables::name_of as declared_name;
use vd_resolved::Resolved;
use vd_tours::{Entry, Touring, tour};

/// The table of the pass: the declarations of the design, and the subtypes of its ports.
#[derive(Drop)]
struct Actuals<'a> {
    declarations: &'a [Declaration],
    indications: Indications<'a>,
}

/// A node that names nothing, has no type and no note.
fn plain(form: Form) -> Noted {
    Noted {
        node: Resolved {
            form,
            declaration: None,
            mark: None,
            position: 0,
        },
        note: Note::Nothing,
    }
}

/// The signal that a note says.
fn signal_of(note: Note) -> Option<DeclId> {
    match note {
        Note::Implicit { signal } => Some(DeclId::of(signal)),
        _ => None,
    }
}

/// The parts of the first tree, or none.
fn parts_at(out: &Store<Noted>, number: u32) -> u32
    requires { number ≤ length out.now }
    ensures { result ≤ length out.now }
{
    match out.head(number) {
        Some(head) => head.parts,
        None => 0,
    }
}

/// The trees behind the first one, where there is one.
fn behind(out: &Store<Noted>, number: u32) -> u32
    requires { number ≤ length out.now }
    ensures { result ≤ length out.now }
{
    if number == 0 { 0 } else { out.after(number) }
}

/// The form of the first tree.
fn form_at(out: &Store<Noted>, number: u32) -> Form
    requires { number ≤ length out.now }
{
    match out.head(number) {
        Some(head) => head.form.node.form,
        None => Form::Absent,
    }
}

/// The place of the first tree.
fn place_at(out: &Store<Noted>, number: u32) -> Place
    requires { number ≤ length out.now }
{
    match out.head(number) {
        Some(head) => head.place,
        None => Place {
            file: 0,
            line: 1,
            column: 1,
        },
    }
}

/// What the first tree means.
fn meant_at(out: &Store<Noted>, number: u32) -> Option<DeclId>
    requires { number ≤ length out.now }
{
    match out.head(number) {
        Some(head) => head.form.node.declaration,
        None => None,
    }
}

/// The port of an element of a map by name.
fn port_of(out: &Store<Noted>, element: u32) -> Option<u32>
    requires { element ≤ length out.now }
{
    let choices = parts_at(out, element);
    let formal = parts_at(out, choices);
    match meant_at(out, formal) {
        Some(number) => Some(number.number()),
        None => None,
    }
}

/// The node of the first tree with other parts, in front of other trees.
fn again(out: &mut Store<Noted>, number: u32, parts: u32, next: u32) -> Result<u32, AllocError>
    requires number_in { number ≤ length out.old }
    requires parts_in { parts ≤ length out.old }
    requires next_in { next ≤ length out.old }
    ensures within { IfOk result (λ made. made ≤ length out.new) }
    ensures extends { Extends out.old out.new }
{
    let Some(head) = out.head(number) else {
        return Ok(next);
    };
    let (form, place) = (head.form, head.place);
    let made = out.add(form, &[], place, parts, next)?;
    Ok(made)
}

/// A tree in front of others, where there is one.
fn in_front(out: &mut Store<Noted>, tree: u32, rest: u32) -> Result<u32, AllocError>
    requires tree_in { tree ≤ length out.old }
    requires rest_in { rest ≤ length out.old }
    ensures within { IfOk result (λ made. made ≤ length out.new) }
    ensures extends { Extends out.old out.new }
{
    if tree == 0 {
        return Ok(rest);
    }
    let made = out.relink(tree, rest)?;
    Ok(made)
}

/// An element of a port map, and the assignment of its expression to a signal, or none. Of all elements of one it is their list, and the assignments, the
/// last one first.
#[derive(Clone, Copy)]
struct Parted {
    elements: u32,
    assignments: u32,
}

/// An expression, without brackets that it stands in alone: an actual that stands in brackets is an expression and no name.
fn without_brackets(out: &Store<Noted>, actual: u32) -> u32
    requires { actual ≤ length out.now }
    ensures { result ≤ length out.now }
{
    let inside = parts_at(out, actual);
    let is_alone = behind(out, inside) == 0 && is_expression(form_at(out, inside));
    if matches!(form_at(out, actual), Form::Aggregate) && is_alone {
        inside
    } else {
        actual
    }
}

/// An element `port => expression` as `port => signal`, and `signal <= expression`.
fn taken_apart(
    out: &mut Store<Noted>,
    signal: DeclId,
    declaration: &Declaration,
    element: u32,
) -> Result<Parted, AllocError>
    requires { element ≤ length out.old }
    ensures elements { IfOk result (λ made. made.elements ≤ length out.new) }
    ensures assignments { IfOk result (λ made. made.assignments ≤ length out.new) }
    ensures extends { Extends out.old out.new }
{
    let choices = parts_at(out, element);
    let actual = behind(out, choices);
    let place = place_at(out, element);
    let expression = without_brackets(out, actual);
    let expression = out.relink(expression, 0)?;
    let delay = absent(out, place, expression)?;
    let target = name_of(out, signal, declaration, place, delay)?;
    let assignments = out.add(plain(Form::ConcurrentAssignment), &[], place, target, 0)?;
    let name = name_of(out, signal, declaration, place, 0)?;
    let choices = out.relink(choices, name)?;
    let elements = again(out, element, choices, 0)?;
    Ok(Parted {
        elements,
        assignments,
    })
}

/// The tree of a port map behind the parts of an instance, or none.
fn port_map_of(out: &Store<Noted>, statement: u32) -> u32
    requires { statement ≤ length out.now }
    ensures { result ≤ length out.now }
{
    let instance = behind(out, parts_at(out, statement));
    if !matches!(form_at(out, instance), Form::EntityInstantiation) {
        return 0;
    }
    let architecture = behind(out, parts_at(out, instance));
    let generic_map = behind(out, architecture);
    behind(out, generic_map)
}

/// An instance with another port map: its entity, its architecture, its generic map, and this.
fn with_map(out: &mut Store<Noted>, labelled: u32, map: u32) -> Result<u32, AllocError>
    requires labelled_in { labelled ≤ length out.old }
    requires map_in { map ≤ length out.old }
    ensures within { IfOk result (λ made. made ≤ length out.new) }
    ensures extends { Extends out.old out.new }
{
    let label = parts_at(out, labelled);
    let instance = behind(out, label);
    let entity = parts_at(out, instance);
    let architecture = behind(out, entity);
    let generic_map = behind(out, architecture);
    let made = in_front(out, generic_map, map)?;
    let made = in_front(out, architecture, made)?;
    let made = in_front(out, entity, made)?;
    let made = again(out, instance, made, 0)?;
    let made = in_front(out, label, made)?;
    let made = again(out, labelled, made, 0)?;
    Ok(made)
}

/// The declaration of a signal with a subtype, in front of others.
fn declared(
    out: &mut Store<Noted>,
    signal: DeclId,
    name: &[u8],
    indication: &Opened<'_, Noted>,
    rest: u32,
) -> Result<u32, AllocError>
    requires { rest ≤ length out.old }
    ensures within { IfOk result (λ made. made ≤ length out.new) }
    ensures extends { Extends out.old out.new }
{
    let place = indication.place;
    let parts = out.copy(&indication.parts)?;
    let default = absent(out, place, 0)?;
    let subtype = out.add(indication.form, indication.text, place, parts, default)?;
    let names = word(out, name, Some(signal), None, place, 0)?;
    let names = out.add(plain(Form::IdentifierList), &[], place, names, subtype)?;
    let made = out.add(plain(Form::SignalDeclaration), &[], place, names, rest)?;
    Ok(made)
}

impl<'a> Actuals<'a> {
    /// The declaration of a number.
    fn declared(&self, number: DeclId) -> Option<&'a Declaration> {
        self.declarations.get(number.number() as usize)
    }

    /// Whether a signal of a port's subtype can be declared where its instance is: the subtype names no generic of the entity.
    fn is_plain(&self, alloc: Global, port: u32) -> Result<bool, AllocError> {
        match self.indications.indication(port) {
            Some(indication) => {
                let named = name_generics(alloc, self.declarations, &indication.parts())?;
                Ok(!named)
            }
            None => Ok(false),
        }
    }

    /// The signal that stands for the actual of an element, where one does.
    fn signal_at(
        &self,
        alloc: Global,
        out: &Store<Noted>,
        element: u32,
    ) -> Result<Option<DeclId>, AllocError>
        requires { element ≤ length out.now }
    {
        let Some(head) = out.head(element) else {
            return Ok(None);
        };
        let Some(port) = port_of(out, element) else {
            return Ok(None);
        };
        if self.is_plain(alloc, port)? {
            Ok(signal_of(head.form.note))
        } else {
            Ok(None)
        }
    }

    /// An element, and the assignment of its expression.
    fn part_if(
        &self,
        alloc: Global,
        out: &mut Store<Noted>,
        element: u32,
    ) -> Result<Parted, AllocError>
        requires { element ≤ length out.old }
        ensures elements { IfOk result (λ made. made.elements ≤ length out.new) }
        ensures assignments { IfOk result (λ made. made.assignments ≤ length out.new) }
        ensures extends { Extends out.old out.new }
    {
        let kept = Parted {
            elements: element,
            assignments: 0,
        };
        let Some(signal) = self.signal_at(alloc, out, element)? else {
            return Ok(kept);
        };
        match self.declared(signal) {
            Some(declaration) => taken_apart(out, signal, declaration, element),
            None => Ok(kept),
        }
    }

    /// The elements of a port map.
    fn all_parted(
        &self,
        alloc: Global,
        out: &mut Store<Noted>,
        elements: u32,
    ) -> Result<Parted, AllocError>
        requires { elements ≤ length out.old }
        ensures elements { IfOk result (λ made. made.elements ≤ length out.new) }
        ensures assignments { IfOk result (λ made. made.assignments ≤ length out.new) }
        ensures extends { Extends out.old out.new }
    {
        let mut left = elements;
        let mut back = 0;
        let mut assignments = 0;
        while left > 0 {
            let parted = self.part_if(alloc, out, left)?;
            back = in_front(out, parted.elements, back)?;
            assignments = in_front(out, parted.assignments, assignments)?;
            left = out.after(left);
        }
        let elements = out.turn(back, 0)?;
        Ok(Parted {
            elements,
            assignments,
        })
    }

    /// A statement with its label, and in front of it the assignments to the signals of its port map.
    fn statement(
        &self,
        alloc: Global,
        out: &mut Store<Noted>,
        labelled: u32,
    ) -> Result<u32, AllocError>
        requires { labelled ≤ length out.old }
        ensures within { IfOk result (λ made. made ≤ length out.new) }
        ensures extends { Extends out.old out.new }
    {
        let port_map = port_map_of(out, labelled);
        let parted = self.all_parted(alloc, out, parts_at(out, port_map))?;
        if parted.assignments == 0 {
            return Ok(labelled);
        }
        let map = again(out, port_map, parted.elements, 0)?;
        let made = with_map(out, labelled, map)?;
        let made = out.turn(parted.assignments, made)?;
        Ok(made)
    }

    /// The declaration of the signal of an element in front of others, where there is one.
    fn declare(
        &self,
        alloc: Global,
        out: &mut Store<Noted>,
        element: u32,
        rest: u32,
    ) -> Result<u32, AllocError>
        requires element_in { element ≤ length out.old }
        requires rest_in { rest ≤ length out.old }
        ensures within { IfOk result (λ made. made ≤ length out.new) }
        ensures extends { Extends out.old out.new }
    {
        let Some(signal) = self.signal_at(alloc, out, element)? else {
            return Ok(rest);
        };
        match self.indication_of(out, element) {
            Some(indication) => {
                let name = declared_name(self.declarations, signal.number());
                declared(out, signal, name, &indication, rest)
            }
            None => Ok(rest),
        }
    }

    /// The subtype of the port of an element.
    fn indication_of(&self, out: &Store<Noted>, element: u32) -> Option<Opened<'a, Noted>>
        requires { element ≤ length out.now }
    {
        match port_of(out, element) {
            Some(port) => self.indications.opened(port),
            None => None,
        }
    }

    /// The declarations of the signals of a port map in front of others, the last one first.
    fn declare_elements(
        &self,
        alloc: Global,
        out: &mut Store<Noted>,
        elements: u32,
        rest: u32,
    ) -> Result<u32, AllocError>
        requires elements_in { elements ≤ length out.old }
        requires rest_in { rest ≤ length out.old }
        ensures within { IfOk result (λ made. made ≤ length out.new) }
        ensures extends { Extends out.old out.new }
    {
        let mut left = elements;
        let mut made = rest;
        while left > 0 {
            made = self.declare(alloc, out, left, made)?;
            left = out.after(left);
        }
        Ok(made)
    }

    /// The declarations of the signals of some statements in front of others, the last one first.
    fn declare_all(
        &self,
        alloc: Global,
        out: &mut Store<Noted>,
        statements: u32,
        rest: u32,
    ) -> Result<u32, AllocError>
        requires statements_in { statements ≤ length out.old }
        requires rest_in { rest ≤ length out.old }
        ensures within { IfOk result (λ made. made ≤ length out.new) }
        ensures extends { Extends out.old out.new }
    {
        let mut left = statements;
        let mut made = rest;
        while left > 0 {
            let port_map = port_map_of(out, left);
            let elements = parts_at(out, port_map);
            made = self.declare_elements(alloc, out, elements, made)?;
            left = out.after(left);
        }
        Ok(made)
    }

    /// A declarative part with the signals of some statements behind its declarations.
    fn declarative_part(
        &self,
        alloc: Global,
        out: &mut Store<Noted>,
        part: u32,
        statements: u32,
    ) -> Result<u32, AllocError>
        requires part_in { part ≤ length out.old }
        requires statements_in { statements ≤ length out.old }
        ensures within { IfOk result (λ made. made ≤ length out.new) }
        ensures extends { Extends out.old out.new }
    {
        let next = behind(out, part);
        let back = out.turn(parts_at(out, part), 0)?;
        let made = self.declare_all(alloc, out, statements, back)?;
        if made == back {
            return Ok(part);
        }
        let place = place_at(out, part);
        let declarations = out.turn(made, 0)?;
        let made = out.add(plain(Form::DeclarativePart), &[], place, declarations, next)?;
        Ok(made)
    }

    /// The parts of an architecture: its name, its entity, its declarations, its statements, and its end.
    fn architecture(
        &self,
        alloc: Global,
        out: &mut Store<Noted>,
        parts: u32,
    ) -> Result<u32, AllocError>
        requires { parts ≤ length out.old }
        ensures within { IfOk result (λ made. made ≤ length out.new) }
        ensures extends { Extends out.old out.new }
    {
        let entity = behind(out, parts);
        let part = behind(out, entity);
        let statements = parts_at(out, behind(out, part));
        let made = self.declarative_part(alloc, out, part, statements)?;
        let made = in_front(out, entity, made)?;
        let made = in_front(out, parts, made)?;
        Ok(made)
    }

    /// The parts of a node.
    fn parts(
        &self,
        alloc: Global,
        out: &mut Store<Noted>,
        form: Form,
        parts: u32,
    ) -> Result<u32, AllocError>
        requires { parts ≤ length out.old }
        ensures within { IfOk result (λ made. made ≤ length out.new) }
        ensures extends { Extends out.old out.new }
    {
        match form {
            Form::ArchitectureBody => self.architecture(alloc, out, parts),
            Form::GenerateBody => {
                let statements = behind(out, parts);
                self.declarative_part(alloc, out, parts, statements)
            }
            _ => Ok(parts),
        }
    }

    /// What a tree becomes.
    fn trees(
        &self,
        alloc: Global,
        out: &mut Store<Noted>,
        form: Form,
        made: u32,
    ) -> Result<u32, AllocError>
        requires { made ≤ length out.old }
        ensures within { IfOk result (λ made. made ≤ length out.new) }
        ensures extends { Extends out.old out.new }
    {
        match form {
            Form::LabelledConcurrent => self.statement(alloc, out, made),
            _ => Ok(made),
        }
    }
}

impl<'a> Touring<'a, Noted, Noted> for Actuals<'a> {
    ghost knows = { λ _ _ _. Unit {0} };

    ghost Frame = { Unit {0} };

    ghost frame = { λ _. tt };

    ghost replaces = { λ _ _ _ _. Unit {0} };

    ghost becomes = { λ _ _ _ _ _. Unit {0} };

    fn enter(
        &mut self,
        _alloc: Global,
        _out: &mut Store<Noted>,
        _node: &Opened<'a, Noted>,
    ) -> Result<Entry, AllocError> {
        Ok(Entry::Inside)
    }

    fn leave(
        &mut self,
        alloc: Global,
        out: &mut Store<Noted>,
        node: &Opened<'a, Noted>,
        parts: u32,
    ) -> Result<u32, AllocError> {
        let form = node.form.node.form;
        let parts = self.parts(alloc, out, form, parts)?;
        let made = out.add(node.form, node.text, node.place, parts, 0)?;
        self.trees(alloc, out, form, made)
    }
}

/// Writes signals for the expressions of port maps that have a note of one, where the subtype of the port names no generic. Port maps are by name. The
/// only error is that memory ran out.
#[tactic(auto, using(vd_statements::proofs::TourLemmas::at_start_noted))]
pub fn lower_actuals<'a>(
    alloc: Global,
    declarations: &'a [Declaration],
    from: &Cursor<'a, Noted>,
    out: &mut Store<Noted>,
) -> Result<u32, AllocError>
    ensures within { IfOk result (λ made. made ≤ length out.new) }
    ensures extends { Extends out.old out.new }
{
    let indications = Indications::of(alloc, declarations.len(), from)?;
    let mut pass = Actuals {
        declarations,
        indications,
    };
    tour(alloc, from, out, &mut pass)
}
