//! Maps by name, in the order of what they associate, and calls by position.
//!
//! Each element goes into the list of its formal, and the lists stand one behind the other in the end. So several elements of one formal keep their
//! order, and no list is searched.

ghost use Rattle.std.specs.Prelude.{◌≡◌, ◌≤◌, IfOk, IfSome, length};
ghost use Rattle.vd_forest.specs.Store.{Extends};

use crate::lists::Lists;
use crate::places::Places;
use crate::words::{parts_at, plain};
use std::alloc::{AllocError, Global};
use vd_bytes::Place;
use vd_declarations::{DeclId, Declaration};
use vd_forest::{Opened, Store};
use vd_forms::Form;
use vd_operations::{declaration_of, formal_of};
use vd_resolved::Resolved;
use vd_tours::{Entry, Touring};

/// The table of the pass: the declarations of the design, and the place of each in its list.
#[derive(Drop)]
pub struct Associations<'a> {
    pub declarations: &'a [Declaration],
    pub places: Places,
}

/// The parts of a node, where it is an association by name.
fn parts_if(form: Form, parts: u32) -> Option<u32>
    ensures { IfSome result (λ found. found ≡ parts) }
{
    match form {
        Form::Association => Some(parts),
        _ => None,
    }
}

/// The parts of the first tree, where it is an association by name.
fn association(out: &Store<Resolved>, number: u32) -> Option<u32>
    requires { number ≤ length out.now }
    ensures { IfSome result (λ parts. parts ≤ length out.now) }
{
    match out.head(number) {
        Some(head) => parts_if(head.form.form, head.parts),
        None => None,
    }
}

/// The trees behind the first one, where there is one.
fn behind(out: &Store<Resolved>, number: u32) -> u32
    requires { number ≤ length out.now }
    ensures { result ≤ length out.now }
{
    if number == 0 { 0 } else { out.after(number) }
}

/// The last of some trees.
fn last_of(out: &Store<Resolved>, number: u32) -> u32
    requires { number ≤ length out.now }
    ensures { result ≤ length out.now }
{
    let mut last = number;
    let mut left = number;
    while left > 0 {
        last = left;
        left = out.after(left);
    }
    last
}

/// What the formal of an association by name converts, as `f` in `t(f) => a`. The converted name is an expression, so that its word has the
/// declaration.
fn converted_formal(out: &Store<Resolved>, tree: u32) -> Option<DeclId>
    requires { tree ≤ length out.now }
{
    let choices = association(out, tree)?;
    let formal = parts_at(out, choices);
    let list = last_of(out, parts_at(out, formal));
    let name = parts_at(out, list);
    declaration_of(&out.cursor(parts_at(out, name)))
}

/// Whether one of some trees is an association by name.
fn names_some(out: &Store<Resolved>, number: u32) -> bool
    requires { number ≤ length out.now }
{
    let mut left = number;
    while left > 0 {
        if association(out, left).is_some() {
            return true;
        }
        left = out.after(left);
    }
    false
}

/// The element of a map by name: `formal => actual`, alone.
fn named(
    out: &mut Store<Resolved>,
    formal: DeclId,
    text: &[u8],
    place: Place,
    actual: u32,
) -> Result<u32, AllocError>
    requires { actual ≤ length out.old }
    ensures within { IfOk result (λ made. made ≤ length out.new) }
    ensures extends { Extends out.old out.new }
{
    let actual = out.relink(actual, 0)?;
    let word = out.add(plain(Form::Identifier), text, place, 0, 0)?;
    let name = Resolved {
        declaration: Some(formal),
        ..plain(Form::Name)
    };
    let name = out.add(name, &[], place, word, 0)?;
    let choices = out.add(plain(Form::AssociationChoices), &[], place, name, actual)?;
    let made = out.add(plain(Form::Association), &[], place, choices, 0)?;
    Ok(made)
}

/// Where an element belongs, and its tree.
#[derive(Clone, Copy)]
struct Sorted {
    place: Option<u32>,
    tree: u32,
}

impl<'a> Associations<'a> {
    /// A pass over a design with these declarations.
    pub fn of(
        alloc: Global,
        declarations: &'a [Declaration],
    ) -> Result<Associations<'a>, AllocError> {
        let places = Places::of(alloc, declarations)?;
        Ok(Associations {
            declarations,
            places,
        })
    }

    /// The parameters of a function.
    fn parameters(&self, number: Option<DeclId>) -> &'a [DeclId] {
        match self.declared(number) {
            Some(declaration) => declaration.parameters.as_slice(),
            None => &[],
        }
    }

    fn declared(&self, number: Option<DeclId>) -> Option<&'a Declaration> {
        let number = number?;
        self.declarations.get(number.number() as usize)
    }

    /// The name of a declaration.
    fn name(&self, number: &DeclId) -> &'a [u8] {
        match self.declarations.get(number.number() as usize) {
            Some(declaration) => declaration.name.as_slice(),
            None => &[],
        }
    }

    /// The place of the formal that an association by name converts.
    fn place_of_converted(
        &self,
        out: &Store<Resolved>,
        formals: &[DeclId],
        tree: u32,
    ) -> Option<u32>
        requires { tree ≤ length out.now }
    {
        let formal = converted_formal(out, tree)?;
        let place = self.places.place(formal);
        match formals.get(place as usize) {
            Some(there) if there.number() == formal.number() => Some(place),
            _ => None,
        }
    }

    /// An element of a map by name. The one at a place is by position.
    fn element_of_map(
        &self,
        out: &mut Store<Resolved>,
        formals: &[DeclId],
        at: u32,
        tree: u32,
    ) -> Result<Sorted, AllocError>
        requires { tree ≤ length out.old }
        ensures within { IfOk result (λ sorted. sorted.tree ≤ length out.new) }
        ensures extends { Extends out.old out.new }
    {
        if let Some(formal) = formal_of(&out.cursor(tree)) {
            let place = Some(self.places.place(formal));
            return Ok(Sorted { place, tree });
        }
        let by_name = association(out, tree).is_some();
        match formals.get(at as usize) {
            Some(formal) if !by_name && tree > 0 => {
                let place = out.node(tree).place;
                let name = self.name(formal);
                let tree = named(out, *formal, name, place, tree)?;
                Ok(Sorted {
                    place: Some(at),
                    tree,
                })
            }
            _ => {
                let place = self.place_of_converted(out, formals, tree);
                Ok(Sorted { place, tree })
            }
        }
    }

    /// An argument of a call without the name of its parameter.
    fn argument(&self, out: &Store<Resolved>, at: u32, tree: u32) -> Sorted
        requires { tree ≤ length out.now }
        ensures { result.tree ≤ length out.now }
    {
        match formal_of(&out.cursor(tree)) {
            Some(formal) => match association(out, tree) {
                Some(parts) => Sorted {
                    place: Some(self.places.place(formal)),
                    tree: behind(out, parts),
                },
                None => Sorted { place: None, tree },
            },
            None => Sorted {
                place: Some(at),
                tree,
            },
        }
    }

    /// The elements of a map by name, in the order of the formals.
    fn elements(
        &self,
        alloc: Global,
        out: &mut Store<Resolved>,
        formals: &[DeclId],
        elements: u32,
    ) -> Result<u32, AllocError>
        requires { elements ≤ length out.old }
        ensures within { IfOk result (λ made. made ≤ length out.new) }
        ensures extends { Extends out.old out.new }
    {
        let mut lists = Lists::new(alloc, formals.len())?;
        let mut left = elements;
        let mut at: u32 = 0;
        while left > 0 {
            let sorted = self.element_of_map(out, formals, at, left)?;
            lists.put(out, sorted.place, sorted.tree)?;
            left = out.after(left);
            at = at.saturating_add(1);
        }
        lists.joined(out)
    }

    /// The arguments of a call in the order of the parameters.
    fn arguments(
        &self,
        alloc: Global,
        out: &mut Store<Resolved>,
        parameters: &[DeclId],
        arguments: u32,
    ) -> Result<u32, AllocError>
        requires { arguments ≤ length out.old }
        ensures within { IfOk result (λ made. made ≤ length out.new) }
        ensures extends { Extends out.old out.new }
    {
        let mut lists = Lists::new(alloc, parameters.len())?;
        let mut left = arguments;
        let mut at: u32 = 0;
        while left > 0 {
            let sorted = self.argument(out, at, left);
            lists.put(out, sorted.place, sorted.tree)?;
            left = out.after(left);
            at = at.saturating_add(1);
        }
        lists.joined(out)
    }

    /// A generic or port map, or none, in front of what stands behind it.
    fn map(
        &self,
        alloc: Global,
        out: &mut Store<Resolved>,
        formals: &[DeclId],
        map: u32,
        next: u32,
    ) -> Result<u32, AllocError>
        requires map_in { map ≤ length out.old }
        requires next_in { next ≤ length out.old }
        ensures within { IfOk result (λ made. made ≤ length out.new) }
        ensures extends { Extends out.old out.new }
    {
        let Some(head) = out.head(map) else {
            return Ok(next);
        };
        let (form, place, parts) = (head.form, head.place, head.parts);
        if matches!(form.form, Form::Absent) {
            let made = out.relink(map, next)?;
            return Ok(made);
        }
        let elements = self.elements(alloc, out, formals, parts)?;
        let made = out.add(form, &[], place, elements, next)?;
        Ok(made)
    }

    /// The parts of an instance of an entity with these ports and generics: its name, its architecture, and its maps.
    fn maps(
        &self,
        alloc: Global,
        out: &mut Store<Resolved>,
        ports: &[DeclId],
        generics: &[DeclId],
        parts: u32,
    ) -> Result<u32, AllocError>
        requires { parts ≤ length out.old }
        ensures within { IfOk result (λ made. made ≤ length out.new) }
        ensures extends { Extends out.old out.new }
    {
        let architecture = behind(out, parts);
        let generic_map = behind(out, architecture);
        let port_map = behind(out, generic_map);
        let made = self.map(alloc, out, ports, port_map, 0)?;
        let made = self.map(alloc, out, generics, generic_map, made)?;
        let made = out.relink(architecture, made)?;
        let made = out.relink(parts, made)?;
        Ok(made)
    }

    /// The parts of an instance of an entity.
    fn instance(
        &self,
        alloc: Global,
        out: &mut Store<Resolved>,
        entity: Option<DeclId>,
        parts: u32,
    ) -> Result<u32, AllocError>
        requires { parts ≤ length out.old }
        ensures within { IfOk result (λ made. made ≤ length out.new) }
        ensures extends { Extends out.old out.new }
    {
        match self.declared(entity) {
            Some(entity) => {
                let ports = entity.parameters.as_slice();
                let generics = entity.generics.as_slice();
                self.maps(alloc, out, ports, generics, parts)
            }
            None => Ok(parts),
        }
    }

    /// The parts of a node.
    fn parts(
        &self,
        alloc: Global,
        out: &mut Store<Resolved>,
        node: &Opened<'_, Resolved>,
        parts: u32,
    ) -> Result<u32, AllocError>
        requires { parts ≤ length out.old }
        ensures within { IfOk result (λ made. made ≤ length out.new) }
        ensures extends { Extends out.old out.new }
    {
        match node.form.form {
            Form::EntityInstantiation => {
                let entity = declaration_of(&node.parts);
                self.instance(alloc, out, entity, parts)
            }
            Form::Arguments if names_some(out, parts) => {
                let parameters = self.parameters(node.form.declaration);
                self.arguments(alloc, out, parameters, parts)
            }
            _ => Ok(parts),
        }
    }
}

impl<'a, 'b> Touring<'a, Resolved, Resolved> for Associations<'b> {
    ghost knows = { λ _ _ _. Unit {0} };

    ghost Frame = { Unit {0} };

    ghost frame = { λ _. tt };

    ghost replaces = { λ _ _ _ _. Unit {0} };

    ghost becomes = { λ _ _ _ _ _. Unit {0} };

    fn enter(
        &mut self,
        _alloc: Global,
        _out: &mut Store<Resolved>,
        _node: &Opened<'a, Resolved>,
    ) -> Result<Entry, AllocError> {
        Ok(Entry::Inside)
    }

    fn leave(
        &mut self,
        alloc: Global,
        out: &mut Store<Resolved>,
        node: &Opened<'a, Resolved>,
        parts: u32,
    ) -> Result<u32, AllocError> {
        let parts = self.parts(alloc, out, node, parts)?;
        let made = out.add(node.form, node.text, node.place, parts, 0)?;
        Ok(made)
    }
}
