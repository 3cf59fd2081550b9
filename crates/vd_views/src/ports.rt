//! The ports with a view, and the ports that take their place.
#![tactic(auto, using(vd_forest::proofs::StoreLemmas::growing))]

ghost use Rattle.std.specs.Prelude.{◌≡◌, ◌≤◌, IfOk, IfSome, length};
ghost use Rattle.vd_forest.specs.Store.{Extends};
ghost use Rattle.vd_views.specs.Splits.{port_at};

use crate::leaves::{Leaf, Step, leaves};
use crate::trees::port_tree;
use crate::views::{ElementMode, Views, view_named};
use std::alloc::{AllocError, Global};
use vd_bytes::Text;
use vd_declarations::{DeclId, Declaration, Declarations, Made};
use vd_forest::{Cursor, Opened, Store};
use vd_notes::first_number;
use vd_resolved::Resolved;

/// A port with a view: the view and whether it is its converse, and the numbers of the ports that take its place.
#[derive(Clone, Copy)]
pub(crate) struct ViewPort {
    pub(crate) view: u32,
    pub(crate) is_converse: bool,
    pub(crate) first: u32,
    pub(crate) count: u32,
}

/// The ports with a view that the walk has come by, by their numbers, and the declarations that take their place.
#[derive(Drop)]
pub(crate) struct Ports<'d> {
    declarations: &'d [Declaration],
    ports: Vec<Option<ViewPort>>,
    pub(crate) made: Vec<Declaration>,
}

/// A port's name and those of the elements to which steps lead, with a sign in front of each of these.
fn joined(
    alloc: Global,
    views: &Views<'_, '_>,
    port: &[u8],
    sign: u8,
    path: &[Step],
) -> Result<Text, AllocError> {
    let mut text = Vec::from_slice(alloc, port)?;
    for step in path {
        if let Some(field) = views.field(step.field) {
            text.push(sign)?;
            text.extend_from_slice(field.name.as_slice())?;
        }
    }
    Text::from_slice(alloc, text.as_slice())
}

/// The element to which steps lead.
fn last_field(path: &[Step]) -> Option<DeclId> {
    match path.last() {
        Some(step) => Some(step.field),
        None => None,
    }
}

/// The declaration of the port for an element of another one, `port.element`, which is to be named `port_element`. It has the type of the element.
fn element_port(
    alloc: Global,
    views: &Views<'_, '_>,
    port: &Declaration,
    path: &[Step],
) -> Result<Declaration, AllocError> {
    let name = port.name.as_slice();
    let mark = match last_field(path).and_then(|field| views.field(field)) {
        Some(field) => field.mark,
        None => None,
    };
    Ok(Declaration {
        class: port.class,
        name: joined(alloc, views, name, b'.', path)?,
        mark,
        parameters: Declarations::of(Vec::new(alloc)),
        generics: Declarations::of(Vec::new(alloc)),
        inside: None,
        place: port.place,
        made: Made::Element(None),
        wanted: joined(alloc, views, name, b'_', path)?,
    })
}

/// What the only one of some names declares.
fn only_number(names: &Cursor<'_, Resolved>) -> Option<u32> {
    if names.next().form().is_some() {
        return None;
    }
    first_number(names)
}

impl<'d> Ports<'d> {
    /// The walk has come by none.
    pub(crate) fn of(
        alloc: Global,
        declarations: &'d [Declaration],
    ) -> Result<Ports<'d>, AllocError> {
        let ports = vec![in alloc; None; declarations.len()]?;
        Ok(Ports {
            declarations,
            ports,
            made: Vec::new(alloc),
        })
    }

    /// The port with a view that a declaration is.
    pub(crate) fn port(&self, number: Option<DeclId>) -> Option<ViewPort>
        ensures { result ≡ port_at self.now.ports.items number }
    {
        let number = number?;
        match self.ports.get(number.number() as usize) {
            Some(port) => *port,
            None => None,
        }
    }

    /// The declaration of a port that takes the place of another.
    pub(crate) fn element(&self, number: u32) -> Option<&Declaration> {
        let place = (number as usize).checked_sub(self.declarations.len())?;
        self.made.get(place)
    }

    /// The number of the next declaration that is made.
    fn next_number(&self) -> Result<u32, AllocError> {
        let count = self.declarations.len().saturating_add(self.made.len());
        match u32::try_from(count) {
            Ok(number) => Ok(number),
            Err(_) => Err(AllocError),
        }
    }

    /// Declares a port for each of some elements of a port. Gives the number of the first.
    fn declare(
        &mut self,
        alloc: Global,
        views: &Views<'_, '_>,
        port: &Declaration,
        elements: &[Leaf],
    ) -> Result<u32, AllocError> {
        let first = self.next_number()?;
        for element in elements {
            let declaration = element_port(alloc, views, port, element.path.as_slice())?;
            self.made.push(declaration)?;
        }
        // The numbers of all of them are numbers of declarations.
        self.next_number()?;
        Ok(first)
    }

    /// The port for an element, in front of others.
    fn tree(
        &self,
        out: &mut Store<Resolved>,
        views: &Views<'_, '_>,
        number: u32,
        element: &Leaf,
        next: u32,
    ) -> Result<u32, AllocError>
        requires { next ≤ length out.old }
        ensures within { IfOk result (λ made. made ≤ length out.new) }
        ensures extends { Extends out.old out.new }
    {
        let Some(port) = self.element(number) else {
            return Ok(next);
        };
        let Some(field) = last_field(element.path.as_slice()) else {
            return Ok(next);
        };
        match views.subtype(field) {
            Some(subtype) => port_tree(out, number, port, element.mode, &subtype, next),
            None => Ok(next),
        }
    }

    /// The ports for some elements, of which the first has this number.
    fn trees(
        &self,
        out: &mut Store<Resolved>,
        views: &Views<'_, '_>,
        first: u32,
        elements: &[Leaf],
    ) -> Result<u32, AllocError>
        ensures within { IfOk result (λ made. made ≤ length out.new) }
        ensures extends { Extends out.old out.new }
    {
        let mut number = first;
        let mut made = 0;
        for element in elements {
            let tree = self.tree(out, views, number, element, 0)?;
            made = out.turn(tree, made)?;
            number = number.saturating_add(1);
        }
        let ports = out.turn(made, 0)?;
        Ok(ports)
    }

    /// Notes the ports that take the place of one.
    fn note(&mut self, number: u32, port: ViewPort) {
        let place = number as usize;
        if place < self.ports.len() {
            self.ports[place] = Some(port);
        }
    }

    /// Splits a port of a view into ports for its elements, which are these trees.
    fn split_one(
        &mut self,
        alloc: Global,
        out: &mut Store<Resolved>,
        views: &Views<'_, '_>,
        number: u32,
        view: u32,
        is_converse: bool,
    ) -> Result<u32, AllocError>
        ensures within { IfOk result (λ made. made ≤ length out.new) }
        ensures extends { Extends out.old out.new }
    {
        let declarations = self.declarations;
        let Some(port) = declarations.get(number as usize) else {
            return Ok(0);
        };
        let elements = leaves(alloc, views, view, is_converse)?;
        let first = self.declare(alloc, views, port, elements.as_slice())?;
        let count = match u32::try_from(elements.len()) {
            Ok(count) => count,
            Err(_) => return Err(AllocError),
        };
        self.note(
            number,
            ViewPort {
                view,
                is_converse,
                first,
                count,
            },
        );
        self.trees(out, views, first, elements.as_slice())
    }

    /// The walk comes by a port with a view. It stays where its view isn't known.
    pub(crate) fn split(
        &mut self,
        alloc: Global,
        out: &mut Store<Resolved>,
        views: &Views<'_, '_>,
        node: &Opened<'_, Resolved>,
    ) -> Result<Option<u32>, AllocError>
        ensures within { IfOk result (λ made. IfSome made (λ trees. trees ≤ length out.new)) }
        ensures extends { Extends out.old out.new }
    {
        let Some(number) = only_number(&node.parts.skip(1).parts()) else {
            return Ok(None);
        };
        let Some(ElementMode::ByView { view, is_converse }) = view_named(&node.parts.skip(2)) else {
            return Ok(None);
        };
        if views.count(view).is_none() {
            return Ok(None);
        }
        let trees = self.split_one(alloc, out, views, number, view, is_converse)?;
        Ok(Some(trees))
    }
}
