//! The walk.

ghost use Rattle.std.specs.Prelude.{◌≡◌, ◌≤◌, IfOk, length};
ghost use Rattle.vd_forest.specs.Store.{Extends};
ghost use Rattle.vd_tours.specs.Tours.{IsWithin};
ghost use Rattle.vd_views.specs.Splits.{AreSplit};

use crate::declared::all_declared;
use crate::maps::element;
use crate::names::name;
use crate::ports::Ports;
use crate::views::Views;
use std::alloc::{AllocError, Global};
use vd_declarations::Declaration;
use vd_forest::{Opened, Store};
use vd_forms::Form;
use vd_resolved::{Resolved, Tree};
use vd_tours::{Entry, Touring, tour};

/// The table of the walk: the views and the ports with a view that it has come by. All of these are declared in front of what names them.
#[derive(Drop)]
struct Walk<'a, 'd> {
    views: Views<'a, 'd>,
    ports: Ports<'d>,
}

impl<'a, 'd> Walk<'a, 'd> {
    /// The walk has come by nothing.
    fn of(alloc: Global, declarations: &'d [Declaration]) -> Result<Walk<'a, 'd>, AllocError> {
        let views = Views::of(alloc, declarations)?;
        let ports = Ports::of(alloc, declarations)?;
        Ok(Walk { views, ports })
    }

    /// A port with a view, as the ports that take its place.
    fn port(
        &mut self,
        alloc: Global,
        out: &mut Store<Resolved>,
        node: &Opened<'a, Resolved>,
    ) -> Result<Entry, AllocError>
        ensures within { IfOk result (IsWithin out.new) }
        ensures extends { Extends out.old out.new }
    {
        match self.ports.split(alloc, out, &self.views, node)? {
            Some(trees) => Ok(Entry::Done(trees)),
            None => Ok(Entry::Inside),
        }
    }
}

impl<'a, 'd> Touring<'a, Resolved, Resolved> for Walk<'a, 'd> {
    ghost knows = { λ _ _ _. Unit {0} };

    ghost Frame = { Unit {0} };

    ghost frame = { λ _. tt };

    ghost replaces = { λ _ _ _ _. Unit {0} };

    ghost becomes = { λ _ _ _ _ _. Unit {0} };

    fn enter(
        &mut self,
        alloc: Global,
        out: &mut Store<Resolved>,
        node: &Opened<'a, Resolved>,
    ) -> Result<Entry, AllocError> {
        match node.form.form {
            Form::ViewPort => self.port(alloc, out, node),
            Form::ViewDeclaration => {
                self.views.note_view(alloc, node)?;
                Ok(Entry::Done(0))
            }
            Form::RecordElement => {
                self.views.note_elements(node);
                Ok(Entry::Inside)
            }
            _ => Ok(Entry::Inside),
        }
    }

    fn leave(
        &mut self,
        alloc: Global,
        out: &mut Store<Resolved>,
        node: &Opened<'a, Resolved>,
        parts: u32,
    ) -> Result<u32, AllocError> {
        match node.form.form {
            Form::Name => name(out, &self.views, &self.ports, node, parts),
            Form::Association => element(alloc, out, &self.views, &self.ports, node, parts),
            _ => {
                let made = out.add(node.form, node.text, node.place, parts, 0)?;
                Ok(made)
            }
        }
    }
}

/// A design without views: one port for each element with a mode of the view of a port, in the order of the record's elements. What named the element
/// names this port; a map of the port has an element for each of them. They stand behind the other declarations, in the order of the text. The maps of
/// the design are by name, and each declaration has one name.
#[tactic(auto, using(crate::proofs::TourLemmas::at_start))]
pub fn split(alloc: Global, tree: &Tree) -> Result<Tree, AllocError>
    ensures declarations { IfOk result (λ made. AreSplit tree.now.declarations made.declarations) }
{
    let mut out = Store::new(alloc);
    let mut walk = Walk::of(alloc, tree.declarations())?;
    let units = tour(alloc, &tree.cursor(), &mut out, &mut walk)?;
    let declarations = all_declared(alloc, tree.declarations(), walk.ports)?;
    Ok(Tree::of(out, units, declarations))
}
