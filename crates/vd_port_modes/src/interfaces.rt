//! The modes and views of a design.

ghost use Rattle.std.specs.Prelude.{◌≡◌, IfOk, List, Some, [], length, map, nat_eq, slice_index_or, ℕ};
ghost use Rattle.std.specs.HashMap.{get};
ghost use Rattle.vd_meaning.specs.Elaborations.{mode_as, number_as};
ghost use Rattle.vd_meaning.specs.Instances.{element_mode, view_in};
ghost use Rattle.vd_operations.specs.Roles.{read_role};
ghost use Rattle.vd_meaning.specs.Tables.{role_of as role_in};
ghost use Rattle.vd_port_lists.specs.Listed.{read_view};
ghost use Rattle.vd_port_lists.specs.Modes.{read_mode};
ghost use Rattle.vd_port_modes.specs.Readings.{read_oriented};
ghost use Rattle.vd_port_modes.specs.Source.{copies_there, design_in};
ghost use Rattle.vd_port_modes.specs.Tables.{found_at, names_listed, names_of, no_view, view_found};
ghost use Rattle.vd_value_rules.specs.Designs.{at_element as is_at_element, elements_of, elements_of_view, mode_of_port as is_mode_of_port};
ghost use Rattle.vd_value_rules.specs.Knowledge.{mark_of_view as is_mark_of_view};

use crate::copies::Copies;
use crate::counts::count_views;
use crate::found::{Found, Oriented, differ};
use crate::numbers::{modes_by_number, views_by_number};
use std::alloc::{AllocError, Global};
use std::collections::HashMap;
use std::marker::Model;
use vd_declarations::{DeclId, Declaration};
use vd_operations::{Role, role_of};
use vd_port_lists::{
    ListedElement, ListedInstance, ListedView, Mode, PortMode, listed_instances, listed_ports,
    listed_views,
};
use vd_resolved::Tree;
use vd_trees::Revision;

/// The modes of ports and the views of a design, in tables by number. Contracts see the tree that they were made of, and its
/// revision.
#[derive(Drop)]
pub struct Interfaces<'t> {
    revision: Revision,
    tree: &'t Tree,
    modes: HashMap<u32, PortMode>,
    views: Vec<ListedView>,
    copies: Vec<Copies>,
    found: HashMap<u32, Found>,
    count: usize,
}

impl<'t> Model for Interfaces<'t> {
    ghost use Rattle.std.specs.Prelude.{nat_eq};
    ghost use Rattle.std.specs.HashMap.{get};
    ghost use Rattle.vd_port_modes.specs.Code.{coded_source};
    ghost use Rattle.vd_port_modes.specs.Source.{Source};
    ghost use Rattle.vd_port_modes.specs.Tables.{AreTables};

    ghost Value = { Source };

    ghost coded = { coded_source };

    ghost view = { λ a. record { revision = a.revision; tree = a.tree.now } };

    ghost invariant = { λ a. AreTables a.revision a.tree.now (λ n. get nat_eq a.modes n) (λ n. get nat_eq a.found n) a.views.items a.copies.items a.count };
}

/// The copies of each instance.
fn copies_of_instances(
    alloc: Global,
    declarations: &[Declaration],
    instances: &[ListedInstance],
) -> Result<Vec<Copies>, AllocError>
    ensures { IfOk result (λ copies. copies.items ≡ map (copies_there declarations.now) instances.now) }
{
    let mut all = Vec::new(alloc);
    for instance in instances {
        let copies = Copies::of(alloc, declarations, instance)?;
        all.push(copies)?;
    }
    Ok(all)
}

/// The mark of a view's record type, where the view is found there.
fn mark_found(views: &[ListedView], copies: &[Copies], found: Found) -> Option<DeclId>
    ensures { (n : ℕ) → result ≡ is_mark_of_view (view_found views.now copies.now n (Some found)) }
{
    let mark = match views.get(found.view) {
        Some(view) => view.mark,
        None => None,
    };
    match found.instance {
        Some(instance) => number_copied(copies, instance, mark),
        None => mark,
    }
}

/// A declaration as an instance has it.
fn number_copied(copies: &[Copies], instance: usize, number: Option<DeclId>) -> Option<DeclId>
    ensures { result ≡ number_as (slice_index_or copies.now instance []) number }
{
    match copies.get(instance) {
        Some(copies) => copies.number(number),
        None => number,
    }
}

/// A mode as an instance has it.
fn mode_copied(copies: &[Copies], instance: usize, mode: PortMode) -> PortMode
    ensures { read_mode result ≡ mode_as (slice_index_or copies.now instance []) (read_mode mode) }
{
    match copies.get(instance) {
        Some(copies) => copies.mode(mode),
        None => mode,
    }
}

/// The mode of an element of a view of the list.
fn mode_listed(views: &[ListedView], view: usize, name: &[u8]) -> PortMode
    ensures { read_mode result ≡ element_mode (read_view (slice_index_or views.now view no_view)).elements name.now }
{
    match views.get(view) {
        Some(view) => view.elements.mode(name),
        None => PortMode::Plain(Mode::Input),
    }
}

/// The mode of an element of a view, where the view is found there.
#[tactic(auto, using(crate::proofs::TableLemmas::copied_mode))]
fn mode_found(views: &[ListedView], copies: &[Copies], found: Found, name: &[u8]) -> PortMode
    ensures { (n : ℕ) → read_mode result ≡ element_mode (elements_of (view_found views.now copies.now n (Some found))) name.now }
{
    let mode = mode_listed(views, found.view, name);
    match found.instance {
        Some(instance) => mode_copied(copies, instance, mode),
        None => mode,
    }
}

/// The elements of a view of the list.
fn elements_listed(views: &[ListedView], view: usize) -> &[ListedElement]
    ensures { result.now ≡ (slice_index_or views.now view no_view).elements }
{
    match views.get(view) {
        Some(view) => view.elements.listed(),
        None => &[],
    }
}

/// The elements of a view, where the view is found at all. Those of a copy have the same names.
#[tactic(auto, using(crate::proofs::TableLemmas::names_found))]
fn elements_by(views: &[ListedView], found: Option<Found>) -> &[ListedElement]
    ensures { (copies : List (List (ℕ × ℕ))) (n : ℕ) → names_listed result.now ≡ names_of (elements_of (view_found views.now copies n found)) }
{
    match found {
        Some(found) => elements_listed(views, found.view),
        None => &[],
    }
}

/// Where a view is found, if one is meant.
fn found_of(found: &HashMap<u32, Found>, view: Option<DeclId>) -> Option<Found>
    ensures { result ≡ found_at (get nat_eq found.now) view }
{
    match view {
        Some(view) => found.get(&view.number()).copied(),
        None => None,
    }
}

/// The mark of a view's record type, where the view is found at all.
fn mark_by(views: &[ListedView], copies: &[Copies], found: Option<Found>) -> Option<DeclId>
    ensures { (n : ℕ) → result ≡ is_mark_of_view (view_found views.now copies.now n found) }
{
    match found {
        Some(found) => mark_found(views, copies, found),
        None => None,
    }
}

/// The mode of an element of a view, where the view is found at all.
fn mode_by(views: &[ListedView], copies: &[Copies], found: Option<Found>, name: &[u8]) -> PortMode
    ensures { (n : ℕ) → read_mode result ≡ element_mode (elements_of (view_found views.now copies.now n found)) name.now }
{
    match found {
        Some(found) => mode_found(views, copies, found, name),
        None => PortMode::Plain(Mode::Input),
    }
}

impl<'t> Interfaces<'t> {
    /// Those of a design.
    pub fn of(
        alloc: Global,
        revision: Revision,
        tree: &'t Tree,
    ) -> Result<Interfaces<'t>, AllocError>
        ensures { IfOk result (λ interfaces. interfaces ≡ record { revision = revision; tree = tree.now }) }
    {
        let ports = listed_ports(alloc, revision, tree)?;
        let views = listed_views(alloc, revision, tree)?;
        let instances = listed_instances(alloc, revision, tree)?;
        let copies = copies_of_instances(alloc, tree.declarations(), &instances)?;
        let modes = modes_by_number(alloc, &ports)?;
        let found = views_by_number(alloc, &views, &copies)?;
        let count = count_views(&views, &copies)?;
        Ok(Interfaces {
            revision,
            tree,
            modes,
            views,
            copies,
            found,
            count,
        })
    }

    /// The revision of the design.
    pub fn revision(&self) -> Revision
        ensures { result ≡ self.now.revision }
    {
        self.revision
    }

    /// How many views there are, with the copies in instances of packages.
    pub fn view_count(&self) -> usize
        ensures { result ≡ length (design_in self.now).units.views }
    {
        self.count
    }

    /// The declarations of the design.
    pub fn declarations(&self) -> &'t [Declaration]
        ensures { result.now ≡ self.now.tree.declarations }
    {
        self.tree.declarations()
    }

    /// What a declaration is to a name.
    pub fn role_of(&self, number: Option<DeclId>) -> Role
        ensures { read_role result ≡ role_in (design_in self.now).table number }
    {
        role_of(self.declarations(), number)
    }

    /// The mode or view of a port; `in` of a number that is no port's.
    pub fn mode_of_port(&self, port: DeclId) -> PortMode
        ensures { read_mode result ≡ is_mode_of_port (design_in self.now) port }
    {
        match self.modes.get(&port.number()) {
            Some(mode) => *mode,
            None => PortMode::Plain(Mode::Input),
        }
    }

    /// The mark of the record type of a view.
    pub fn mark_of_view(&self, view: Option<DeclId>) -> Option<DeclId>
        ensures { result ≡ is_mark_of_view (view_in (design_in self.now).units.views view) }
    {
        let found = found_of(&self.found, view);
        mark_by(&self.views, &self.copies, found)
    }

    /// The mode or view of an element of a view, by its name; `in` where there is none.
    pub fn mode_of_element(&self, view: Option<DeclId>, name: &[u8]) -> PortMode
        ensures { read_mode result ≡ element_mode (elements_of_view (design_in self.now) view) name.now }
    {
        let found = found_of(&self.found, view);
        mode_by(&self.views, &self.copies, found, name)
    }

    /// The elements of a view, by their names, in the order of the view. Their modes are those that the view was declared with, also where it
    /// is a copy in an instance: for these `mode_of_element` is to be asked.
    pub fn view_elements(&self, view: Option<DeclId>) -> &[ListedElement]
        ensures { names_listed result.now ≡ names_of (elements_of_view (design_in self.now) view) }
    {
        let found = found_of(&self.found, view);
        elements_by(&self.views, found)
    }

    /// Of an element of something with a mode or a view.
    pub fn at_element(&self, oriented: Oriented, name: &[u8]) -> Oriented
        ensures { read_oriented result ≡ is_at_element (design_in self.now) (read_oriented oriented) name.now }
    {
        let mode = oriented.mode;
        match mode {
            PortMode::Plain(_) => oriented,
            PortMode::ByView { view, is_converse } => Oriented {
                mode: self.mode_of_element(view, name),
                is_swapped: differ(oriented.is_swapped, is_converse),
            },
        }
    }
}
