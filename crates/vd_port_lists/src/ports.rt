//! The ports of a design's entities.

ghost use Rattle.std.specs.Prelude.{◌≡◌, IfOk, List, map, ℕ};
ghost use Rattle.vd_forest.specs.Forest.{Forest};
ghost use Rattle.vd_meaning.specs.Elaborations.{units_of};
ghost use Rattle.vd_meaning.specs.Tables.{Table, table};
ghost use Rattle.vd_port_lists.specs.Listed.{one_by_one, read_port};
ghost use Rattle.vd_port_lists.specs.Seeking.{inside_for_ports as all_inside, named_port as port_named, port_at as port_answered, port_seeker};
ghost use Rattle.vd_value_rules.specs.Designs.{ports_in};

use crate::entries::ListedPort;
use crate::modes::PortMode;
use crate::seeking::{
    Seeking, Sought, all_trees, for_next, inside_names, inside_port, inside_unit, is_here,
    nothing_sought,
};
use std::alloc::{AllocError, Global};
use vd_declarations::{DeclId, Declaration};
use vd_forest::{Cursor, Opened};
use vd_forms::Form;
use vd_resolved::{Resolved, Tree};
use vd_trees::Revision;
use vd_walks::{Finding, find_all};

/// The port of a name.
fn named_port(form: Form, number: Option<DeclId>, mode: PortMode) -> Option<ListedPort>
    ensures { result ≡ port_named form number mode }
{
    match (form, number) {
        (Form::Identifier, Some(number)) => Some(ListedPort { number, mode }),
        _ => None,
    }
}

fn port_at(sought: Sought, node: &Resolved) -> Option<ListedPort>
    ensures { (text : List ℕ) (parts : Forest Resolved) → result ≡ port_answered sought node.now text parts }
{
    match sought {
        Sought::Names(mode) => named_port(node.form, node.declaration, mode),
        _ => None,
    }
}

/// What is looked for inside a node.
fn inside(sought: Sought, form: Form, parts: &Cursor<'_, Resolved>) -> Seeking
    ensures { (t : Table) → result ≡ all_inside t sought form parts.now }
{
    match sought {
        Sought::Units => inside_unit(form),
        Sought::PortLists => inside_port(form, parts),
        Sought::Names(mode) => inside_names(form, mode),
        _ => nothing_sought(),
    }
}

/// The ports, by the declarations of a design.
#[derive(Clone, Copy)]
struct PortSeeker<'d> {
    revision: Revision,
    declarations: &'d [Declaration],
}

impl<'d> Finding<Resolved, Seeking, ListedPort> for PortSeeker<'d> {
    ghost finder = { λ by. port_seeker (table by.revision by.declarations.now) };

    fn answer(
        &self,
        _alloc: Global,
        state: &Seeking,
        node: &Opened<'_, Resolved>,
    ) -> Result<Option<ListedPort>, AllocError> {
        if is_here(state.trees) {
            Ok(port_at(state.sought, &node.form))
        } else {
            Ok(None)
        }
    }

    fn down(
        &self,
        _alloc: Global,
        state: &Seeking,
        node: &Opened<'_, Resolved>,
    ) -> Result<Seeking, AllocError> {
        if is_here(state.trees) {
            Ok(inside(state.sought, node.form.form, &node.parts))
        } else {
            Ok(nothing_sought())
        }
    }

    fn along(
        &self,
        _alloc: Global,
        state: &Seeking,
        _node: &Opened<'_, Resolved>,
    ) -> Result<Seeking, AllocError> {
        Ok(for_next(state))
    }
}

/// The ports of all entities, in the order of the text.
pub fn listed_ports(
    alloc: Global,
    revision: Revision,
    tree: &Tree,
) -> Result<Vec<ListedPort>, AllocError>
    ensures { IfOk result (λ ports. map read_port ports.items ≡ one_by_one (ports_in (units_of revision tree.now).units)) }
{
    let seeker = PortSeeker {
        revision,
        declarations: tree.declarations(),
    };
    let ports = find_all(alloc, &tree.cursor(), all_trees(Sought::Units), &seeker)?;
    Ok(ports)
}
