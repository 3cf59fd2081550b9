//! The ports of a design's entities: which are declared together, whether they have a default, and what their subtype names.

ghost use Rattle.std.specs.Prelude.{◌≡◌, IfOk, OnOk, Some, if◌then◌else◌, map, nat_eq, ℕ};
ghost use Rattle.std.specs.HashMap.{get};
ghost use Rattle.vd_meaning.specs.Elaborations.{units_of};
ghost use Rattle.vd_meaning.specs.Tables.{Table, table};
ghost use Rattle.vd_port_facts.specs.Reading.{read_ports};
ghost use Rattle.vd_port_facts.specs.Seeking.{are_lists as has_lists, lists_behind as trees_behind, lists_in_list as list_inside, lists_in_unit as unit_inside, lists_inside as trees_inside, port_seeker, ports_at, ports_by as ports_of_form};
ghost use Rattle.vd_port_facts.specs.Tables.{first_place};
ghost use Rattle.vd_value_rules.specs.Designs.{is_listed, ports_in};

use crate::names::names_of_first;
use std::alloc::{AllocError, Global};
use std::collections::HashMap;
use vd_declarations::{DeclId, Declaration, Declarations};
use vd_forest::{Cursor, Opened};
use vd_forms::Form;
use vd_function_names::numbers::numbers_of_first;
use vd_operations::is_present;
use vd_resolved::{Resolved, Tree};
use vd_trees::Revision;
use vd_walks::{Finding, find_all};

/// Ports that are declared together.
#[derive(Drop)]
pub struct ListedPorts {
    pub numbers: Declarations,
    pub has_default: bool,
    /// What their subtype names, in the order of the text.
    pub named: Declarations,
}

/// In which of the trees side by side, from this one on, ports are looked for.
#[derive(Clone, Copy)]
pub(crate) enum PortTrees {
    /// In each, as design units.
    Units,
    /// In one of them, which declares ports.
    ThirdList,
    SecondList,
    FirstList,
    /// In each, all of which declare ports.
    Lists,
    NoLists,
}

/// Whether the first tree declares ports.
fn are_lists(trees: PortTrees) -> bool
    ensures { result ≡ has_lists trees }
{
    match trees {
        PortTrees::FirstList => true,
        PortTrees::Lists => true,
        _ => false,
    }
}

/// For the next tree.
fn lists_behind(trees: PortTrees) -> PortTrees
    ensures { result ≡ trees_behind trees }
{
    match trees {
        PortTrees::Units => PortTrees::Units,
        PortTrees::ThirdList => PortTrees::SecondList,
        PortTrees::SecondList => PortTrees::FirstList,
        PortTrees::FirstList => PortTrees::NoLists,
        PortTrees::Lists => PortTrees::Lists,
        PortTrees::NoLists => PortTrees::NoLists,
    }
}

/// Inside a design unit only the ports of an entity are looked for.
fn lists_in_unit(form: Form) -> PortTrees
    ensures { result ≡ unit_inside form }
{
    match form {
        Form::EntityDeclaration => PortTrees::ThirdList,
        Form::ArchitectureBody
        | Form::PackageDeclaration
        | Form::PackageBody
        | Form::PackageInstantiation => PortTrees::NoLists,
        _ => PortTrees::Units,
    }
}

/// No port is declared inside one.
fn lists_in_list(form: Form) -> PortTrees
    ensures { result ≡ list_inside form }
{
    match form {
        Form::PortDeclaration | Form::ViewPort => PortTrees::NoLists,
        _ => PortTrees::Lists,
    }
}

/// In which of a node's parts ports are looked for.
fn lists_inside(trees: PortTrees, form: Form) -> PortTrees
    ensures { result ≡ trees_inside trees form }
{
    match trees {
        PortTrees::Units => lists_in_unit(form),
        PortTrees::FirstList => lists_in_list(form),
        PortTrees::Lists => lists_in_list(form),
        _ => PortTrees::NoLists,
    }
}

/// The ports with the names in the second of these parts, whose subtype is another of them.
fn ports_with(
    alloc: Global,
    has_default: bool,
    subtype: u32,
    parts: &Cursor<'_, Resolved>,
) -> Result<ListedPorts, AllocError>
    ensures { IfOk result (λ ports. (t : Table) → ports ≡ ports_at t has_default subtype parts.now) }
{
    let numbers = numbers_of_first(alloc, &parts.skip(1))?;
    let named = names_of_first(alloc, &parts.skip(subtype))?;
    Ok(ListedPorts {
        numbers: Declarations::of(numbers),
        has_default,
        named: Declarations::of(named),
    })
}

/// The ports that a node declares. Those with a view have no default.
fn ports_by(
    alloc: Global,
    form: Form,
    parts: &Cursor<'_, Resolved>,
) -> Result<Option<ListedPorts>, AllocError>
    ensures { IfOk result (λ ports. (t : Table) → ports ≡ ports_of_form form t parts.now) }
{
    match form {
        Form::PortDeclaration => {
            let ports = ports_with(alloc, is_present(&parts.skip(4)), 3, parts)?;
            Ok(Some(ports))
        }
        Form::ViewPort => {
            let ports = ports_with(alloc, false, 4, parts)?;
            Ok(Some(ports))
        }
        _ => Ok(None),
    }
}

/// The ports, by the declarations of a design.
#[derive(Clone, Copy)]
struct PortSeeker<'d> {
    revision: Revision,
    declarations: &'d [Declaration],
}

impl<'d> Finding<Resolved, PortTrees, ListedPorts> for PortSeeker<'d> {
    ghost finder = { λ by. port_seeker (table by.revision by.declarations.now) };

    fn answer(
        &self,
        alloc: Global,
        trees: &PortTrees,
        node: &Opened<'_, Resolved>,
    ) -> Result<Option<ListedPorts>, AllocError> {
        if are_lists(*trees) {
            ports_by(alloc, node.form.form, &node.parts)
        } else {
            Ok(None)
        }
    }

    fn down(
        &self,
        _alloc: Global,
        trees: &PortTrees,
        node: &Opened<'_, Resolved>,
    ) -> Result<PortTrees, AllocError> {
        Ok(lists_inside(*trees, node.form.form))
    }

    fn along(
        &self,
        _alloc: Global,
        trees: &PortTrees,
        _node: &Opened<'_, Resolved>,
    ) -> Result<PortTrees, AllocError> {
        Ok(lists_behind(*trees))
    }
}

/// The ports of all entities, in the order of the text.
pub fn listed_ports(
    alloc: Global,
    revision: Revision,
    tree: &Tree,
) -> Result<Vec<ListedPorts>, AllocError>
    ensures { IfOk result (λ ports. ports.items ≡ map read_ports (ports_in (units_of revision tree.now).units)) }
{
    let seeker = PortSeeker {
        revision,
        declarations: tree.declarations(),
    };
    let ports = find_all(alloc, &tree.cursor(), PortTrees::Units, &seeker)?;
    Ok(ports)
}

/// Puts a place for some ports in front of what is there.
fn put_place(
    places: &mut HashMap<u32, usize>,
    numbers: &[DeclId],
    place: usize,
) -> Result<(), AllocError>
    ensures { OnOk result ((n : ℕ) → get nat_eq places.new n ≡ (if is_listed n numbers.now then Some place else get nat_eq places.old n)) }
{
    for number in numbers {
        places.insert(number.number(), place)?;
    }
    Ok(())
}

/// The places of ports by their numbers. The last are put first, so that the first count.
pub(crate) fn ports_by_number(
    alloc: Global,
    ports: &[ListedPorts],
) -> Result<HashMap<u32, usize>, AllocError>
    ensures { IfOk result (λ places. (n : ℕ) → get nat_eq places n ≡ first_place 0 ports.now n) }
{
    let mut places = HashMap::new(alloc);
    let mut left = ports.len();
    while left > 0 {
        left -= 1;
        put_place(&mut places, ports[left].numbers.as_slice(), left)?;
    }
    Ok(places)
}
