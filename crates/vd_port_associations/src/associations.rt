//! The elements of port maps.

ghost use Rattle.std.specs.Prelude.{◌≡◌, IfOk, List, ℕ};
ghost use Rattle.vd_port_associations.specs.Associations.{AreAssociations, IsAssociation, read_formal};
ghost use Rattle.vd_port_associations.specs.Numbers.{Holds};
ghost use Rattle.vd_port_modes.specs.Source.{design_in};
ghost use Rattle.vd_value_rules.specs.Actuals.{association_of as association_as, associations as all_associations, positional_port};

use crate::formals::{FormalSort, formal_sort};
use crate::numbers::NumberSet;
use std::alloc::{AllocError, Global};
use vd_bytes::Place;
use vd_contexts::elements::{behind_formal, next_formal};
use vd_declarations::DeclId;
use vd_forest::{Cursor, Opened};
use vd_forms::Form;
use vd_port_modes::Interfaces;
use vd_resolved::Resolved;

/// An element of a port map.
#[derive(Drop)]
pub struct PortAssociation<'a> {
    pub place: Place,
    pub formal: FormalSort,
    /// The actual, the first of these trees.
    pub actual: Cursor<'a, Resolved>,
}

/// What an element without `=>` is for, where the next port is this.
fn positional(port: Option<DeclId>) -> FormalSort
    ensures { read_formal result ≡ positional_port port }
{
    match port {
        Some(port) => FormalSort::WholePort { port },
        None => FormalSort::NoFormal,
    }
}

/// The first of some elements, where the next port is this.
fn association_of<'a>(
    alloc: Global,
    interfaces: &Interfaces<'_>,
    ports: &NumberSet,
    next: Option<DeclId>,
    elements: &Cursor<'a, Resolved>,
    first: &Opened<'a, Resolved>,
) -> Result<PortAssociation<'a>, AllocError>
    ensures { (ns : List ℕ) → Holds ports.now ns
        → IfOk result (λ x. IsAssociation x (association_as first.now.form.form (design_in interfaces.now) ns next first.now.place elements.now first.now.parts)) }
{
    match first.form.form {
        Form::Association => Ok(PortAssociation {
            place: first.place,
            formal: formal_sort(alloc, interfaces, ports, &first.parts.parts())?,
            actual: first.parts.skip(1),
        }),
        Form::OthersAssociation => Ok(PortAssociation {
            place: first.place,
            formal: FormalSort::NoFormal,
            actual: first.parts.fork(),
        }),
        _ => Ok(PortAssociation {
            place: first.place,
            formal: positional(next),
            actual: elements.fork(),
        }),
    }
}

/// The elements of a port map for these ports, in order.
pub fn port_associations<'a>(
    alloc: Global,
    interfaces: &Interfaces<'_>,
    ports: &[DeclId],
    elements: &Cursor<'a, Resolved>,
) -> Result<Vec<PortAssociation<'a>>, AllocError>
    ensures { IfOk result (λ xs. AreAssociations xs.items (all_associations (design_in interfaces.now) ports.now ports.now elements.now)) }
{
    let set = NumberSet::of(alloc, ports)?;
    let mut made = Vec::new(alloc);
    let mut rest = elements.fork();
    let mut at = 0;
    while let Some(first) = rest.open() {
        let next = next_formal(ports, at);
        let association = association_of(alloc, interfaces, &set, next, &rest, &first)?;
        made.push(association)?;
        at = behind_formal(ports, at);
        rest = first.next;
    }
    Ok(made)
}
