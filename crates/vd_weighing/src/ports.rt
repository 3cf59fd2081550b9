//! Associations of ports, and instances of entities.

ghost use Rattle.std.specs.Prelude.{◌≡◌, IfOk, List};
ghost use Rattle.vd_declarations.specs.declared.declarations.Declaration.{Declaration};
ghost use Rattle.vd_weighing.specs.Weights.{formal_of, next_port as first_port, later_ports as other_ports, elements as elements_of, port_map as map_of, entity_instance as instance_of};
ghost use Rattle.vd_weighing.specs.Limits.{at_most};

use crate::names::{declared_at, members};
use crate::nodes::{nodes, nodes_of_first, own_weight};
use crate::numbers::{plus, product};
use crate::tables::Tables;
use std::alloc::{AllocError, Global};
use vd_declarations::{DeclId, Declaration};
use vd_forest::{Cursor, Opened};
use vd_forms::Form;
use vd_resolved::Resolved;

/// The port that an association is for: the one that it names, or the one in whose place it stands.
fn formal(node: &Opened<'_, Resolved>, placed: Option<DeclId>) -> Option<DeclId>
    ensures { (ds : List Declaration) → result ≡ formal_of ds node.now.form.form node.now.parts placed }
{
    match node.form.form {
        Form::Association => declared_at(&node.parts.parts()),
        _ => placed,
    }
}

/// The first of these ports.
fn next_port(ports: &[DeclId]) -> Option<DeclId>
    ensures { (ds : List Declaration) → result ≡ first_port ds ports.now }
{
    ports.first().copied()
}

/// The ports behind the first.
fn later_ports(ports: &[DeclId]) -> &[DeclId]
    ensures { (ds : List Declaration) → result.now ≡ other_ports ds ports.now }
{
    match ports {
        [] => ports,
        [_, later @ ..] => later,
    }
}

/// What associations weigh, the first of which stands in the place of the first port.
fn elements(
    alloc: Global,
    ports: &[DeclId],
    parts: &Cursor<'_, Resolved>,
    known: &Tables,
) -> Result<u64, AllocError>
    ensures { IfOk result (λ weight. (ds : List Declaration) → weight ≡ at_most (elements_of ds ports.now known.now parts.now)) }
{
    let mut weight = 0;
    let mut free = ports;
    let mut left = parts.fork();
    while let Some(first) = left.open() {
        let inner = nodes(alloc, &first.parts)?;
        let here = plus(own_weight(first.form.form), inner);
        let port = formal(&first, next_port(free));
        weight = plus(weight, product(here, known.times(port)));
        free = later_ports(free);
        left = first.next;
    }
    Ok(weight)
}

/// What the port map of an instance of an entity weighs.
fn port_map(
    alloc: Global,
    declarations: &[Declaration],
    entity: &Option<DeclId>,
    trees: &Cursor<'_, Resolved>,
    known: &Tables,
) -> Result<u64, AllocError>
    ensures { IfOk result (λ weight. weight ≡ at_most (map_of declarations.now entity.now known.now trees.now)) }
{
    match trees.open() {
        None => Ok(0),
        Some(first) => {
            let inner = elements(alloc, members(declarations, entity), &first.parts, known)?;
            Ok(plus(own_weight(first.form.form), inner))
        }
    }
}

/// What an instance of an entity weighs, given its parts.
pub(crate) fn entity_instance(
    alloc: Global,
    declarations: &[Declaration],
    parts: &Cursor<'_, Resolved>,
    known: &Tables,
) -> Result<u64, AllocError>
    ensures { IfOk result (λ weight. weight ≡ at_most (instance_of declarations.now parts.now known.now).weight) }
{
    let entity = nodes_of_first(alloc, parts)?;
    let architecture = nodes_of_first(alloc, &parts.skip(1))?;
    let generics = nodes_of_first(alloc, &parts.skip(2))?;
    let ports = port_map(
        alloc,
        declarations,
        &declared_at(parts),
        &parts.skip(3),
        known,
    )?;
    let named = plus(
        plus(own_weight(Form::EntityInstantiation), entity),
        architecture,
    );
    Ok(plus(plus(named, generics), ports))
}
