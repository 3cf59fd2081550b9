//! The elements of a port map so far, and one more: for a port, or for none.

ghost use Rattle.std.specs.Prelude.{◌≡◌, ◌≤◌, List, Some, IfOk, length};
ghost use Rattle.vd_forest.specs.Forest.{Forest, nothing, more};
ghost use Rattle.vd_forest.specs.Store.{Holds, Extends};
ghost use Rattle.vd_resolved.specs.declared.node.Resolved.{Resolved};
ghost use Rattle.vd_name_rows.specs.Designs.{Outcome};
ghost use Rattle.vd_naming.specs.Ports.{no_map, with_element as element_too, with_other as other_too, named_from_here as behind_name};
ghost use Rattle.vd_name_expressions.specs.Reads.{IsRead};
ghost use Rattle.vd_name_ports.specs.Maps.{seen_map, IsMapped};

use crate::instance::Instance;
use std::alloc::{AllocError, Global};
use vd_bytes::{Place, Refused};
use vd_declarations::DeclId;
use vd_forest::{Opened, Store};
use vd_forms::Form;
use vd_name_entering::unresolved_node;
use vd_name_expressions::Read;
use vd_name_maps::given::Given;
use vd_name_maps::names_of_expression;
use vd_naming::broken_if;
use vd_resolved::Resolved;
use vd_walks::lesser;

/// The elements of a port map so far: their trees, the last one first, the first rule that is broken, the ports that have an element, whether
/// each element is one of a port, and whether one has a name in front of `=>`.
#[derive(Drop)]
pub struct Mapped {
    pub trees: u32,
    pub first: Option<Refused>,
    pub given: Given,
    pub is_known: bool,
    pub is_named: bool,
}

/// No elements.
pub(crate) fn none_mapped(alloc: Global) -> Mapped
    ensures { (store : List (Forest Resolved)) → IsMapped store result no_map }
{
    Mapped {
        trees: 0,
        first: None,
        given: Given::new(alloc),
        is_known: true,
        is_named: false,
    }
}

/// An element for a port, at this place, and what is refused in it.
pub(crate) fn with_element(
    mapped: Mapped,
    port: DeclId,
    place: Place,
    read: Read,
    out: &mut Store<Resolved>,
) -> Result<Mapped, AllocError>
    requires mapped_in { mapped.trees ≤ length out.old }
    requires read_in { read.tree ≤ length out.old }
    ensures is { (o : Outcome) → IsRead out.old read o → IfOk result (λ made. IsMapped out.new made (element_too port place o (seen_map out.old mapped))) }
    ensures extends { Extends out.old out.new }
{
    let again = broken_if(mapped.given.has(port), 310, place);
    let trees = out.turn(read.tree, mapped.trees)?;
    let given = mapped.given.add(port)?;
    Ok(Mapped {
        trees,
        first: lesser(mapped.first, lesser(again, read.first)),
        given,
        is_known: mapped.is_known,
        is_named: mapped.is_named,
    })
}

/// An element for no port.
#[tactic(auto, using(vd_forest::proofs::StoreLemmas::growing))]
pub(crate) fn with_other(
    alloc: Global,
    instance: &Instance<'_, '_>,
    node: &Opened<'_, Form>,
    mapped: Mapped,
    out: &mut Store<Resolved>,
) -> Result<Mapped, AllocError>
    requires mapped_in { mapped.trees ≤ length out.old }
    ensures is { IfOk result (λ made. IsMapped out.new made
        (other_too instance.now.at.now instance.now.names.now node.now.place (more node.now.form node.now.text.now node.now.place node.now.parts nothing)
        (seen_map out.old mapped))) }
    ensures extends { Extends out.old out.new }
{
    let inner = names_of_expression(alloc, instance.names, instance.at, node)?;
    let tree = unresolved_node(alloc, node, out)?;
    let trees = out.turn(tree, mapped.trees)?;
    let refused = Refused {
        place: node.place,
        rule: 310,
    };
    Ok(Mapped {
        trees,
        first: lesser(mapped.first, lesser(Some(refused), inner)),
        given: mapped.given,
        is_known: false,
        is_named: mapped.is_named,
    })
}

/// None stands for a place from here on.
pub(crate) fn named_from_here(mapped: Mapped) -> Mapped
    ensures trees { result.trees ≡ mapped.trees }
    ensures is { (store : List (Forest Resolved)) → seen_map store result ≡ behind_name (seen_map store mapped) }
{
    Mapped {
        trees: mapped.trees,
        first: mapped.first,
        given: mapped.given,
        is_known: mapped.is_known,
        is_named: true,
    }
}
