//! What the elements of a map come to.

ghost use Rattle.std.specs.Prelude.{◌≡◌, ◌≤◌, ◌∷◌, [], Some, map, IfOk, length};
ghost use Rattle.vd_forest.specs.Forest.{nothing, more, with_next};
ghost use Rattle.vd_forest.specs.Store.{Extends};
ghost use Rattle.vd_naming.specs.Generics.{in_element as outcome_in_element, element_outcome as outcome_of_element, elements_outcome as outcome_of_elements};
ghost use Rattle.vd_name_actuals.specs.Seen.{seen_known};
ghost use Rattle.vd_name_maps.specs.Seen.{seen_element};
ghost use Rattle.vd_name_rows.specs.Designs.{Design, Outcome};
ghost use Rattle.vd_name_entering.specs.Made.{IsMade};
ghost use Rattle.vd_name_maps.specs.Kinds.{for_no_generic, for_one_generic};

use crate::Element;
use crate::associations::{association_node, named_front, names_of_expression};
use std::alloc::{AllocError, Global};
use vd_bytes::Refused;
use vd_declarations::DeclId;
use vd_forest::{Cursor, Opened, Store};
use vd_forms::Form;
use vd_name_actuals::{Known, outcome_for};
use vd_name_entering::{Made, alone, unresolved_node};
use vd_name_rows::{At, Names};
use vd_resolved::Resolved;
use vd_walks::lesser;

/// The actual of a generic in its element, which may be an association.
#[tactic(auto, using(vd_forest::proofs::StoreLemmas::growing))]
fn in_element(
    alloc: Global,
    generic: DeclId,
    node: &Opened<'_, Form>,
    actual: Made,
    out: &mut Store<Resolved>,
) -> Result<Made, AllocError>
    requires { actual.tree ≤ length out.old }
    ensures is { (d : Design) (o : Outcome) → IsMade out.old d actual o
        → IfOk result (λ made. IsMade out.new d made (outcome_in_element generic node.now.form node.now.place node.now.parts o)) }
    ensures extends { Extends out.old out.new }
{
    if !matches!(node.form, Form::Association) {
        return Ok(actual);
    }
    let front = named_front(alloc, generic, &node.parts.parts(), out)?;
    let tree = association_node(node.place, &node.parts, front, actual.tree, out)?;
    Ok(Made {
        tree,
        first: actual.first,
    })
}

/// An element that is for no generic.
#[tactic(auto, using(vd_forest::proofs::StoreLemmas::growing))]
fn for_none(
    alloc: Global,
    names: &Names,
    at: &At<'_>,
    node: &Opened<'_, Form>,
    out: &mut Store<Resolved>,
) -> Result<Made, AllocError>
    ensures is { IfOk result (λ made. IsMade out.new names.now made
        (for_no_generic at.now names.now node.now.form node.now.text.now node.now.place node.now.parts)) }
    ensures extends { Extends out.old out.new }
{
    let inner = names_of_expression(alloc, names, at, node)?;
    let tree = unresolved_node(alloc, node, out)?;
    let refused = Refused {
        place: node.place,
        rule: 309,
    };
    Ok(Made {
        tree,
        first: lesser(Some(refused), inner),
    })
}

/// An element that is for a generic.
fn for_generic(
    alloc: Global,
    known: &Known<'_, '_>,
    at: &At<'_>,
    generic: DeclId,
    actual: &Cursor<'_, Form>,
    node: &Opened<'_, Form>,
    out: &mut Store<Resolved>,
) -> Result<Made, AllocError>
    ensures is { IfOk result (λ made. IsMade out.new known.now.names.now made
        (for_one_generic generic at.now known.now.names.now (seen_known known.now) (with_next actual.now nothing)
        node.now.form node.now.text.now node.now.place node.now.parts)) }
    ensures extends { Extends out.old out.new }
{
    let mut single = Store::new(alloc);
    let number = alone(actual, &mut single)?;
    let tree = single.cursor(number);
    let made = outcome_for(alloc, known, at, generic, node.place, &tree, out)?;
    in_element(alloc, generic, node, made, out)
}

/// An element of a map.
fn element_outcome(
    alloc: Global,
    known: &Known<'_, '_>,
    at: &At<'_>,
    element: &Element<'_>,
    node: &Opened<'_, Form>,
    out: &mut Store<Resolved>,
) -> Result<Made, AllocError>
    ensures is { IfOk result (λ made. IsMade out.new known.now.names.now made
        (outcome_of_element element.now.generic at.now known.now.names.now (seen_known known.now) (with_next element.now.actual nothing)
        node.now.form node.now.text.now node.now.place node.now.parts)) }
    ensures extends { Extends out.old out.new }
{
    match element.generic {
        None => for_none(alloc, known.names, at, node, out),
        Some(generic) => for_generic(alloc, known, at, generic, &element.actual, node, out),
    }
}

/// The elements of a map, each with its tree.
#[tactic(auto, using(vd_forest::proofs::StoreLemmas::growing))]
pub fn elements_outcome(
    alloc: Global,
    known: &Known<'_, '_>,
    at: &At<'_>,
    elements: &[Element<'_>],
    parts: &Cursor<'_, Form>,
    out: &mut Store<Resolved>,
) -> Result<Made, AllocError>
    ensures is { IfOk result (λ made. IsMade out.new known.now.names.now made
        (outcome_of_elements at.now known.now.names.now (seen_known known.now) (map seen_element elements.now) parts.now)) }
    ensures extends { Extends out.old out.new }
{
    let mut trees = 0;
    let mut first = None;
    let mut left = parts.fork();
    for element in elements {
        match left.open() {
            Some(node) => {
                let made = element_outcome(alloc, known, at, element, &node, out)?;
                trees = out.turn(made.tree, trees)?;
                first = lesser(first, made.first);
                left = node.next;
            }
            None => {}
        }
    }
    let tree = out.turn(trees, 0)?;
    Ok(Made { tree, first })
}
