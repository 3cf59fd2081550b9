//! Elements of a view.

ghost use Rattle.std.specs.Prelude.{◌≡◌, IfOk, OnOk};
ghost use Rattle.vd_forest.specs.Store.{Holds, Extends};
ghost use Rattle.vd_naming.specs.Units.{region_inside as inside_of_declaration};
ghost use Rattle.vd_naming.specs.Views.{element_named as named_element, missing_element as element_missing, names_of_elements, missing_elements, element_names as element_names_step};
ghost use Rattle.vd_name_entering.specs.Made.{IsMade};

use std::alloc::{AllocError, Global};
use vd_bytes::{Place, Refused};
use vd_declarations::{DeclId, RegionId, TypeId};
use vd_forest::{Cursor, Opened, Store};
use vd_forms::Form;
use vd_name_entering::{Made, add_named, add_node, found_inside};
use vd_name_rows::{At, Names, Sort};
use vd_naming::broken_if;
use vd_resolved::Resolved;
use vd_walks::lesser;

/// The region of the elements of a record type, where there is one.
fn elements_inside(names: &Names, viewed: &Option<TypeId>) -> Option<RegionId>
    ensures { result ≡ inside_of_declaration names.now viewed.now }
{
    match viewed {
        None => None,
        Some(mark) => names.inside_of(DeclId::of(mark.number())),
    }
}

/// The element that a record type has under a name.
fn element_named(
    alloc: Global,
    names: &Names,
    viewed: &Option<TypeId>,
    name: &[u8],
) -> Result<Option<DeclId>, AllocError>
    ensures { IfOk result (λ element. element ≡ named_element names.now viewed.now name.now) }
{
    let inside = elements_inside(names, viewed);
    found_inside(alloc, names, inside, Sort::Element, name)
}

/// What is refused where a record type has no element of a name.
fn missing_element(
    viewed: &Option<TypeId>,
    element: &Option<DeclId>,
    place: Place,
) -> Option<Refused>
    ensures { result ≡ element_missing viewed.now element.now place }
{
    if viewed.is_none() {
        return None;
    }
    broken_if(element.is_none(), 303, place)
}

/// Some elements, and what is refused of them.
#[derive(Clone, Copy)]
struct Listed {
    tree: u32,
    first: Option<Refused>,
}

/// The names of some elements of a record type.
#[tactic(auto, using(crate::proofs::ElementLemmas::element_added, vd_walks::proofs::OrderLaws::lesser_brackets, vd_forest::proofs::StoreLemmas::growing))]
fn elements(
    alloc: Global,
    names: &Names,
    viewed: &Option<TypeId>,
    list: &Cursor<'_, Form>,
    out: &mut Store<Resolved>,
) -> Result<Listed, AllocError>
    ensures holds { IfOk result (λ made. Holds out.new made.tree (names_of_elements names.now viewed.now list.now)) }
    ensures first { IfOk result (λ made. made.first ≡ missing_elements names.now viewed.now list.now) }
    ensures extends { Extends out.old out.new }
{
    let mut made = 0;
    let mut first = None;
    let mut left = list.fork();
    while let Some(node) = left.open() {
        let element = element_named(alloc, names, viewed, node.text)?;
        let missing = missing_element(viewed, &element, node.place);
        first = lesser(first, missing);
        made = add_named(alloc, element, &node, made, out)?;
        left = node.next;
    }
    let tree = out.turn(made, 0)?;
    Ok(Listed { tree, first })
}

/// The names of elements of the record type of the view that is declared.
pub fn element_names(
    alloc: Global,
    names: &Names,
    at: &At<'_>,
    node: &Opened<'_, Form>,
    out: &mut Store<Resolved>,
) -> Result<Made, AllocError>
    ensures is { IfOk result (λ made. IsMade out.new names.now made
        (element_names_step at.now names.now node.now.form node.now.text.now node.now.place node.now.parts)) }
    ensures at { OnOk result ((element_names_step at.now names.now node.now.form node.now.text.now node.now.place node.now.parts).at ≡ at.now) }
    ensures extends { Extends out.old out.new }
{
    let list = elements(alloc, names, &at.viewed, &node.parts, out)?;
    let tree = add_node(node, None, None, list.tree, out)?;
    Ok(Made {
        tree,
        first: list.first,
    })
}
