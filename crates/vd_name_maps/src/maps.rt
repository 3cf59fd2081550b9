//! Generic maps.

ghost use Rattle.std.specs.Prelude.{◌≡◌, Some, IfOk, OnOk};
ghost use Rattle.vd_forest.specs.Forest.{nothing, more};
ghost use Rattle.vd_forest.specs.Store.{Extends};
ghost use Rattle.vd_naming.specs.Generics.{map_between as map_with, map_of as map_for, generic_map as generic_map_step};
ghost use Rattle.vd_naming.specs.Associations.{elements as elements_of};
ghost use Rattle.vd_name_entering.specs.Made.{IsMade};

use crate::Elements;
use crate::functions::with_functions;
use crate::inside::elements_outcome;
use crate::missing::missing_generic;
use crate::types::types_given;
use std::alloc::{AllocError, Global};
use vd_declarations::DeclId;
use vd_forest::{Opened, Store};
use vd_forms::Form;
use vd_name_actuals::{Known, StandIns};
use vd_name_entering::{Made, add_node, unresolved_node};
use vd_name_rows::{Actual, At, Names};
use vd_resolved::Resolved;
use vd_walks::lesser;

/// What a map comes to, with the actuals of its types and functions.
#[derive(Drop)]
struct Mapped {
    made: Made,
    actuals: Vec<Actual>,
}

/// A map whose elements are for some of these generics.
fn map_between(
    alloc: Global,
    names: &Names,
    at: &At<'_>,
    generics: &[DeclId],
    elements: &Elements<'_>,
    node: &Opened<'_, Form>,
    out: &mut Store<Resolved>,
) -> Result<Mapped, AllocError>
    ensures is { IfOk result (λ mapped. IsMade out.new names.now mapped.made
        (map_with generics.now elements.now at.now names.now node.now.form node.now.text.now node.now.place node.now.parts)) }
    ensures actuals { IfOk result (λ mapped. record at.now { actuals = mapped.actuals.items }
        ≡ (map_with generics.now elements.now at.now names.now node.now.form node.now.text.now node.now.place node.now.parts).at) }
    ensures extends { Extends out.old out.new }
{
    let place = names.surroundings(at)?;
    let types = types_given(alloc, names, at, elements.as_slice())?;
    let stand_ins = StandIns::of(alloc, generics, types.as_slice())?;
    let known = Known {
        names,
        place: &place,
        stand_ins: &stand_ins,
    };
    let inner = elements_outcome(alloc, &known, at, elements.as_slice(), &node.parts, out)?;
    let missing = missing_generic(alloc, &known, at, generics, elements)?;
    let actuals = with_functions(alloc, &known, generics, elements, types)?;
    let tree = add_node(node, None, None, inner.tree, out)?;
    let made = Made {
        tree,
        first: lesser(inner.first, missing),
    };
    Ok(Mapped { made, actuals })
}

/// A map of what has this declaration.
fn map_of(
    alloc: Global,
    names: &Names,
    at: &At<'_>,
    owner: DeclId,
    node: &Opened<'_, Form>,
    out: &mut Store<Resolved>,
) -> Result<Mapped, AllocError>
    ensures is { IfOk result (λ mapped. IsMade out.new names.now mapped.made
        (map_for (Some owner) at.now names.now node.now.form node.now.text.now node.now.place node.now.parts)) }
    ensures actuals { IfOk result (λ mapped. record at.now { actuals = mapped.actuals.items }
        ≡ (map_for (Some owner) at.now names.now node.now.form node.now.text.now node.now.place node.now.parts).at) }
    ensures extends { Extends out.old out.new }
{
    let elements = Elements::of(alloc, names, owner, &node.parts)?;
    map_between(
        alloc,
        names,
        at,
        names.generics_of(owner),
        &elements,
        node,
        out,
    )
}

/// The generic map of what was named last. Behind it the actuals of its types and functions are known, in the order of the elements and then of
/// the generics; there are none where it isn't known what is instantiated.
pub fn generic_map(
    alloc: Global,
    names: &Names,
    at: &mut At<'_>,
    node: &Opened<'_, Form>,
    out: &mut Store<Resolved>,
) -> Result<Made, AllocError>
    ensures is { IfOk result (λ made. IsMade out.new names.now made
        (generic_map_step at.old names.now node.now.form node.now.text.now node.now.place node.now.parts)) }
    ensures at { OnOk result (at.new
        ≡ (generic_map_step at.old names.now node.now.form node.now.text.now node.now.place node.now.parts).at) }
    ensures extends { Extends out.old out.new }
{
    let Some(owner) = at.named else {
        let tree = unresolved_node(alloc, node, out)?;
        at.actuals = Vec::new(alloc);
        return Ok(Made { tree, first: None });
    };
    let mapped = map_of(alloc, names, at, owner, node, out)?;
    at.actuals = mapped.actuals;
    Ok(mapped.made)
}
