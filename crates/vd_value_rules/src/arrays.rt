//! Array types. (IEEE 1076, array types.)

ghost use Rattle.std.specs.Prelude.{◌≡◌, ◌≤◌, IfOk, List, length, ℕ};
ghost use Rattle.vd_environments.specs.Environments.{Field};
ghost use Rattle.vd_forest.specs.Store.{Extends, at};
ghost use Rattle.vd_value_rules.specs.Indicated.{all_but_first, array_indicated, first_indicated, indicated_in, made_of, static_of, texts_in};
ghost use Rattle.vd_value_rules.specs.Made.{Indicates, indexed_by, later_array as array_known_later, ranging};
ghost use Rattle.vd_value_rules.specs.Knowledge.{array_or_later};

use crate::nodes::{add_node, later_bounds, read_node};
use crate::parts::field;
use crate::{IndicatedForm, StaticSort};
use std::alloc::AllocError;
use vd_composites::{Bounds, ScalarSubtype, ScalarType};
use vd_forest::Store;

/// The node of an array.
pub(crate) fn array_form(
    index: ScalarSubtype,
    bounds: Option<Bounds>,
    known: StaticSort,
) -> IndicatedForm
    ensures { (texts : List (List ℕ)) (parts : List Field) →
        made_of result texts parts ≡ array_indicated index bounds (static_of known) (all_but_first texts) (first_indicated parts) }
{
    match bounds {
        None => IndicatedForm::Unbounded { index, known },
        Some(bounds) => IndicatedForm::Bounded {
            index,
            bounds,
            known,
        },
    }
}

/// An array subtype, with the literals of its index type.
#[tactic(auto, using(vd_forest::proofs::StoreLemmas::growing))]
pub fn array(
    store: &mut Store<IndicatedForm>,
    index: ScalarSubtype,
    bounds: Option<Bounds>,
    known: StaticSort,
    literals: u32,
    element: u32,
) -> Result<u32, AllocError>
    requires literals_in { literals ≤ length store.old }
    requires element_in { element ≤ length store.old }
    ensures indicates { IfOk result (λ number. Indicates store.new number
        (array_indicated index bounds (static_of known) (texts_in (at store.old literals)) (indicated_in (at store.old element)))) }
    ensures extends { Extends store.old store.new }
{
    let parts = field(store, b"", element, literals)?;
    let made = add_node(store, array_form(index, bounds, known), parts)?;
    Ok(made)
}

/// An array type whose bounds are known later.
fn later_array(
    store: &mut Store<IndicatedForm>,
    known: StaticSort,
    element: u32,
) -> Result<u32, AllocError>
    requires { element ≤ length store.old }
    ensures indicates { IfOk result (λ number. Indicates store.new number
        (array_known_later (static_of known) (indicated_in (at store.old element)))) }
    ensures extends { Extends store.old store.new }
{
    let index = ScalarSubtype {
        of_type: ScalarType::Integers,
        range: Bounds {
            left: -2147483647,
            right: 2147483647,
            down: false,
        },
    };
    array(
        store,
        index,
        Some(later_bounds()),
        known.later(),
        0,
        element,
    )
}

/// An array type of any bounds, by the subtype of its index. Where that isn't scalar, one that is known later.
pub fn array_of_any_bounds(
    store: &mut Store<IndicatedForm>,
    index: u32,
    known: StaticSort,
    element: u32,
) -> Result<u32, AllocError>
    requires index_in { index ≤ length store.old }
    requires element_in { element ≤ length store.old }
    ensures indicates { IfOk result (λ number. Indicates store.new number
        (array_or_later (indexed_by (indicated_in (at store.old index)) (indicated_in (at store.old element))) (static_of known) (indicated_in (at store.old element)))) }
    ensures extends { Extends store.old store.new }
{
    let node = read_node(store, index);
    match node.form {
        IndicatedForm::Scalar { subtype, range, .. } => array(
            store, subtype, None, range, node.parts, element,
        ),
        _ => later_array(store, known, element),
    }
}

/// An array type with a range, which is its index subtype and its bounds. Where the range isn't locally static, one that is known later.
pub fn array_with_range(
    store: &mut Store<IndicatedForm>,
    range: Option<ScalarSubtype>,
    literals: u32,
    known: StaticSort,
    element: u32,
) -> Result<u32, AllocError>
    requires literals_in { literals ≤ length store.old }
    requires element_in { element ≤ length store.old }
    ensures indicates { IfOk result (λ number. Indicates store.new number
        (array_or_later (ranging range (texts_in (at store.old literals)) (static_of known) (indicated_in (at store.old element))) (static_of known) (indicated_in (at store.old element)))) }
    ensures extends { Extends store.old store.new }
{
    match range {
        Some(index) => array(store, index, Some(index.range), known, literals, element),
        None => later_array(store, known, element),
    }
}
