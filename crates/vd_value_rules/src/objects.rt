//! Subtypes of slices, and of objects whose values give their bounds.

ghost use Rattle.std.specs.Prelude.{◌≡◌, ◌≤◌, ◌&&◌, IfOk, OnErr, length};
ghost use Rattle.vd_forest.specs.Store.{Extends, at};
ghost use Rattle.vd_value_rules.specs.Indicated.{indicated_in, static_of};
ghost use Rattle.vd_value_rules.specs.Made.{Indicates, object_of, slice_of};

use crate::nodes::{add_node, read_node};
use crate::{IndicatedForm, StaticSort};
use std::alloc::AllocError;
use vd_composites::Bounds;
use vd_forest::Store;

/// How static the bounds of a slice are: in elaboration they are known only where those of the whole are.
fn sliced(known: StaticSort, whole: StaticSort) -> StaticSort
    ensures { static_of result ≡ record { is_local = known.is_local; is_global = known.is_global && whole.is_global } }
{
    StaticSort {
        is_local: known.is_local,
        is_global: known.is_global && whole.is_global,
    }
}

/// The subtype of a slice with such bounds.
#[tactic(auto, using(vd_forest::proofs::StoreLemmas::growing))]
pub fn slice(
    store: &mut Store<IndicatedForm>,
    subtype: u32,
    bounds: Bounds,
    known: StaticSort,
) -> Result<u32, AllocError>
    requires { subtype ≤ length store.old }
    ensures indicates { IfOk result (λ number. Indicates store.new number
        (slice_of bounds (static_of known) (indicated_in (at store.old subtype)))) }
    ensures extends { Extends store.old store.new }
    ensures unchanged { OnErr result (store.new ≡ store.old) }
{
    let node = read_node(store, subtype);
    let (index, whole) = match node.form {
        IndicatedForm::Unbounded { index, known } => (index, known),
        IndicatedForm::Bounded { index, known, .. } => (index, known),
        _ => return Ok(0),
    };
    let known = sliced(known, whole);
    let form = IndicatedForm::Bounded {
        index,
        bounds,
        known,
    };
    add_node(store, form, node.parts)
}

/// The subtype of an object. Where it has no bounds, its value gives them, and they aren't known when the text is analysed.
#[tactic(auto, using(vd_forest::proofs::StoreLemmas::growing))]
pub fn object_subtype(store: &mut Store<IndicatedForm>, subtype: u32) -> Result<u32, AllocError>
    requires { subtype ≤ length store.old }
    ensures indicates { IfOk result (λ number. Indicates store.new number (object_of (indicated_in (at store.old subtype)))) }
    ensures extends { Extends store.old store.new }
    ensures unchanged { OnErr result (store.new ≡ store.old) }
{
    let node = read_node(store, subtype);
    match node.form {
        IndicatedForm::Unbounded { index, known } => {
            let form = IndicatedForm::Unbounded {
                index,
                known: known.only_global(),
            };
            add_node(store, form, node.parts)
        }
        _ => Ok(subtype),
    }
}
