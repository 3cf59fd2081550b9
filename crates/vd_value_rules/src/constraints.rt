//! Subtypes with a constraint, and without one. (IEEE 1076, subtype declarations.)

ghost use Rattle.std.specs.Prelude.{◌≡◌, ◌≤◌, IfOk, List, OnErr, length, ℕ};
ghost use Rattle.vd_composites.specs.Scalars.{whole_range as all_values};
ghost use Rattle.vd_environments.specs.Environments.{Field};
ghost use Rattle.vd_forest.specs.Store.{Extends, at};
ghost use Rattle.vd_value_rules.specs.Indicated.{all_but_first, array_indicated, first_indicated, indicated_in, made_of, static_of};
ghost use Rattle.vd_value_rules.specs.Made.{Indicates, narrowed_by, narrowed_for, scalar_indicated, within_range};
ghost use Rattle.vd_value_rules.specs.Nodes.{IsOfSubtype};
ghost use Rattle.vd_value_rules.specs.Knowledge.{widened as with_all_values};

use crate::arrays::array_form;
use crate::nodes::{add_node, later_bounds, read_node};
use crate::subtypes::is_resolved;
use crate::{IndicatedForm, StaticSort};
use std::alloc::AllocError;
use vd_composites::{Bounds, ScalarSubtype, ScalarType};
use vd_forest::Store;

/// A range, where it lies within another.
fn within(whole: Bounds, range: Option<Bounds>) -> Option<Bounds>
    ensures { result ≡ within_range whole range }
{
    let range = range?;
    if whole.covers(range) {
        Some(range)
    } else {
        None
    }
}

/// The node of a scalar subtype with a constraint.
fn narrowed_scalar(
    subtype: ScalarSubtype,
    is_resolved: bool,
    own: StaticSort,
    range: Option<Bounds>,
    known: StaticSort,
) -> IndicatedForm
    ensures { (texts : List (List ℕ)) (parts : List Field) →
        made_of result texts parts ≡ narrowed_by range (static_of known) (scalar_indicated subtype texts is_resolved (static_of own)) }
{
    match within(subtype.range, range) {
        Some(range) => IndicatedForm::Scalar {
            subtype: ScalarSubtype {
                of_type: subtype.of_type,
                range,
            },
            is_resolved,
            range: known.both(own),
        },
        None => IndicatedForm::Scalar {
            subtype,
            is_resolved,
            range: known.later().both(own),
        },
    }
}

/// The node of an array of any bounds with a constraint.
fn narrowed_array(
    index: ScalarSubtype,
    own: StaticSort,
    range: Option<Bounds>,
    known: StaticSort,
) -> IndicatedForm
    ensures { (texts : List (List ℕ)) (parts : List Field) →
        made_of result texts parts ≡ narrowed_by range (static_of known) (array_indicated index None (static_of own) (all_but_first texts) (first_indicated parts)) }
{
    match within(index.range, range) {
        Some(range) => array_form(index, Some(range), known.both(own)),
        None => array_form(index, Some(later_bounds()), known.later().both(own)),
    }
}

/// The node of a subtype with a constraint.
fn narrowed_form(form: IndicatedForm, range: Option<Bounds>, known: StaticSort) -> IndicatedForm
    requires { IsOfSubtype form }
    ensures { (texts : List (List ℕ)) (parts : List Field) →
        made_of result texts parts ≡ narrowed_by range (static_of known) (made_of form texts parts) }
{
    match form {
        IndicatedForm::Scalar {
            subtype,
            is_resolved,
            range: own,
        } => narrowed_scalar(subtype, is_resolved, own, range, known),
        IndicatedForm::Unbounded { index, known: own } => narrowed_array(index, own, range, known),
        IndicatedForm::Bounded {
            index,
            known: own,
            ..
        } => { array_form(index, Some(later_bounds()), known.later().both(own)) }
        IndicatedForm::Record => IndicatedForm::Record,
        IndicatedForm::Literal => IndicatedForm::Literal,
    }
}

/// A subtype with a constraint, of which only the node is new. It has the range where that is locally static, and else is known later.
pub fn narrowed(
    store: &mut Store<IndicatedForm>,
    subtype: u32,
    range: Option<Bounds>,
    known: StaticSort,
) -> Result<u32, AllocError>
    requires { subtype ≤ length store.old }
    ensures indicates { IfOk result (λ number. Indicates store.new number
        (narrowed_by range (static_of known) (indicated_in (at store.old subtype)))) }
    ensures extends { Extends store.old store.new }
    ensures unchanged { OnErr result (store.new ≡ store.old) }
{
    let node = read_node(store, subtype);
    add_node(store, narrowed_form(node.form, range, known), node.parts)
}

/// The range of all values of a type.
fn whole_range(of_type: ScalarType) -> Bounds
    ensures { result ≡ all_values of_type }
{
    let (left, right) = match of_type {
        ScalarType::Integers => (-2147483647, 2147483647),
        ScalarType::Enumeration(count) => (0, i64::from(count) - 1),
        ScalarType::Times => (0, i64::MAX),
    };
    Bounds {
        left,
        right,
        down: false,
    }
}

/// The node of a subtype with all values of its type.
fn widened_form(form: IndicatedForm) -> IndicatedForm
    requires { IsOfSubtype form }
    ensures { (texts : List (List ℕ)) (parts : List Field) → made_of result texts parts ≡ with_all_values (made_of form texts parts) }
{
    match form {
        IndicatedForm::Scalar {
            subtype,
            is_resolved,
            ..
        } => IndicatedForm::Scalar {
            subtype: ScalarSubtype {
                of_type: subtype.of_type,
                range: whole_range(subtype.of_type),
            },
            is_resolved,
            range: StaticSort::always(),
        },
        _ => form,
    }
}

/// A subtype with all values of its type.
pub fn widened(store: &mut Store<IndicatedForm>, subtype: u32) -> Result<u32, AllocError>
    requires { subtype ≤ length store.old }
    ensures indicates { IfOk result (λ number. Indicates store.new number (with_all_values (indicated_in (at store.old subtype)))) }
    ensures extends { Extends store.old store.new }
    ensures unchanged { OnErr result (store.new ≡ store.old) }
{
    let node = read_node(store, subtype);
    add_node(store, widened_form(node.form), node.parts)
}

/// A subtype with a constraint, for choices or else. For choices a resolved one has all values of its type.
pub fn narrowed_for_choices(
    store: &mut Store<IndicatedForm>,
    choosing: bool,
    subtype: u32,
    range: Option<Bounds>,
    known: StaticSort,
) -> Result<u32, AllocError>
    requires { subtype ≤ length store.old }
    ensures indicates { IfOk result (λ number. Indicates store.new number
        (narrowed_for choosing range (static_of known) (indicated_in (at store.old subtype)))) }
    ensures extends { Extends store.old store.new }
    ensures unchanged { OnErr result (store.new ≡ store.old) }
{
    if choosing && is_resolved(&store.cursor(subtype)) {
        widened(store, subtype)
    } else {
        narrowed(store, subtype, range, known)
    }
}
