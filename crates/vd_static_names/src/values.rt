//! Values and ranges that are no parts of objects.

ghost use Rattle.std.specs.Prelude.{◌≡◌, ◌&&◌, ℕ, List, Option, Some, true};
ghost use Rattle.vd_composites.specs.Composites.{Value as AnyValue};
ghost use Rattle.vd_composites.specs.declared.ranges.Bounds.{Bounds as Range};
ghost use Rattle.vd_environments.specs.Environments.{Env, Signals, Static};
ghost use Rattle.vd_environments.specs.Got.{Got};
ghost use Rattle.vd_forest.specs.Forest.{Forest};
ghost use Rattle.vd_value_rules.specs.Indicated.{static_of};
ghost use Rattle.vd_value_rules.specs.declared.forms.IndicatedForm.{IndicatedForm as Form};
ghost use Rattle.vd_meaning.specs.Names.{fresh as fresh_named, no_name as nothing_named};
ghost use Rattle.vd_static_values.specs.Entries.{IsFound};
ghost use Rattle.vd_static_values.specs.Names.{IsName};
ghost use Rattle.vd_static_names.specs.Known.{IsWithin};
ghost use Rattle.vd_static_names.specs.Values.{bounds_behind, known_value, range_named};
ghost use Rattle.vd_values.specs.declared.scalar.Scalar.{Scalar};

use vd_composites::{Bounds, Value};
use vd_static_values::{KnownName, NameSubtype, Ranging};
use vd_value_rules::StaticSort;

/// What is no object and no part of one.
pub(crate) fn own(
    value: Option<Value>,
    known: StaticSort,
    shape: Option<Bounds>,
    range: Ranging,
) -> KnownName
    ensures { result ≡ known_value value known shape range }
{
    KnownName {
        value,
        known,
        subtype: NameSubtype::Stored(0),
        has_subtype: false,
        shape,
        is_object: false,
        local_slices: true,
        is_mark: false,
        range,
        callee: None,
        is_signal: false,
        is_whole: false,
    }
}

/// What stands for nothing.
pub fn no_name() -> KnownName
    ensures within { (subtypes : List (Forest Form)) → IsWithin subtypes result }
    ensures named { (subtypes : List (Forest Form)) (e : Env) → IsName subtypes e result nothing_named }
{
    own(None, StaticSort::never(), None, Ranging::NoRange)
}

/// What stops is not locally static.
pub fn unless_stopped(known: StaticSort, is_found: bool) -> StaticSort
    ensures { result ≡ record { is_local = known.is_local && is_found; is_global = known.is_global } }
{
    StaticSort {
        is_local: known.is_local && is_found,
        is_global: known.is_global,
    }
}

/// The bounds of a value that is an array.
fn shape_of(value: &Option<Value>) -> Option<Bounds>
    ensures { (v : Got (AnyValue Scalar)) → IsFound value.now v → IsFound result (bounds_behind v) }
{
    match value {
        Some(value) => value.bounds(),
        None => None,
    }
}

/// A value of its own, which counts only where it is locally static.
pub fn fresh(value: Option<Value>, known: StaticSort) -> KnownName
    ensures within { (subtypes : List (Forest Form)) → IsWithin subtypes result }
    ensures named { (subtypes : List (Forest Form)) (e : Env) (v : Env → Got (AnyValue Scalar)) (m : Option ℕ) (kn : Env → Static) (inner : Env → Got (List Signals)) →
        static_of known ≡ kn e → ((kn e).is_local ≡ true → IsFound value (v e)) → IsName subtypes e result (fresh_named v m kn inner) }
{
    let shape = shape_of(&value);
    let known = unless_stopped(known, value.is_some());
    own(value, known, shape, Ranging::NoRange)
}

/// A range, which counts only where it is locally static.
pub fn range(range: Option<Bounds>, known: StaticSort) -> KnownName
    ensures within { (subtypes : List (Forest Form)) → IsWithin subtypes result }
    ensures named { (subtypes : List (Forest Form)) (e : Env) (r : Env → Got Range) (m : Option ℕ) (kn : Env → Static) (inner : Env → Got (List Signals)) →
        static_of known ≡ kn e → ((kn e).is_local ≡ true → IsFound range (r e)) → IsName subtypes e result (range_named r m kn inner) }
{
    let known = unless_stopped(known, range.is_some());
    own(None, known, None, Ranging::Range(range))
}
