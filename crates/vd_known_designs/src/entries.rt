//! Entries of declarations.

ghost use Rattle.std.specs.Prelude.{◌≡◌, ◌≤◌, IfOk, None, length, true};
ghost use Rattle.vd_composites.specs.Composites.{One, Value as AnyValue, bounds_of};
ghost use Rattle.vd_forest.specs.Store.{at};
ghost use Rattle.vd_value_rules.specs.Indicated.{indicated_in, static_of};
ghost use Rattle.vd_known_designs.specs.Denoted.{signal_denoted, subtype_denoted};
ghost use Rattle.vd_meaning.specs.Tables.{Table};
ghost use Rattle.vd_static_values.specs.Entries.{IsEntry, no_entry};
ghost use Rattle.vd_values.specs.declared.scalar.Scalar.{Scalar as AnyScalar};
ghost use Rattle.vd_values.specs.declared.scalar.Scalar.TheVariants.{Literal};

use crate::SubtypeTables;
use crate::shapes::signals_shape;
use crate::slots::Unknown;
use std::alloc::{AllocError, Global};
use vd_composites::{Bounds, Value};
use vd_forest::Cursor;
use vd_resolved::Resolved;
use vd_static_values::Entry;
use vd_value_rules::StaticSort;
use vd_values::Scalar;

/// Any value, where none counts.
fn any_value(alloc: Global) -> Result<Value, AllocError>
    ensures { IfOk result (λ v. v ≡ One (Literal 0)) }
{
    Value::scalar(alloc, Scalar::Literal(0))
}

impl Unknown for Entry {
    ghost unknown = { no_entry };

    fn make(alloc: Global) -> Result<Entry, AllocError> {
        let value = any_value(alloc)?;
        Ok(Entry {
            value,
            known: StaticSort::never(),
            subtype: 0,
            bounds: StaticSort::never(),
            shape: None,
            is_signal: false,
            operator: None,
        })
    }
}

impl Unknown for u32 {
    ghost unknown = { 0 };

    fn make(_alloc: Global) -> Result<u32, AllocError> {
        Ok(0)
    }
}

impl<'a> Unknown for Option<Cursor<'a, Resolved>> {
    ghost unknown = { None };

    fn make(_alloc: Global) -> Result<Option<Cursor<'a, Resolved>>, AllocError> {
        Ok(None)
    }
}

/// The entry of an object of a subtype. The value counts where it is locally static.
pub(crate) fn object_entry(
    alloc: Global,
    subtypes: &mut SubtypeTables,
    subtype: u32,
    value: Option<Value>,
    known: StaticSort,
    shape: Option<Bounds>,
) -> Result<Entry, AllocError>
    requires { subtype ≤ length subtypes.old }
    ensures is { IfOk result (λ x. (t : Table) (v : AnyValue AnyScalar) → (known.is_local ≡ true → value ≡ Some v) → bounds_of v ≡ shape →
        IsEntry subtypes.old t x (record (subtype_denoted (indicated_in (at subtypes.old subtype))) { value = v; known = static_of known })) }
    ensures same { subtypes.new ≡ subtypes.old }
{
    let bounds = subtypes.all_bounds(subtype)?;
    let value = match value {
        Some(value) => value,
        None => any_value(alloc)?,
    };
    Ok(Entry {
        value,
        known,
        subtype,
        bounds,
        shape,
        is_signal: false,
        operator: None,
    })
}

/// The entry of a type or a subtype.
pub(crate) fn type_entry(
    alloc: Global,
    subtypes: &mut SubtypeTables,
    subtype: u32,
) -> Result<Entry, AllocError>
    requires { subtype ≤ length subtypes.old }
    ensures is { IfOk result (λ x. (t : Table) → IsEntry subtypes.old t x (subtype_denoted (indicated_in (at subtypes.old subtype)))) }
    ensures same { subtypes.new ≡ subtypes.old }
{
    let bounds = subtypes.all_bounds(subtype)?;
    let value = any_value(alloc)?;
    Ok(Entry {
        value,
        known: StaticSort::never(),
        subtype,
        bounds,
        shape: None,
        is_signal: false,
        operator: None,
    })
}

/// The entry of a signal of a subtype.
pub(crate) fn signal_entry(
    alloc: Global,
    subtypes: &mut SubtypeTables,
    subtype: u32,
) -> Result<Entry, AllocError>
    requires { subtype ≤ length subtypes.old }
    ensures is { IfOk result (λ x. (t : Table) → IsEntry subtypes.old t x (signal_denoted (indicated_in (at subtypes.old subtype)))) }
    ensures same { subtypes.new ≡ subtypes.old }
{
    let bounds = subtypes.all_bounds(subtype)?;
    let shape = signals_shape(&subtypes.store().cursor(subtype));
    let value = any_value(alloc)?;
    Ok(Entry {
        value,
        known: StaticSort::never(),
        subtype,
        bounds,
        shape,
        is_signal: true,
        operator: None,
    })
}
