//! First pieces of names, and selected names of declarations. (IEEE 1076, names: simple and selected names.)

ghost use Rattle.std.specs.Prelude.{◌≡◌, ℕ, Option, IfOk, true};
ghost use Rattle.vd_composites.specs.Composites.{One};
ghost use Rattle.vd_environments.specs.Environments.{Env};
ghost use Rattle.vd_value_rules.specs.Indicated.{static_of};
ghost use Rattle.vd_meaning.specs.Names.{constant, literal as literal_named, literal_known as known_of_literal, mark_of, signal as signal_named, variable};
ghost use Rattle.vd_static_values.specs.Entries.{IsGround};
ghost use Rattle.vd_static_values.specs.Names.{IsName};
ghost use Rattle.vd_static_names.specs.Known.{HasSubtypes, IsWithin};
ghost use Rattle.vd_values.specs.declared.scalar.Scalar.TheVariants.{Literal as LiteralAt};

use crate::grounds::{early_value, known_of, signal_shape, subtype_of, value_shape};
use crate::subtypes::range_of;
use crate::values::own;
use std::alloc::{AllocError, Global};
use vd_composites::Value;
use vd_declarations::TypeId;
use vd_static_values::{Ground, KnownName, NameSubtype, Ranging};
use vd_value_rules::StaticSort;
use vd_value_rules::array_facts::array_bounds;
use vd_value_rules::subtypes::own_bounds;
use vd_values::Scalar;

/// A constant, a variable or a parameter.
pub fn object(alloc: Global, ground: &Ground<'_>, number: u32) -> Result<KnownName, AllocError>
    requires { HasSubtypes ground.now }
    ensures within { IfOk result (IsWithin ground.now.subtypes.now) }
    ensures constant { (e : Env) (m : Option ℕ) → IsGround ground.now e → IfOk result (λ x. IsName ground.now.subtypes.now e x (constant number m)) }
    ensures variable { (e : Env) (m : Option ℕ) → IsGround ground.now e → IfOk result (λ x. IsName ground.now.subtypes.now e x (variable number m)) }
{
    let value = early_value(alloc, ground, number)?;
    Ok(KnownName {
        value,
        known: known_of(ground, number),
        subtype: NameSubtype::Stored(subtype_of(ground, number)),
        has_subtype: true,
        shape: value_shape(ground, number),
        is_object: true,
        local_slices: true,
        is_mark: false,
        range: Ranging::NoRange,
        callee: None,
        is_signal: false,
        is_whole: false,
    })
}

/// A signal or a port.
pub fn signal(ground: &Ground<'_>, number: u32) -> KnownName
    requires { HasSubtypes ground.now }
    ensures within { IsWithin ground.now.subtypes.now result }
    ensures named { (e : Env) (m : Option ℕ) → IsGround ground.now e → IsName ground.now.subtypes.now e result (signal_named number m) }
{
    KnownName {
        value: None,
        known: StaticSort::never(),
        subtype: NameSubtype::Stored(subtype_of(ground, number)),
        has_subtype: true,
        shape: signal_shape(ground, number),
        is_object: true,
        local_slices: true,
        is_mark: false,
        range: Ranging::NoRange,
        callee: None,
        is_signal: true,
        is_whole: true,
    }
}

/// A type or subtype.
pub fn mark(ground: &Ground<'_>, number: u32) -> KnownName
    requires { HasSubtypes ground.now }
    ensures within { IsWithin ground.now.subtypes.now result }
    ensures named { (e : Env) (m : Option ℕ) → IsGround ground.now e → IsName ground.now.subtypes.now e result (mark_of number m) }
{
    let stored = subtype_of(ground, number);
    let subtype = ground.subtypes.cursor(stored);
    KnownName {
        value: None,
        known: own_bounds(&subtype),
        subtype: NameSubtype::Stored(stored),
        has_subtype: true,
        shape: array_bounds(&subtype),
        is_object: true,
        local_slices: true,
        is_mark: true,
        range: Ranging::Range(range_of(&subtype)),
        callee: None,
        is_signal: false,
        is_whole: false,
    }
}

/// How static a literal of an enumeration type is.
fn literal_known(ground: &Ground<'_>, mark: Option<TypeId>) -> StaticSort
    requires { HasSubtypes ground.now }
    ensures { (e : Env) → IsGround ground.now e → static_of result ≡ known_of_literal mark e }
{
    match mark {
        Some(mark) => own_bounds(&ground.subtypes.cursor(subtype_of(ground, mark.number()))),
        None => StaticSort::never(),
    }
}

/// The value of a literal that is so static.
fn literal_value(
    alloc: Global,
    known: StaticSort,
    position: u32,
) -> Result<Option<Value>, AllocError>
    ensures { known.is_local ≡ true → IfOk result (λ v. v ≡ Some (One (LiteralAt position))) }
{
    if !known.is_local {
        return Ok(None);
    }
    let value = Value::scalar(alloc, Scalar::Literal(position))?;
    Ok(Some(value))
}

/// A literal of an enumeration type.
pub fn literal(
    alloc: Global,
    ground: &Ground<'_>,
    position: u32,
    mark: Option<TypeId>,
) -> Result<KnownName, AllocError>
    requires { HasSubtypes ground.now }
    ensures within { IfOk result (IsWithin ground.now.subtypes.now) }
    ensures named { (e : Env) → IsGround ground.now e → IfOk result (λ x. IsName ground.now.subtypes.now e x (literal_named position mark)) }
{
    let known = literal_known(ground, mark);
    let value = literal_value(alloc, known, position)?;
    Ok(own(value, known, None, Ranging::NoRange))
}
