//! Type conversions and qualified expressions. (IEEE 1076, type conversions; qualified expressions.)

ghost use Rattle.std.specs.Prelude.{◌≡◌, ◌&&◌, ℕ, IfOk, List, Option, true};
ghost use Rattle.vd_composites.specs.Composites.{Value as AnyValue};
ghost use Rattle.vd_environments.specs.Environments.{Env, Signals, Static};
ghost use Rattle.vd_environments.specs.Got.{Got};
ghost use Rattle.vd_value_rules.specs.Indicated.{static_of};
ghost use Rattle.vd_meaning.specs.Names.{Named, conversion_known as known_of_conversion, conversion_of, converting, fresh as fresh_named, qualified as qualified_name};
ghost use Rattle.vd_meaning.specs.Tables.{is_vector as is_vector_type};
ghost use Rattle.vd_static_parts.specs.Conversions.{known_through, qualified_by};
ghost use Rattle.vd_static_values.specs.Entries.{IsFound, IsGround};
ghost use Rattle.vd_static_values.specs.Names.{IsName};
ghost use Rattle.vd_static_names.specs.Known.{HasSubtypes, IsWithin};
ghost use Rattle.vd_values.specs.declared.scalar.Scalar.{Scalar};

use std::alloc::{AllocError, Global};
use vd_composites::Value;
use vd_predefined::numbers::{STD_LOGIC_VECTOR, STD_ULOGIC_VECTOR};
use vd_static_names::copies::value_again;
use vd_static_names::grounds::{bounds_of, subtype_of};
use vd_static_names::values::fresh;
use vd_static_values::{Ground, KnownName, convert, fit_whole};
use vd_value_rules::StaticSort;

/// How static a conversion to a mark is, by what it converts and all bounds of the mark.
fn conversion_known(ground: &Ground<'_>, mark: u32, known: StaticSort) -> StaticSort
    ensures { (e : Env) (kn : Env → Static) → IsGround ground.now e → static_of known ≡ kn e → static_of result ≡ known_of_conversion mark kn e }
{
    bounds_of(ground, mark).both(known)
}

/// A value converted. A conversion between the two vector types changes nothing.
fn converted_value(
    alloc: Global,
    ground: &Ground<'_>,
    mark: u32,
    between_vectors: bool,
    operand: &Option<Value>,
) -> Result<Option<Value>, AllocError>
    requires { HasSubtypes ground.now }
    ensures { (e : Env) (v : Env → Got (AnyValue Scalar)) → IsGround ground.now e → IsFound operand.now (v e)
        → IfOk result (λ found. IsFound found (converting between_vectors mark v e)) }
{
    if between_vectors {
        return value_again(alloc, operand);
    }
    match operand {
        Some(value) => {
            let subtype = ground.subtypes.cursor(subtype_of(ground, mark));
            convert(alloc, &subtype, value)
        }
        None => Ok(None),
    }
}

/// Whether a mark is one of the vector types of IEEE 1164.
fn is_vector(mark: u32) -> bool
    ensures { result ≡ is_vector_type mark }
{
    mark == STD_ULOGIC_VECTOR || mark == STD_LOGIC_VECTOR
}

/// Whether a conversion to a mark is still made of the scalar signals of its operand.
fn is_tied(mark: u32, operand_name: &KnownName) -> bool
    ensures { result ≡ (is_vector_type mark && operand_name.now.is_signal) }
{
    is_vector(mark) && operand_name.is_signal
}

/// A conversion with what is known of the scalar signals of its operand, where it is still made of them.
fn tied(made: KnownName, is_tied: bool, is_whole: bool) -> KnownName
    ensures { result ≡ known_through is_tied is_whole made }
{
    let mut made = made;
    if is_tied {
        made.is_whole = is_whole;
    }
    made
}

/// The value of a type conversion, where it is locally static.
fn conversion_value(
    alloc: Global,
    ground: &Ground<'_>,
    mark: u32,
    between_vectors: bool,
    operand: &Option<Value>,
    known: StaticSort,
) -> Result<KnownName, AllocError>
    requires { HasSubtypes ground.now }
    ensures within { IfOk result (IsWithin ground.now.subtypes.now) }
    ensures named { (e : Env) (m : Option ℕ) (v : Env → Got (AnyValue Scalar)) (kn : Env → Static) (inner : Env → Got (List Signals)) →
        IsGround ground.now e → static_of known ≡ kn e → ((kn e).is_local ≡ true → IsFound operand.now (v e))
        → IfOk result (λ x. IsName ground.now.subtypes.now e x (fresh_named (converting between_vectors mark v) m (known_of_conversion mark kn) inner)) }
{
    let known = conversion_known(ground, mark, known);
    if !known.is_local {
        return Ok(fresh(None, known));
    }
    let value = converted_value(alloc, ground, mark, between_vectors, operand)?;
    Ok(fresh(value, known))
}

/// A type conversion. Of the name of a signal to one of the vector types it is still made of its scalar signals.
pub fn conversion(
    alloc: Global,
    ground: &Ground<'_>,
    mark: u32,
    between_vectors: bool,
    operand: &Option<Value>,
    known: StaticSort,
    operand_name: &KnownName,
) -> Result<KnownName, AllocError>
    requires { HasSubtypes ground.now }
    ensures within { IfOk result (IsWithin ground.now.subtypes.now) }
    ensures named { (e : Env) (m : Option ℕ) (v : Env → Got (AnyValue Scalar)) (kn : Env → Static) (inner : Env → Got (List Signals)) (p : Named) →
        IsGround ground.now e → IsName ground.now.subtypes.now e operand_name.now p → static_of known ≡ kn e → ((kn e).is_local ≡ true → IsFound operand.now (v e))
        → IfOk result (λ x. IsName ground.now.subtypes.now e x (conversion_of between_vectors mark m v kn inner p)) }
{
    let made = conversion_value(alloc, ground, mark, between_vectors, operand, known)?;
    let is_tied = is_tied(mark, operand_name);
    Ok(tied(made, is_tied, operand_name.is_whole))
}

/// A value made one of the subtype that a mark names.
fn qualified_value(
    alloc: Global,
    ground: &Ground<'_>,
    mark: u32,
    operand: &Option<Value>,
) -> Result<Option<Value>, AllocError>
    requires { HasSubtypes ground.now }
    ensures { (e : Env) (v : Env → Got (AnyValue Scalar)) → IsGround ground.now e → IsFound operand.now (v e)
        → IfOk result (λ found. IsFound found (qualified_by mark v e)) }
{
    match operand {
        Some(value) => {
            let subtype = ground.subtypes.cursor(subtype_of(ground, mark));
            fit_whole(alloc, &subtype, value)
        }
        None => Ok(None),
    }
}

/// A qualified expression.
pub fn qualified(
    alloc: Global,
    ground: &Ground<'_>,
    mark: u32,
    operand: &Option<Value>,
    known: StaticSort,
) -> Result<KnownName, AllocError>
    requires { HasSubtypes ground.now }
    ensures within { IfOk result (IsWithin ground.now.subtypes.now) }
    ensures named { (e : Env) (m : Option ℕ) (v : Env → Got (AnyValue Scalar)) (kn : Env → Static) (inner : Env → Got (List Signals)) →
        IsGround ground.now e → static_of known ≡ kn e → ((kn e).is_local ≡ true → IsFound operand.now (v e))
        → IfOk result (λ x. IsName ground.now.subtypes.now e x (qualified_name mark m v kn inner)) }
{
    let known = conversion_known(ground, mark, known);
    if !known.is_local {
        return Ok(fresh(None, known));
    }
    let value = qualified_value(alloc, ground, mark, operand)?;
    Ok(fresh(value, known))
}
