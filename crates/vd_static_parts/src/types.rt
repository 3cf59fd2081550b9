//! Attributes of types with their arguments. (IEEE 1076, predefined attributes.)

ghost use Rattle.std.specs.Prelude.{◌≡◌, ℕ, IfOk, List, Option, true};
ghost use Rattle.vd_composites.specs.Composites.{Value as AnyValue};
ghost use Rattle.vd_environments.specs.Environments.{Env, Signals, Static, both};
ghost use Rattle.vd_environments.specs.Got.{Got};
ghost use Rattle.vd_value_rules.specs.Indicated.{static_of};
ghost use Rattle.vd_meaning.specs.Names.{Attributed, Named, TypeAttribute as AttributeOfType, fresh as fresh_named, type_attribute_value as value_of_attribute};
ghost use Rattle.vd_static_values.specs.Entries.{IsFound};
ghost use Rattle.vd_static_values.specs.Names.{IsName, type_attribute as attribute_of_type};
ghost use Rattle.vd_static_names.specs.Known.{IsWithin};
ghost use Rattle.vd_values.specs.declared.scalar.Scalar.{Scalar};

use std::alloc::{AllocError, Global};
use vd_composites::Value;
use vd_static_names::subtypes::{scalar_number, scalar_of};
use vd_static_names::values::{fresh, no_name};
use vd_static_values::{Ground, KnownName, TypeAttribute, type_attribute};
use vd_value_rules::StaticSort;

/// The value of an attribute of a locally static name.
fn attribute_value(
    alloc: Global,
    ground: &Ground<'_>,
    name: &KnownName,
    attribute: TypeAttribute,
    argument: &Option<Value>,
) -> Result<Option<Value>, AllocError>
    requires { IsWithin ground.now.subtypes.now name.now }
    ensures { (e : Env) (p : Named) (v : Env → Got (AnyValue Scalar)) → IsName ground.now.subtypes.now e name.now p → (p.known e).is_local ≡ true
        → IsFound argument.now (v e) → IfOk result (λ found. IsFound found (value_of_attribute (attribute_of_type attribute) p v e)) }
{
    if !name.has_subtype {
        return Ok(None);
    }
    let Some(scalar) = scalar_of(ground.subtypes, name.subtype) else {
        return Ok(None);
    };
    let Some(argument) = argument else {
        return Ok(None);
    };
    let subtype = ground.subtypes.cursor(scalar_number(name.subtype));
    type_attribute(alloc, attribute, scalar, &subtype, argument)
}

/// An attribute of a type, whose argument is so static.
pub fn type_attribute_piece(
    alloc: Global,
    ground: &Ground<'_>,
    name: &KnownName,
    argument: &Option<Value>,
    known: StaticSort,
) -> Result<KnownName, AllocError>
    requires { IsWithin ground.now.subtypes.now name.now }
    ensures within { IfOk result (IsWithin ground.now.subtypes.now) }
    ensures named { (e : Env) (p : Named) (a : AttributeOfType) (v : Env → Got (AnyValue Scalar)) (m : Option ℕ) (kn : Env → Static) (inner : Env → Got (List Signals)) →
        IsName ground.now.subtypes.now e name.now p → p.callee ≡ Attributed a → static_of known ≡ kn e → ((kn e).is_local ≡ true → IsFound argument.now (v e))
        → IfOk result (λ x. IsName ground.now.subtypes.now e x (fresh_named (value_of_attribute a p v) m (λ f. both (p.known f) (kn f)) inner)) }
{
    let Some(attribute) = name.callee else {
        return Ok(no_name());
    };
    let known = name.known.both(known);
    if !known.is_local {
        return Ok(fresh(None, known));
    }
    let value = attribute_value(alloc, ground, name, attribute, argument)?;
    Ok(fresh(value, known))
}
