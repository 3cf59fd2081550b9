//! Attributes. (IEEE 1076, predefined attributes.)

ghost use Rattle.std.specs.Prelude.{◌≡◌, [], ◌∷◌, IfOk, pos};
ghost use Rattle.vd_composites.specs.Ranges.{length_of, reversed as turned};
ghost use Rattle.vd_composites.specs.Scalars.{whole_range as all_values};
ghost use Rattle.vd_environments.specs.Got.{got};
ghost use Rattle.vd_value_rules.specs.Indicated.{indicated_in, texts_in};
ghost use Rattle.vd_integers.specs.Integers.{integer_of};
ghost use Rattle.vd_meaning.specs.Names.{bare, image as image_of, of_type};
ghost use Rattle.vd_operators.specs.Applied.{applied};
ghost use Rattle.vd_operators.specs.Attributes.{array_range};
ghost use Rattle.vd_operators.specs.declared.op.Op.TheVariants.{SubtypeBound, Unary};
ghost use Rattle.vd_operators.specs.declared.op.UnaryOp.TheVariants as one;
ghost use Rattle.vd_static_values.specs.Entries.{IsFound};
ghost use Rattle.vd_static_values.specs.Names.{type_attribute as attribute_of};

use crate::TypeAttribute;
use crate::finding::found;
use std::alloc::{AllocError, Global};
use vd_composites::{Bounds, ScalarSubtype, ScalarType, Value};
use vd_forest::Cursor;
use vd_operators::arithmetic::integer_answer;
use vd_operators::attributes::{discrete, subtype_bound};
use vd_operators::texts::write_text;
use vd_operators::{DiscreteAttribute, Side, TextOperator};
use vd_plain_values::operators::text;
use vd_value_rules::IndicatedForm;
use vd_value_rules::part_facts::literals;
use vd_values::{Scalar, StopKind};

/// 'left, 'right, 'high or 'low of a scalar subtype.
pub fn scalar_bound(
    alloc: Global,
    side: Side,
    subtype: ScalarSubtype,
) -> Result<Option<Value>, AllocError>
    ensures { IfOk result (λ found. IsFound found (got (applied (SubtypeBound side subtype) []))) }
{
    found(subtype_bound(alloc, side, subtype))
}

/// 'left, 'right, 'high or 'low of an array with these bounds, whose index is of a type.
pub fn array_bound(
    alloc: Global,
    side: Side,
    bounds: Bounds,
    of_type: ScalarType,
) -> Result<Option<Value>, AllocError>
    ensures { IfOk result (λ found. IsFound found (got (applied (Unary (one.ArrayBound side of_type)) (bare bounds ∷ [])))) }
{
    scalar_bound(
        alloc,
        side,
        ScalarSubtype {
            of_type,
            range: bounds,
        },
    )
}

/// How many elements an array with these bounds has, as a value of INTEGER.
fn length_in(bounds: Bounds) -> Result<i32, StopKind>
    ensures { result ≡ integer_of (pos (length_of bounds)) }
{
    match i32::try_from(bounds.length()) {
        Ok(length) => Ok(length),
        Err(_) => Err(StopKind::Overflow),
    }
}

/// 'length of an array with these bounds.
pub fn array_length(alloc: Global, bounds: Bounds) -> Result<Option<Value>, AllocError>
    ensures { IfOk result (λ found. IsFound found (got (applied (Unary one.ArrayLength) (bare bounds ∷ [])))) }
{
    found(integer_answer(alloc, length_in(bounds)))
}

/// The range of all values of a type.
fn whole_range(of_type: ScalarType) -> Bounds
    ensures { result ≡ all_values of_type }
{
    let (left, right) = match of_type {
        ScalarType::Integers => (-2_147_483_647, 2_147_483_647),
        ScalarType::Enumeration(count) => (0, i64::from(count) - 1),
        ScalarType::Times => (0, i64::MAX),
    };
    Bounds {
        left,
        right,
        down: false,
    }
}

/// The range backwards.
fn reversed(bounds: Bounds) -> Bounds
    ensures { result ≡ turned bounds }
{
    Bounds {
        left: bounds.right,
        right: bounds.left,
        down: !bounds.down,
    }
}

/// 'range of an array with these bounds, whose index is of a type, and 'reverse_range where it is asked for backwards.
pub fn range_of_array(backwards: bool, of_type: ScalarType, bounds: Bounds) -> Option<Bounds>
    ensures { IsFound result (got (array_range backwards of_type (bare bounds))) }
{
    let whole = whole_range(of_type);
    if !whole.contains(bounds.left) {
        return None;
    }
    if !whole.contains(bounds.right) {
        return None;
    }
    if backwards {
        Some(reversed(bounds))
    } else {
        Some(bounds)
    }
}

/// The image of a value of a discrete type with these literals; INTEGER has none.
fn image(
    alloc: Global,
    literals: &Cursor<'_, IndicatedForm>,
    value: &Value,
) -> Result<Option<Value>, AllocError>
    ensures { IfOk result (λ found. IsFound found (image_of (texts_in literals.now) value.now)) }
{
    if literals.form().is_none() {
        return found(write_text(alloc, &TextOperator::IntegerText, value));
    }
    let Some(Scalar::Literal(position)) = value.as_scalar() else {
        return Ok(None);
    };
    match literals.skip(position).open() {
        Some(literal) => found(text(alloc, literal.text)),
        None => Ok(None),
    }
}

/// 'pos, 'val, 'succ, 'pred or 'image of a scalar type, with its argument.
pub fn type_attribute(
    alloc: Global,
    attribute: TypeAttribute,
    scalar: ScalarSubtype,
    subtype: &Cursor<'_, IndicatedForm>,
    value: &Value,
) -> Result<Option<Value>, AllocError>
    ensures { IfOk result (λ found. IsFound found (of_type (attribute_of attribute) scalar (indicated_in subtype.now).make value.now)) }
{
    let discrete_attribute = match attribute {
        TypeAttribute::Position => DiscreteAttribute::Position,
        TypeAttribute::Value => DiscreteAttribute::ValueAt(scalar.of_type),
        TypeAttribute::Successor => DiscreteAttribute::Successor(scalar.of_type),
        TypeAttribute::Predecessor => DiscreteAttribute::Predecessor(scalar.of_type),
        TypeAttribute::Image => return image(alloc, &literals(subtype), value),
    };
    found(discrete(alloc, discrete_attribute, value))
}
