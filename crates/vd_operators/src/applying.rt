//! Operators applied to their operands.

ghost use Rattle.vd_composites.specs.Answers.{Answers};
ghost use Rattle.vd_operators.specs.Applied.{applied, applied_to_one, applied_to_two, equality};
ghost use Rattle.std.specs.Prelude.{◌≡◌};

use crate::arithmetic::{as_integer, integer_one, integer_two, time_calculate};
use crate::attributes::{array_bound, array_length, discrete, subtype_bound};
use crate::op::{BinaryOp, Op, UnaryOp};
use crate::texts::write_text;
use std::alloc::Global;
use vd_composites::{Value, ValueEnd};
use vd_subtypes::{concatenate, fit};
use vd_values::StopKind;
use vd_vectors::logics::of_truth;
use vd_vectors::{
    LogicType, ShiftOperator, condition, logical_operation, matches, matching_ordered, negated,
    ordered, reduction, shift,
};

/// "=" and "/=".
fn compare(alloc: Global, equal: bool, left: &Value, right: &Value) -> Result<Value, ValueEnd>
    ensures { Answers result (equality equal left.now right.now) }
{
    of_truth(alloc, left.equals(right) == equal)
}

/// A shift by a value.
fn shift_by(
    alloc: Global,
    operator: ShiftOperator,
    of: LogicType,
    value: &Value,
    count: &Value,
) -> Result<Value, ValueEnd>
    ensures { Answers result (applied_to_two (BinaryOp.Shift operator of) value.now count.now) }
{
    match as_integer(count) {
        Ok(count) => shift(alloc, operator, of, value, count),
        Err(kind) => Err(ValueEnd::Stop(kind)),
    }
}

/// An operator on one operand.
fn apply_one(alloc: Global, operator: &UnaryOp, value: &Value) -> Result<Value, ValueEnd>
    ensures { Answers result (applied_to_one operator.now value.now) }
{
    match operator {
        UnaryOp::Sign(sign) => integer_one(alloc, *sign, value),
        UnaryOp::Not(of) => negated(alloc, *of, value),
        UnaryOp::Reduction(logical, of) => reduction(alloc, *logical, *of, value),
        UnaryOp::Condition(of) => condition(alloc, *of, value),
        UnaryOp::Conversion(head) => fit(alloc, *head, value),
        UnaryOp::ArrayBound(side, index) => array_bound(alloc, *side, *index, value),
        UnaryOp::ArrayLength => array_length(alloc, value),
        UnaryOp::Discrete(attribute) => discrete(alloc, *attribute, value),
        UnaryOp::Text(text) => write_text(alloc, text, value),
    }
}

/// An operator on two operands.
fn apply_two(
    alloc: Global,
    operator: &BinaryOp,
    left: &Value,
    right: &Value,
) -> Result<Value, ValueEnd>
    ensures { Answers result (applied_to_two operator.now left.now right.now) }
{
    match operator {
        BinaryOp::Integer(integer) => integer_two(alloc, *integer, left, right),
        BinaryOp::Time(time) => time_calculate(alloc, *time, left, right),
        BinaryOp::Equality(equal) => compare(alloc, *equal, left, right),
        BinaryOp::Order(relation) => ordered(alloc, *relation, left, right),
        BinaryOp::Logical(logical, of) => logical_operation(alloc, *logical, *of, left, right),
        BinaryOp::Shift(shift, of) => shift_by(alloc, *shift, *of, left, right),
        BinaryOp::Matching(equal, of) => matches(alloc, *equal, *of, left, right),
        BinaryOp::MatchingOrder(relation) => matching_ordered(alloc, *relation, left, right),
        BinaryOp::Concatenation(index, element, l, r) => {
            concatenate(alloc, *index, *element, (*l, *r), left, right)
        }
    }
}

/// A predefined operator, attribute or conversion on its operands, from left to right. That `and`, `or`, `nand` and `nor` on BIT and BOOLEAN
/// evaluate the right operand only where it is needed is not done here: the operands have been evaluated.
pub fn apply(alloc: Global, operator: &Op, operands: &[Value]) -> Result<Value, ValueEnd>
    ensures { Answers result (applied operator.now operands.now) }
{
    match (operator, operands) {
        (Op::SubtypeBound(side, subtype), []) => subtype_bound(alloc, *side, *subtype),
        (Op::Unary(one), [value]) => apply_one(alloc, one, value),
        (Op::Binary(two), [left, right]) => apply_two(alloc, two, left, right),
        _ => Err(ValueEnd::Stop(StopKind::Range)),
    }
}
