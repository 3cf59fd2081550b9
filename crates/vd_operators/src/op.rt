//! The names of operators, attributes and conversions, with what the types of their operands make them differ in.

use crate::arithmetic::{IntegerOperator, SignOperator, TimeOperator};
use crate::attributes::{DiscreteAttribute, Side};
use crate::texts::TextOperator;
use vd_composites::{ScalarSubtype, ScalarType};
use vd_subtypes::{OperandKind, SubtypeHead};
use vd_vectors::{LogicType, LogicalOperator, Relation, ShiftOperator};

/// What is done with one operand.
#[derive(Drop)]
pub enum UnaryOp {
    /// A sign or `abs` of INTEGER.
    Sign(SignOperator),
    /// The operator `not`.
    Not(LogicType),
    /// A logical operator with one operand, an array.
    Reduction(LogicalOperator, LogicType),
    /// The operator `??`.
    Condition(LogicType),
    /// A type conversion or a qualified expression.
    Conversion(SubtypeHead),
    /// 'left, 'right, 'high or 'low of an array whose index is of this type.
    ArrayBound(Side, ScalarType),
    /// 'length of an array.
    ArrayLength,
    /// 'pos, 'val, 'succ or 'pred.
    Discrete(DiscreteAttribute),
    /// 'image or `to_string`.
    Text(TextOperator),
}

/// What is done with two operands.
#[derive(Drop)]
pub enum BinaryOp {
    Integer(IntegerOperator),
    Time(TimeOperator),
    /// `=`, and `/=` where it isn't equality that is asked for.
    Equality(bool),
    Order(Relation),
    /// A logical operator on scalars, on arrays, or on one of each.
    Logical(LogicalOperator, LogicType),
    /// A shift of an array by a value of INTEGER.
    Shift(ShiftOperator, LogicType),
    /// `?=`, and `?/=` where it isn't equality that is asked for.
    Matching(bool, LogicType),
    /// `?<`, `?<=`, `?>` or `?>=` on BIT.
    MatchingOrder(Relation),
    /// `&` of an array type: its index subtype, its element subtype, and what the operands are.
    Concatenation(ScalarSubtype, SubtypeHead, OperandKind, OperandKind),
}

/// A predefined operator, attribute or conversion.
#[derive(Drop)]
pub enum Op {
    /// 'left, 'right, 'high or 'low of a scalar subtype, which has no operand.
    SubtypeBound(Side, ScalarSubtype),
    Unary(UnaryOp),
    Binary(BinaryOp),
}
