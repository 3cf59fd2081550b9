//! Operators by the names that the table has for them.

use crate::names::{
    index_of, integer_operator, literals, logic_type, logical_operator, relation, scalar_type,
    shift_operator, side, sign_operator, whole,
};
use std::alloc::{AllocError, Global};
use vd_composites::ScalarType;
use vd_operators::{BinaryOp, DiscreteAttribute, Op, TextOperator, TimeOperator, UnaryOp};
use vd_subtypes::{OperandKind, SubtypeHead};

/// Operators on INTEGER and on TIME alone.
fn arithmetic(kind: &str, word: &str) -> Option<Op> {
    match (kind, word) {
        ("time", "+") => return Some(Op::Binary(BinaryOp::Time(TimeOperator::TimeAdd))),
        ("time", "-") => return Some(Op::Binary(BinaryOp::Time(TimeOperator::TimeSubtract))),
        _ => {}
    }
    if kind != "integer" {
        return None;
    }
    if let Some(sign) = sign_operator(word) {
        return Some(Op::Unary(UnaryOp::Sign(sign)));
    }
    match integer_operator(word) {
        Some(operator) => Some(Op::Binary(BinaryOp::Integer(operator))),
        None => None,
    }
}

/// Operators that compare.
fn relational(kind: &str, word: &str) -> Option<Op> {
    match word {
        "=" => return Some(Op::Binary(BinaryOp::Equality(true))),
        "/=" => return Some(Op::Binary(BinaryOp::Equality(false))),
        "?=" => return Some(Op::Binary(BinaryOp::Matching(true, logic_type(kind)))),
        "?/=" => return Some(Op::Binary(BinaryOp::Matching(false, logic_type(kind)))),
        _ => {}
    }
    if let Some(operator) = relation(word) {
        return Some(Op::Binary(BinaryOp::Order(operator)));
    }
    match word.strip_prefix('?') {
        Some(rest) => match relation(rest) {
            Some(operator) => Some(Op::Binary(BinaryOp::MatchingOrder(operator))),
            None => None,
        },
        None => None,
    }
}

/// Logical operators, reductions and shifts.
fn logical(kind: &str, word: &str) -> Option<Op> {
    if word == "not" {
        return Some(Op::Unary(UnaryOp::Not(logic_type(kind))));
    }
    if kind == "condition" {
        return Some(Op::Unary(UnaryOp::Condition(logic_type(word))));
    }
    if let Some(operator) = logical_operator(word) {
        return Some(Op::Binary(BinaryOp::Logical(operator, logic_type(kind))));
    }
    if let Some(operator) = logical_operator(kind) {
        return Some(Op::Unary(UnaryOp::Reduction(operator, logic_type(word))));
    }
    match shift_operator(word) {
        Some(operator) => Some(Op::Binary(BinaryOp::Shift(operator, logic_type(kind)))),
        None => None,
    }
}

/// Attributes.
fn attribute(kind: &str, word: &str) -> Option<Op> {
    if let Some(which) = side(word) {
        return Some(Op::Unary(UnaryOp::ArrayBound(which, ScalarType::Integers)));
    }
    let of = scalar_type(kind);
    match word {
        "'length" => Some(Op::Unary(UnaryOp::ArrayLength)),
        "'pos" => Some(Op::Unary(UnaryOp::Discrete(DiscreteAttribute::Position))),
        "'val" => Some(Op::Unary(UnaryOp::Discrete(DiscreteAttribute::ValueAt(of)))),
        "'succ" => Some(Op::Unary(UnaryOp::Discrete(DiscreteAttribute::Successor(of)))),
        "'pred" => Some(Op::Unary(UnaryOp::Discrete(DiscreteAttribute::Predecessor(of)))),
        _ => None,
    }
}

/// 'image and `to_string`.
fn text(alloc: Global, kind: &str, image: bool) -> Result<Op, AllocError> {
    let operator = match (kind, image) {
        ("integer", _) => TextOperator::IntegerText,
        ("ulogic", false) => TextOperator::LogicText,
        ("ulogics", false) => TextOperator::LogicsText,
        _ => TextOperator::LiteralText(literals(alloc, kind)?),
    };
    Ok(Op::Unary(UnaryOp::Text(operator)))
}

/// The operator `&` of an array type.
fn concatenation(kind: &str, left: OperandKind, right: OperandKind) -> Op {
    let element = SubtypeHead::Scalar(whole(scalar_type(kind)));
    Op::Binary(BinaryOp::Concatenation(index_of(kind), element, left, right))
}

/// An operator whose name has two parts.
fn of_two(alloc: Global, kind: &str, word: &str) -> Result<Option<Op>, AllocError> {
    if word == "'image" {
        return Ok(Some(text(alloc, kind, true)?));
    }
    if word == "&" {
        let whole_array = OperandKind::WholeArray;
        return Ok(Some(concatenation(kind, whole_array, whole_array)));
    }
    if let Some(operator) = arithmetic(kind, word) {
        return Ok(Some(operator));
    }
    if let Some(operator) = relational(kind, word) {
        return Ok(Some(operator));
    }
    if let Some(operator) = logical(kind, word) {
        return Ok(Some(operator));
    }
    Ok(attribute(kind, word))
}

/// An operator whose name has three parts, of which the outer ones are the types of the operands.
fn of_three(alloc: Global, left: &str, word: &str, right: &str) -> Result<Option<Op>, AllocError> {
    let time = match (left, word, right) {
        ("time", "*", _) => Some(TimeOperator::TimesInteger),
        (_, "*", "time") => Some(TimeOperator::IntegerTimes),
        ("time", "/", _) => Some(TimeOperator::DividedByInteger),
        _ => None,
    };
    if let Some(operator) = time {
        return Ok(Some(Op::Binary(BinaryOp::Time(operator))));
    }
    match (left, word, right) {
        (_, "to", _) => Ok(Some(text(alloc, left, false)?)),
        ("element", "&", _) => Ok(Some(concatenation(
            right,
            OperandKind::OneElement,
            OperandKind::WholeArray,
        ))),
        (_, "&", _) => Ok(Some(concatenation(
            left,
            OperandKind::WholeArray,
            OperandKind::OneElement,
        ))),
        _ => Ok(logical(left, word)),
    }
}

/// An operator by its name.
pub fn operator_of(alloc: Global, name: &str) -> Result<Option<Op>, AllocError> {
    let mut parts = name.split('_');
    match (parts.next(), parts.next(), parts.next(), parts.next()) {
        (Some(kind), Some(word), None, None) => of_two(alloc, kind, word),
        (Some(left), Some(word), Some(right), None) => of_three(alloc, left, word, right),
        (Some(_), Some(_), Some(_), Some(kind)) => Ok(Some(concatenation(
            kind,
            OperandKind::OneElement,
            OperandKind::OneElement,
        ))),
        _ => Ok(None),
    }
}
