//! Applies an operator to two vectors of bits, for measurements. The words are `and`, `concatenate`, `equal`, `sll` or `none`, how many bits a
//! vector has, and how often. `none` makes the vectors and applies nothing.

use anyhow::bail;
use std::alloc::Global;
use vd_composites::{Bounds, ScalarSubtype, ScalarType, Value};
use vd_operators::{BinaryOp, Op, apply};
use vd_subtypes::{OperandKind, SubtypeHead};
use vd_values::Scalar;
use vd_vectors::{LogicType, LogicalOperator, ShiftOperator};

/// A vector with every second bit set.
fn bits(alloc: Global, length: u32) -> anyhow::Result<Value> {
    let mut positions = Vec::new(alloc);
    for i in 0..length {
        positions.push((i % 2) as u8)?;
    }
    let bounds = Bounds {
        left: 0,
        right: i64::from(length) - 1,
        down: false,
    };
    match Value::of_literals(alloc, bounds, &positions) {
        Ok(value) => Ok(value),
        Err(_) => bail!("there is no vector"),
    }
}

/// A subtype of values from 0 on.
fn from_zero(of_type: ScalarType, right: i64) -> ScalarSubtype {
    ScalarSubtype {
        of_type,
        range: Bounds {
            left: 0,
            right,
            down: false,
        },
    }
}

/// An operator by its word.
fn operator_of(word: &str) -> Option<Op> {
    let whole = OperandKind::WholeArray;
    let two = LogicType::TwoValued;
    match word {
        "and" => Some(Op::Binary(BinaryOp::Logical(LogicalOperator::And, two))),
        "equal" => Some(Op::Binary(BinaryOp::Equality(true))),
        "sll" => Some(Op::Binary(BinaryOp::Shift(ShiftOperator::LogicalLeft, two))),
        "concatenate" => {
            let index = from_zero(ScalarType::Integers, 2147483647);
            let element = SubtypeHead::Scalar(from_zero(ScalarType::Enumeration(2), 1));
            Some(Op::Binary(BinaryOp::Concatenation(index, element, whole, whole)))
        }
        _ => None,
    }
}

/// Runs the bench on its words.
pub fn run(rt: HostRuntime, words: &[String]) -> anyhow::Result<()> {
    let [what, length, times] = words else {
        bail!("the words are an operator, a length and a number of times");
    };
    let length = length.parse::<u32>()?;
    let times = times.parse::<u32>()?;
    let mut operands = Vec::new(rt.alloc());
    operands.push(bits(rt.alloc(), length)?)?;
    if what.as_str() == "sll" {
        operands.push(Value::scalar(rt.alloc(), Scalar::Integer(3))?)?;
    } else {
        operands.push(bits(rt.alloc(), length)?)?;
    }
    if let Some(operator) = operator_of(what) {
        for _ in 0..times {
            if apply(rt.alloc(), &operator, &operands).is_err() {
                bail!("the operator stops");
            }
        }
    }
    println!(rt; "{what} {length} times {times}")?;
    Ok(())
}
