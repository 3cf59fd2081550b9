//! Operators applied to operands that have been evaluated. (IEEE 1076, operators.)

ghost use Rattle.std.specs.Prelude.{◌≡◌, ◌∷◌, [], IfOk, List, codes, if◌then◌else◌};
ghost use Rattle.vd_composites.specs.Answers.{Answers};
ghost use Rattle.vd_composites.specs.Subtypes.{Subtype};
ghost use Rattle.vd_environments.specs.Got.{got};
ghost use Rattle.vd_environments.specs.Environments.{Argument, Env};
ghost use Rattle.vd_meaning.specs.Operators.{decided as decided_value, decides as decides_it, lazily as lazily_of, joining, operate as operate_in_environment, truth_in, truth_text as truth_text_of};
ghost use Rattle.vd_operators.specs.Texts.{text as text_of};
ghost use Rattle.vd_operations.specs.Readings.{read_operation};
ghost use Rattle.vd_plain_values.specs.Plain.{Holds, array_in};
ghost use Rattle.vd_plain_values.specs.Operands.{AreArguments, AreFound, all_found, lazily_from as lazily_with, on_operands, on_values, operate_on as operate_of_subtype, result_subtype, undecided as undecided_from};

use crate::answers::settled;
use crate::environment::{ArrayHead, Entry, array_head, subtype_of};
use std::alloc::{AllocError, Global};
use vd_composites::{Value, ValueEnd};
use vd_declarations::TypeId;
use vd_operations::Operation;
use vd_operators::{BinaryOp, Op, apply};
use vd_subtypes::OperandKind;
use vd_values::{Logic, Scalar, StopKind};
use vd_vectors::logics::{as_logic, bounds_from_one, of_truth};
use vd_vectors::{LogicType, LogicalOperator, logical_operation};

/// The values of all operands, or the first stop.
pub(crate) fn all(
    alloc: Global,
    operands: &[Result<Value, StopKind>],
) -> Result<Result<Vec<Value>, StopKind>, AllocError>
    ensures { IfOk result (λ r. AreFound r (all_found operands.now)) }
{
    let mut values: Vec<Value> = Vec::new(alloc);
    for operand in operands {
        match operand {
            Ok(value) => {
                let copy = value.duplicate(alloc)?;
                values.push(copy)?;
            }
            Err(kind) => return Ok(Err(*kind)),
        }
    }
    Ok(Ok(values))
}

/// Whether the left operand decides.
fn decides(operator: LogicalOperator, left: Logic) -> bool
    ensures { result ≡ decides_it operator left }
{
    match (operator, left) {
        (LogicalOperator::And | LogicalOperator::Nand, Logic::Zero) => true,
        (LogicalOperator::Or | LogicalOperator::Nor, Logic::One) => true,
        _ => false,
    }
}

/// What it decides.
fn decided(operator: LogicalOperator) -> bool
    ensures { result ≡ decided_value operator }
{
    matches!(operator, LogicalOperator::Nand | LogicalOperator::Or)
}

/// An operator of BIT or BOOLEAN whose left operand doesn't decide.
fn undecided(
    alloc: Global,
    operator: LogicalOperator,
    left: &Value,
    right: &Result<Value, StopKind>,
) -> Result<Result<Value, StopKind>, AllocError>
    ensures { IfOk result (λ r. r ≡ undecided_from operator left.now right.now) }
{
    match right {
        Ok(right) => settled(logical_operation(alloc, operator, LogicType::TwoValued, left, right)),
        Err(kind) => Ok(Err(*kind)),
    }
}

/// An operator of BIT or BOOLEAN with a left operand that has a value.
fn lazily_from(
    alloc: Global,
    operator: LogicalOperator,
    left: &Value,
    right: &Result<Value, StopKind>,
) -> Result<Result<Value, StopKind>, AllocError>
    ensures { IfOk result (λ r. r ≡ lazily_with operator left.now right.now) }
{
    match as_logic(LogicType::TwoValued, left) {
        Err(kind) => Ok(Err(kind)),
        Ok(a) => {
            if decides(operator, a) {
                settled(of_truth(alloc, decided(operator)))
            } else {
                undecided(alloc, operator, left, right)
            }
        }
    }
}

/// `and`, `or`, `nand` or `nor` of BIT or BOOLEAN.
fn lazily(
    alloc: Global,
    operator: LogicalOperator,
    operands: &[Result<Value, StopKind>],
) -> Result<Result<Value, StopKind>, AllocError>
    ensures { (as' : List Argument) → AreArguments as' operands.now → IfOk result (λ r. lazily_of operator as' ≡ got r) }
{
    match operands {
        [left, right] => match left {
            Ok(left) => lazily_from(alloc, operator, left, right),
            Err(kind) => Ok(Err(*kind)),
        },
        _ => Ok(Err(StopKind::Range)),
    }
}

/// `&` of an array type.
fn join(
    alloc: Global,
    array: Option<ArrayHead>,
    l: OperandKind,
    r: OperandKind,
    values: &[Value],
) -> Result<Result<Value, StopKind>, AllocError>
    ensures { (s : Subtype) → array_in s ≡ array → IfOk result (λ x. joining l r s values.now ≡ got x) }
{
    let Some(array) = array else {
        return Ok(Err(StopKind::Range));
    };
    let op = Op::Binary(BinaryOp::Concatenation(array.index, array.element, l, r));
    settled(apply(alloc, &op, values))
}

/// A text as a value of STRING.
pub fn text(alloc: Global, codes: &[u8]) -> Result<Value, ValueEnd>
    ensures { Answers result (text_of codes.now) }
{
    match bounds_from_one(codes.len()) {
        Ok(bounds) => Value::of_literals(alloc, bounds, codes),
        Err(kind) => Err(ValueEnd::Stop(kind)),
    }
}

/// A value of BOOLEAN.
fn truth_of(value: &Value) -> Result<bool, StopKind>
    ensures { truth_in value.now ≡ got result }
{
    match value.as_scalar() {
        Some(Scalar::Literal(position)) => {
            if position == 1 {
                Ok(true)
            } else if position == 0 {
                Ok(false)
            } else {
                Err(StopKind::Range)
            }
        }
        _ => Err(StopKind::Range),
    }
}

/// The text of a value of BOOLEAN.
fn text_of_truth(alloc: Global, holds: bool) -> Result<Value, ValueEnd>
    ensures { Answers result (text_of (if holds then codes "true" else codes "false")) }
{
    if holds {
        text(alloc, b"true")
    } else {
        text(alloc, b"false")
    }
}

/// `to_string` of BOOLEAN.
fn truth_text(alloc: Global, value: &Value) -> Result<Result<Value, StopKind>, AllocError>
    ensures { IfOk result (λ r. truth_text_of (value.now ∷ []) ≡ got r) }
{
    match truth_of(value) {
        Ok(holds) => settled(text_of_truth(alloc, holds)),
        Err(kind) => Ok(Err(kind)),
    }
}

/// `&`, or `to_string` of BOOLEAN.
fn operate_on_all(
    alloc: Global,
    array: Option<ArrayHead>,
    operation: &Operation,
    values: &[Value],
) -> Result<Result<Value, StopKind>, AllocError>
    ensures { (s : Subtype) → array_in s ≡ array → IfOk result (λ r. on_values (read_operation operation.now) s values.now ≡ got r) }
{
    match operation {
        Operation::Apply(op) => settled(apply(alloc, op, values)),
        Operation::Join(l, r) => join(alloc, array, *l, *r, values),
        Operation::TruthText => match values {
            [value] => truth_text(alloc, value),
            _ => Ok(Err(StopKind::Range)),
        },
        _ => Ok(Err(StopKind::Range)),
    }
}

/// What is done with operands of which all are evaluated.
fn strictly(
    alloc: Global,
    array: Option<ArrayHead>,
    operation: &Operation,
    operands: &[Result<Value, StopKind>],
) -> Result<Result<Value, StopKind>, AllocError>
    ensures { (s : Subtype) → array_in s ≡ array → IfOk result (λ r. on_operands (read_operation operation.now) s operands.now ≡ got r) }
{
    match all(alloc, operands)? {
        Ok(values) => operate_on_all(alloc, array, operation, &values),
        Err(kind) => Ok(Err(kind)),
    }
}

/// What an operator or a given function gives for its operands, where its result is of a subtype that is this array subtype, or none.
pub fn operate_on(
    alloc: Global,
    array: Option<ArrayHead>,
    operation: &Operation,
    operands: &[Result<Value, StopKind>],
) -> Result<Result<Value, StopKind>, AllocError>
    ensures { (s : Subtype) → array_in s ≡ array → (as' : List Argument) → AreArguments as' operands.now
        → IfOk result (λ r. operate_of_subtype (read_operation operation.now) s as' ≡ got r) }
{
    match operation {
        Operation::Lazily(operator) => lazily(alloc, *operator, operands),
        Operation::Edge(_) => Ok(Err(StopKind::Range)),
        Operation::Nothing => Ok(Err(StopKind::Range)),
        Operation::Apply(_) => strictly(alloc, array, operation, operands),
        Operation::Join(_, _) => strictly(alloc, array, operation, operands),
        Operation::TruthText => strictly(alloc, array, operation, operands),
    }
}

/// The array subtype that the subtype of a result is.
fn result_array(
    environment: &[Entry<'_>],
    of_result: Option<TypeId>,
) -> Result<Option<ArrayHead>, AllocError>
    ensures { (e : Env) → Holds environment.now e → IfOk result (λ a. array_in (result_subtype of_result e) ≡ a) }
{
    let Some(mark) = of_result else {
        return Ok(None);
    };
    match subtype_of(environment, mark.number()) {
        Some(subtype) => array_head(&subtype),
        None => Ok(None),
    }
}

/// What an operator or a given function gives for its operands.
pub fn operate(
    alloc: Global,
    environment: &[Entry<'_>],
    operation: &Operation,
    of_result: Option<TypeId>,
    operands: &[Result<Value, StopKind>],
) -> Result<Result<Value, StopKind>, AllocError>
    ensures { (e : Env) → Holds environment.now e → (as' : List Argument) → AreArguments as' operands.now
        → IfOk result (λ r. operate_in_environment (read_operation operation.now) of_result e as' ≡ got r) }
{
    let array = result_array(environment, of_result)?;
    operate_on(alloc, array, operation, operands)
}
