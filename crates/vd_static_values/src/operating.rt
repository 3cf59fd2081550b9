//! Operators and given functions. (IEEE 1076, operators.)

ghost use Rattle.std.specs.Prelude.{◌≡◌, IfOk, List};
ghost use Rattle.vd_environments.specs.Environments.{Argument};
ghost use Rattle.vd_value_rules.specs.Indicated.{indicated_in};
ghost use Rattle.vd_operations.specs.Readings.{read_operation};
ghost use Rattle.vd_static_values.specs.Entries.{IsFound, operate_on as operate_of_subtype};
ghost use Rattle.vd_static_values.specs.Operands.{AreOperands, stopping};

use crate::finding::unless_stopped;
use crate::subtypes::array_head;
use std::alloc::{AllocError, Global};
use vd_composites::Value;
use vd_forest::Cursor;
use vd_operations::Operation;
use vd_plain_values::operators::operate_on;
use vd_value_rules::IndicatedForm;
use vd_values::StopKind;

/// The operands again, with a stop where there is no value.
fn with_stops(
    alloc: Global,
    operands: &[Option<Value>],
) -> Result<Vec<Result<Value, StopKind>>, AllocError>
    ensures { IfOk result (λ made. made.items ≡ stopping operands.now) }
{
    let mut made: Vec<Result<Value, StopKind>> = Vec::new(alloc);
    for operand in operands {
        match operand {
            Some(value) => {
                let copy = value.duplicate(alloc)?;
                made.push(Ok(copy))?;
            }
            None => made.push(Err(StopKind::Range))?,
        }
    }
    Ok(made)
}

/// What an operator or a given function gives for its operands, where its result is of this subtype.
pub fn operate(
    alloc: Global,
    operation: &Operation,
    of_result: &Cursor<'_, IndicatedForm>,
    operands: &[Option<Value>],
) -> Result<Option<Value>, AllocError>
    ensures { (as' : List Argument) → AreOperands as' operands.now
        → IfOk result (λ found. IsFound found (operate_of_subtype (read_operation operation.now) (indicated_in of_result.now).subtype as')) }
{
    let array = array_head(of_result)?;
    let operands = with_stops(alloc, operands)?;
    let value = operate_on(alloc, array, operation, &operands)?;
    Ok(unless_stopped(value))
}
