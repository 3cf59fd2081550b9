//! The values of expressions.

ghost use Rattle.std.specs.Prelude.{◌≡◌, slice_index_or, OnOk, IfOk};
ghost use Rattle.vd_values.specs.LogicTables.{column_of};
ghost use Rattle.vd_kernel.specs.Values.{logic_of};
ghost use Rattle.vd_simulation.specs.Turns.{view_of};
ghost use Rattle.vd_first_elaboration.specs.Expressions.{node_value as value_of_node};
ghost use Rattle.vd_first_elaboration.specs.Processes.{scalar_of};
ghost use Rattle.vd_first_processes.specs.Operations.{after_operation, value_of};
ghost use Rattle.vd_first_processes.specs.Resolved.{signal_value};

use crate::expressions::Operation;
use std::alloc::AllocError;
use vd_first_trees::Form;
use vd_simulation::Seen;
use vd_values::{Logic, Scalar, logic_and, logic_not};

const VALUES: [Logic; 9] = [
    Logic::U,
    Logic::X,
    Logic::Zero,
    Logic::One,
    Logic::Z,
    Logic::W,
    Logic::L,
    Logic::H,
    Logic::Dash,
];

fn logic_value(value: Scalar) -> Logic
    ensures { result ≡ logic_of value }
{
    match value {
        Scalar::Literal(position) => {
            if position < 9 {
                VALUES[position as usize]
            } else {
                Logic::U
            }
        }
        _ => Logic::U,
    }
}

fn position_of(value: Logic) -> u32
    ensures { result ≡ column_of value }
{
    match value {
        Logic::U => 0,
        Logic::X => 1,
        Logic::Zero => 2,
        Logic::One => 3,
        Logic::Z => 4,
        Logic::W => 5,
        Logic::L => 6,
        Logic::H => 7,
        Logic::Dash => 8,
    }
}

fn value_at(values: &[Logic], i: usize) -> Logic
    ensures { result ≡ slice_index_or values.now i Logic.X }
{
    if i < values.len() {
        values[i]
    } else {
        Logic::X
    }
}

// A node's value, from that of the object that its own text names and those of its parts.
fn node_value(form: Form, own: Logic, parts: &[Logic]) -> Logic
    ensures { result ≡ value_of_node form own parts.now }
{
    match form {
        Form::And => logic_and(value_at(parts, 0), value_at(parts, 1)),
        Form::Not => logic_not(value_at(parts, 0)),
        Form::Identifier => own,
        _ => value_at(parts, 0),
    }
}

// Puts the value of a node in the place of those of its parts, which are the last.
fn apply(stack: &mut Vec<Logic>, operation: Operation, seen: &Seen) -> Result<(), AllocError>
    ensures { OnOk result (stack.new.items ≡ after_operation (signal_value (view_of seen.now)) stack.old.items operation) }
{
    let below = stack.len().saturating_sub(operation.parts);
    let own = logic_value(seen.value(operation.object));
    let value = node_value(operation.form, own, &stack[below..]);
    stack.truncate(below);
    stack.push(value)?;
    Ok(())
}

/// The value of the first of the expressions that these operations stand for. What the stack holds is lost.
pub fn evaluate(
    stack: &mut Vec<Logic>,
    operations: &[Operation],
    seen: &Seen,
) -> Result<Scalar, AllocError>
    ensures { IfOk result (λ v. v ≡ scalar_of (value_of (signal_value (view_of seen.now)) operations.now)) }
{
    stack.clear();
    for operation in operations {
        apply(stack, *operation, seen)?;
    }
    Ok(Scalar::Literal(position_of(value_at(stack, 0))))
}
