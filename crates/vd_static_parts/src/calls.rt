//! What calls of functions come to. (IEEE 1076, function calls; operators.)

ghost use Rattle.std.specs.Prelude.{◌≡◌, ◌≤◌, IfOk, List, length, true};
ghost use Rattle.vd_environments.specs.Environments.{Argument, Env};
ghost use Rattle.vd_forest.specs.Store.{at};
ghost use Rattle.vd_value_rules.specs.Indicated.{indicated_in};
ghost use Rattle.vd_meaning.specs.Names.{calls_known};
ghost use Rattle.vd_meaning.specs.Operators.{function_of, operate as operate_at, operation};
ghost use Rattle.vd_static_values.specs.Entries.{IsFound, IsGround, entry_at, table_of};
ghost use Rattle.vd_static_names.specs.Known.{HasSubtypes};
ghost use Rattle.vd_static_values.specs.Operands.{AreOperands};
ghost use Rattle.vd_value_rules.specs.Knowledge.{at_mark};

use std::alloc::{AllocError, Global};
use vd_composites::Value;
use vd_declarations::TypeId;
use vd_operations::operation_of;
use vd_operations::tables::{is_predefined, mark_of};
use vd_static_names::grounds::subtype_of;
use vd_static_values::{Ground, operate};

/// The predefined operator that a function stands for, if it stands for one.
fn operator_of(ground: &Ground<'_>, number: u32) -> Option<u32>
    ensures { result ≡ (entry_at ground.now.entries.now number).operator }
{
    match ground.entries.get(number as usize) {
        Some(entry) => entry.operator,
        None => None,
    }
}

/// The subtype of a mark by its number in the store, or no tree.
fn marked_subtype(ground: &Ground<'_>, mark: Option<TypeId>) -> u32
    requires subtypes { HasSubtypes ground.now }
    ensures within { result ≤ length ground.now.subtypes.now }
    ensures is { (e : Env) → IsGround ground.now e → indicated_in (at ground.now.subtypes.now result) ≡ at_mark mark e }
{
    match mark {
        Some(mark) => subtype_of(ground, mark.number()),
        None => 0,
    }
}

/// What a predefined operator gives.
fn operator_value(
    alloc: Global,
    ground: &Ground<'_>,
    number: u32,
    operands: &[Option<Value>],
) -> Result<Option<Value>, AllocError>
    requires subtypes { HasSubtypes ground.now }
    ensures { (e : Env) (as' : List Argument) → IsGround ground.now e → AreOperands as' operands.now → let t = table_of ground.now in
        IfOk result (λ v. IsFound v (operate_at (operation t number) (t.declared number).mark e as')) }
{
    let operation = operation_of(ground.declarations, number);
    let stored = marked_subtype(ground, mark_of(ground.declarations, number));
    operate(alloc, &operation, &ground.subtypes.cursor(stored), operands)
}

/// What a function gives that is written in the text, where its calls are locally static.
fn function_value(
    alloc: Global,
    ground: &Ground<'_>,
    number: u32,
    operands: &[Option<Value>],
) -> Result<Option<Value>, AllocError>
    requires subtypes { HasSubtypes ground.now }
    ensures { (e : Env) (as' : List Argument) → IsGround ground.now e → AreOperands as' operands.now → (e.denotes number).known.is_local ≡ true
        → IfOk result (λ v. IsFound v ((e.denotes number).function as')) }
{
    let Some(operator) = operator_of(ground, number) else {
        return Ok(None);
    };
    let operation = operation_of(ground.declarations, operator);
    let stored = subtype_of(ground, number);
    operate(alloc, &operation, &ground.subtypes.cursor(stored), operands)
}

/// What a call of a function gives whose calls can be locally static.
pub fn call_value(
    alloc: Global,
    ground: &Ground<'_>,
    number: u32,
    operands: &[Option<Value>],
) -> Result<Option<Value>, AllocError>
    requires subtypes { HasSubtypes ground.now }
    ensures { (e : Env) (as' : List Argument) → IsGround ground.now e → AreOperands as' operands.now → (calls_known (table_of ground.now) number e).is_local ≡ true
        → IfOk result (λ v. IsFound v (function_of (table_of ground.now) number e as')) }
{
    if is_predefined(ground.revision, ground.declarations, number) {
        operator_value(alloc, ground, number, operands)
    } else {
        function_value(alloc, ground, number, operands)
    }
}
