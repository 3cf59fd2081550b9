//! What the declaration of a first piece of a name stands for. (IEEE 1076, names; function calls.)

ghost use Rattle.std.specs.Prelude.{◌≡◌, [], IfOk, true};
ghost use Rattle.vd_environments.specs.Environments.{Env};
ghost use Rattle.vd_value_rules.specs.Indicated.{static_of};
ghost use Rattle.vd_meaning.specs.Names.{called_here as called_standing, calls_known as known_of_calls, first_piece as piece_standing};
ghost use Rattle.vd_meaning.specs.Operators.{function_of};
ghost use Rattle.vd_static_values.specs.Entries.{IsFound, IsGround, table_of};
ghost use Rattle.vd_static_values.specs.Names.{IsName};
ghost use Rattle.vd_static_names.specs.Known.{HasSubtypes, IsWithin};

use std::alloc::{AllocError, Global};
use vd_composites::Value;
use vd_declarations::TypeId;
use vd_operations::tables::followed;
use vd_operations::{Role, role_of};
use vd_resolved::Resolved;
use vd_static_names::calls::{called, calls_known};
use vd_static_names::firsts::{literal, mark, object, signal};
use vd_static_names::values::no_name;
use vd_static_parts::calls::call_value;
use vd_static_parts::numbers::number_or;
use vd_static_values::{Ground, KnownName};
use vd_value_rules::StaticSort;

/// What a call without operands gives, where the calls of its function can be locally static.
fn value_of_call(
    alloc: Global,
    ground: &Ground<'_>,
    number: u32,
    calls: StaticSort,
) -> Result<Option<Value>, AllocError>
    requires { HasSubtypes ground.now }
    ensures { (e : Env) → IsGround ground.now e → static_of calls ≡ known_of_calls (table_of ground.now) number e → calls.is_local ≡ true
        → IfOk result (λ v. IsFound v (function_of (table_of ground.now) number e [])) }
{
    if !calls.is_local {
        return Ok(None);
    }
    call_value(alloc, ground, number, &[])
}

/// A function whose name has a type is called where it stands.
fn called_here(
    alloc: Global,
    ground: &Ground<'_>,
    number: u32,
    mark: Option<TypeId>,
) -> Result<KnownName, AllocError>
    requires { HasSubtypes ground.now }
    ensures within { IfOk result (IsWithin ground.now.subtypes.now) }
    ensures named { (e : Env) → IsGround ground.now e → IfOk result (λ x. IsName ground.now.subtypes.now e x (called_standing (table_of ground.now) number mark)) }
{
    if mark.is_none() {
        return Ok(no_name());
    }
    let function = followed(ground.declarations, number);
    let calls = calls_known(ground, function);
    let value = value_of_call(alloc, ground, function, calls)?;
    Ok(called(value, StaticSort::always(), calls))
}

/// A first piece of a name, or a selected name of a declaration.
pub fn first_piece(
    alloc: Global,
    ground: &Ground<'_>,
    node: &Resolved,
) -> Result<KnownName, AllocError>
    requires { HasSubtypes ground.now }
    ensures within { IfOk result (IsWithin ground.now.subtypes.now) }
    ensures named { (e : Env) → IsGround ground.now e → IfOk result (λ x. IsName ground.now.subtypes.now e x (piece_standing (table_of ground.now) node.now)) }
{
    let number = number_or(node.declaration);
    match role_of(ground.declarations, node.declaration) {
        Role::Constant | Role::Variable => object(alloc, ground, number),
        Role::Signal => Ok(signal(ground, number)),
        Role::Literal => literal(alloc, ground, node.position, node.mark),
        Role::Function => called_here(alloc, ground, number, node.mark),
        Role::Mark => Ok(mark(ground, number)),
        Role::Element | Role::Nothing => Ok(no_name()),
    }
}
