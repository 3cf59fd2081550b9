//! Lists in brackets behind a name: calls, conversions, indexes and slices. (IEEE 1076, function calls; type conversions; indexed names; slice names.)

ghost use Rattle.std.specs.Prelude.{◌≡◌, ◌&&◌, IfOk, List, Option, true, ℕ};
ghost use Rattle.vd_environments.specs.Environments.{Env, Signals};
ghost use Rattle.vd_environments.specs.Got.{Got};
ghost use Rattle.vd_forest.specs.Forest.{Forest};
ghost use Rattle.vd_value_rules.specs.Indicated.{static_of};
ghost use Rattle.vd_value_rules.specs.declared.forms.IndicatedForm.{IndicatedForm};
ghost use Rattle.vd_meaning.specs.Brackets.{arguments_for, by_role, called_with as called_function, element_or_slice as index_or_range, operation_called};
ghost use Rattle.vd_meaning.specs.Facets.{Meaning, known_of as known_in, nth, value_of};
ghost use Rattle.vd_meaning.specs.Kinds;
ghost use Rattle.vd_meaning.specs.Names.{Named, call_known, conversion_of, number_or as or_zero};
ghost use Rattle.vd_meaning.specs.Operators.{function_of};
ghost use Rattle.vd_meaning.specs.Tables.{is_vector as is_vector_type, role_of as role_in};
ghost use Rattle.vd_resolved.specs.declared.node.Resolved.{Resolved as AnyNode};
ghost use Rattle.vd_static_values.specs.Entries.{IsFound, IsGround, table_of};
ghost use Rattle.vd_static_values.specs.Names.{IsName};
ghost use Rattle.vd_static_values.specs.Nodes.{AreNodes, IsBracketed};
ghost use Rattle.vd_static_names.specs.Known.{HasSubtypes, IsWithin};
ghost use Rattle.vd_static_parts.specs.Made.{IsMade, IsSound, IsSoundBracketed};
ghost use Rattle.vd_static_nodes.specs.Calls.{is_edge as is_edge_meant};

use crate::arguments::values_for;
use crate::parts::{first_name, first_value};
use std::alloc::{AllocError, Global};
use vd_composites::Value;
use vd_operations::tables::{followed, is_predefined, parameters_of};
use vd_operations::{Operation, Role, operation_of, role_of};
use vd_predefined::numbers::{STD_LOGIC_VECTOR, STD_ULOGIC_VECTOR};
use vd_resolved::Resolved;
use vd_static_names::calls::{called, calls_known};
use vd_static_names::values::fresh;
use vd_static_parts::calls::call_value;
use vd_static_parts::conversion;
use vd_static_parts::nodes::piece;
use vd_static_parts::numbers::{mark_number, number_or};
use vd_static_parts::parts::{first_known, first_range, known_of};
use vd_static_values::{Arguments, Bracketed, Ground, KnownName, Node, Piece, Ranging};
use vd_value_rules::StaticSort;

// ---- calls

/// Whether a function is rising_edge or falling_edge.
fn is_edge(ground: &Ground<'_>, function: u32) -> bool
    ensures { result ≡ is_edge_meant (operation_called (table_of ground.now) function) }
{
    is_predefined(ground.revision, ground.declarations, function)
        && matches!(
            operation_of(ground.declarations, function),
            Operation::Edge(_)
        )
}

/// What a call gives, where its function and its arguments are so static.
fn result_of_call(
    alloc: Global,
    ground: &Ground<'_>,
    function: u32,
    parts: &[Node<'_>],
    known: StaticSort,
) -> Result<Option<Value>, AllocError>
    requires { HasSubtypes ground.now }
    ensures { (e : Env) (ms : List Meaning) → IsGround ground.now e → AreNodes ground.now.subtypes.now e parts.now ms
        → static_of known ≡ call_known (table_of ground.now) function (known_in ms e) e → (call_known (table_of ground.now) function (known_in ms e) e).is_local ≡ true
        → IfOk result (λ v. IsFound v
        (function_of (table_of ground.now) function e (arguments_for 0 ((table_of ground.now).declared function).parameters ms e))) }
{
    if !known.is_local {
        return Ok(None);
    }
    let parameters = parameters_of(ground.declarations, function);
    let operands = values_for(alloc, parameters, parts)?;
    call_value(alloc, ground, function, &operands)
}

/// A call of a function. What looks at a signal is never known early.
fn call(
    alloc: Global,
    ground: &Ground<'_>,
    function: u32,
    parts: &[Node<'_>],
) -> Result<KnownName, AllocError>
    requires { HasSubtypes ground.now }
    ensures within { IfOk result (IsWithin ground.now.subtypes.now) }
    ensures named { (e : Env) (n : AnyNode) (ms : List Meaning) (p : Named) → IsGround ground.now e → AreNodes ground.now.subtypes.now e parts.now ms
        → IfOk result (λ x. IsName ground.now.subtypes.now e x
        (called_function (operation_called (table_of ground.now) function) (table_of ground.now) function n ms p)) }
{
    if is_edge(ground, function) {
        return Ok(fresh(None, StaticSort::never()));
    }
    let known = known_of(parts);
    let calls = calls_known(ground, function);
    let value = result_of_call(alloc, ground, function, parts, calls.both(known))?;
    Ok(called(value, known, calls))
}

// ---- conversions

/// Whether a mark is one of the vector types of IEEE 1164.
fn is_vector(mark: u32) -> bool
    ensures { result ≡ is_vector_type mark }
{
    mark == STD_ULOGIC_VECTOR || mark == STD_LOGIC_VECTOR
}

/// The number of the type of the first part, or 0 where it has none.
fn first_mark(parts: &[Node<'_>]) -> u32
    ensures { (subtypes : List (Forest IndicatedForm)) (e : Env) (ms : List Meaning) → AreNodes subtypes e parts.now ms → result ≡ or_zero (nth 0 ms).mark }
{
    match parts.first() {
        Some(first) => mark_number(first.sense.mark),
        None => 0,
    }
}

/// Whether both a mark and the type of an operand are vector types.
fn is_between_vectors(mark: u32, operand: u32) -> bool
    ensures { result ≡ (is_vector_type mark && is_vector_type operand) }
{
    is_vector(mark) && is_vector(operand)
}

/// A conversion of the first part to the type that a mark names.
fn converted(
    alloc: Global,
    ground: &Ground<'_>,
    mark: u32,
    parts: &[Node<'_>],
) -> Result<KnownName, AllocError>
    requires { HasSubtypes ground.now }
    ensures within { IfOk result (IsWithin ground.now.subtypes.now) }
    ensures named { (e : Env) (ms : List Meaning) (m : Option ℕ) (inner : Env → Got (List Signals)) → IsGround ground.now e
        → AreNodes ground.now.subtypes.now e parts.now ms → IfOk result (λ x. IsName ground.now.subtypes.now e x
        (conversion_of (is_vector_type mark && is_vector_type (or_zero (nth 0 ms).mark)) mark m (value_of (nth 0 ms)) (nth 0 ms).known inner (nth 0 ms).name)) }
{
    let between_vectors = is_between_vectors(mark, first_mark(parts));
    let value = first_value(alloc, parts)?;
    let known = first_known(parts);
    let name = first_name(alloc, parts)?;
    conversion(alloc, ground, mark, between_vectors, &value, known, &name)
}

// ---- indexes and slices

/// A range in brackets is a slice, and a value an index.
fn element_or_slice(parts: &[Node<'_>]) -> Bracketed
    ensures sound { (subtypes : List (Forest IndicatedForm)) → IsSoundBracketed subtypes result }
    ensures bracketed { (subtypes : List (Forest IndicatedForm)) (e : Env) (n : AnyNode) (ms : List Meaning) (p : Named) → AreNodes subtypes e parts.now ms
        → IsBracketed subtypes e result (nth 0 ms).known p (index_or_range (nth 0 ms).range n ms p) }
{
    match first_range(parts) {
        Ranging::Range(bounds) => Bracketed::Slice(bounds),
        Ranging::NoRange => Bracketed::Element,
    }
}

// ---- lists in brackets

/// What a list in brackets is, by what its node names, behind what isn't an attribute of a type.
fn bracketed(
    alloc: Global,
    ground: &Ground<'_>,
    node: &Resolved,
    parts: &[Node<'_>],
) -> Result<Bracketed, AllocError>
    requires { HasSubtypes ground.now }
    ensures sound { IfOk result (IsSoundBracketed ground.now.subtypes.now) }
    ensures bracketed { (e : Env) (ms : List Meaning) (p : Named) → IsGround ground.now e → AreNodes ground.now.subtypes.now e parts.now ms
        → IfOk result (λ b. IsBracketed ground.now.subtypes.now e b (nth 0 ms).known p
        (by_role (role_in (table_of ground.now) node.now.declaration) (table_of ground.now) node.now ms p)) }
{
    match role_of(ground.declarations, node.declaration) {
        Role::Function => {
            let function = followed(ground.declarations, number_or(node.declaration));
            let name = call(alloc, ground, function, parts)?;
            Ok(Bracketed::Own(name))
        }
        Role::Mark => {
            let name = converted(alloc, ground, number_or(node.declaration), parts)?;
            Ok(Bracketed::Own(name))
        }
        _ => Ok(element_or_slice(parts)),
    }
}

/// A list in brackets behind a name.
pub fn arguments_piece<'a>(
    alloc: Global,
    ground: &Ground<'_>,
    node: Resolved,
    text: &'a [u8],
    parts: &[Node<'a>],
) -> Result<Node<'a>, AllocError>
    requires subtypes { HasSubtypes ground.now }
    ensures sound { IfOk result (IsSound ground.now.subtypes.now) }
    ensures node { IfOk result (IsMade Kinds.ArgumentsPiece ground.now node text.now parts.now) }
{
    let value = first_value(alloc, parts)?;
    let known = first_known(parts);
    let otherwise = bracketed(alloc, ground, &node, parts)?;
    let arguments = Arguments {
        value,
        known,
        otherwise,
    };
    Ok(piece(alloc, node, text, Piece::Arguments(arguments)))
}
