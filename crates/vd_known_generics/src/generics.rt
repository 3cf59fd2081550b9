//! Generics by their forms, one after the other. (IEEE 1076, interface declarations; generic map aspects)

ghost use Rattle.std.specs.Prelude.{◌≡◌, ◌≤◌, ◌∷◌, IfOk, List, OnOk, length};
ghost use Rattle.vd_environments.specs.Environments.{Function, Static};
ghost use Rattle.vd_forest.specs.Store.{Extends};
ghost use Rattle.vd_known_generics.specs.Actuals.{IsCalled};
ghost use Rattle.vd_known_designs.specs.Designs.{Knows};
ghost use Rattle.vd_known_generics.specs.Standing.{CanStand, Stands, called_stands, function_of_copy};
ghost use Rattle.vd_value_rules.specs.Declaring.{KnownAndLeft, generic_stands as with_generic, generics_stand as with_generics, next_stands, type_stands as with_type};
ghost use Rattle.vd_value_rules.specs.Designs.{Design};
ghost use Rattle.vd_value_rules.specs.Knowledge.{Known, TwoIndicated};

use crate::constants::declared_constants_stand;
use crate::left::next_actual;
use crate::{Actual, ActualFunction, actual_function};
use std::alloc::{AllocError, Global};
use vd_composites::Value;
use vd_declarations::DeclId;
use vd_forest::{Cursor, Opened};
use vd_forms::Form;
use vd_known_designs::KnownDesign;
use vd_operations::number_made;
use vd_resolved::Resolved;
use vd_static_values::Entry;
use vd_values::Scalar;

/// A type that stands for its actual. It gives the actuals that are left.
fn type_stands<'s>(
    design: &mut KnownDesign<'_, '_>,
    number: DeclId,
    actuals: &'s [Actual],
) -> Result<&'s [Actual], AllocError>
    requires ready { CanStand design.old actuals.now }
    ensures stands { (d : Design) (s : KnownAndLeft) (ks : List Known) → Stands d design.old actuals.now s ks
        → IfOk result (λ left. Stands d design.new left.now (next_stands with_type number s.left s.known) ks) }
    ensures extends { OnOk result (Extends design.old.table.subtypes design.new.table.subtypes) }
{
    let Some(next) = next_actual(actuals) else {
        return Ok(actuals);
    };
    let of = next.first.indicated;
    design.table.set_type(number.number(), of.own, of.choosing)?;
    Ok(next.rest)
}

/// A function with these calls and a result of these subtypes.
pub(crate) fn function_set(
    design: &mut KnownDesign<'_, '_>,
    alloc: Global,
    number: DeclId,
    function: ActualFunction,
) -> Result<(), AllocError>
    requires own_in { function.of_result.own ≤ length design.old.table.subtypes }
    ensures knows { (d : Design) (i : TwoIndicated) (gives other : Function) (calls : Static) (k : Known) (ks : List Known) → Knows d design.old (k ∷ ks)
        → IsCalled design.old.table.subtypes d.table function i gives calls
        → OnOk result (Knows d design.new (called_stands number i gives other calls k ∷ ks)) }
    ensures same { design.new.table.subtypes ≡ design.old.table.subtypes }
{
    let of = function.of_result;
    let bounds = design.table.subtypes.all_bounds(of.own)?;
    let value = Value::scalar(alloc, Scalar::Literal(0))?;
    let entry = Entry {
        value,
        known: function.calls,
        subtype: of.own,
        bounds,
        shape: None,
        is_signal: false,
        operator: function.operator,
    };
    design.table.set(number.number(), entry, of.choosing)
}

/// A function that stands for its actual. It gives the actuals that are left.
fn function_stands<'s>(
    design: &mut KnownDesign<'_, '_>,
    alloc: Global,
    number: DeclId,
    actuals: &'s [Actual],
) -> Result<&'s [Actual], AllocError>
    requires ready { CanStand design.old actuals.now }
    ensures stands { (d : Design) (s : KnownAndLeft) (ks : List Known) → Stands d design.old actuals.now s ks
        → IfOk result (λ left. Stands d design.new left.now (next_stands (function_of_copy d) number s.left s.known) ks) }
    ensures same { OnOk result (design.new.table.subtypes ≡ design.old.table.subtypes) }
{
    let Some(next) = next_actual(actuals) else {
        return Ok(actuals);
    };
    let function = actual_function(design, next.first.copy);
    function_set(design, alloc, number, function)?;
    Ok(next.rest)
}

/// The generics that a node declares stand for their actuals. It gives the actuals that are left.
fn generic_stands<'s>(
    design: &mut KnownDesign<'_, '_>,
    alloc: Global,
    actuals: &'s [Actual],
    node: &Opened<'_, Resolved>,
) -> Result<&'s [Actual], AllocError>
    requires ready { CanStand design.old actuals.now }
    ensures stands { (d : Design) (s : KnownAndLeft) (ks : List Known) → Stands d design.old actuals.now s ks
        → IfOk result (λ left. Stands d design.new left.now (with_generic node.now.form.form d node.now.form node.now.parts s.left s.known) ks) }
    ensures extends { OnOk result (Extends design.old.table.subtypes design.new.table.subtypes) }
{
    match node.form.form {
        Form::GenericConstant => declared_constants_stand(design, alloc, actuals, &node.parts),
        Form::GenericType => {
            let number = number_made(&node.form, &node.parts);
            type_stands(design, number, actuals)
        }
        _ => {
            let number = number_made(&node.form, &node.parts.skip(1));
            function_stands(design, alloc, number, actuals)
        }
    }
}

/// Generics with these texts stand for their actuals.
pub(crate) fn all_stand(
    design: &mut KnownDesign<'_, '_>,
    alloc: Global,
    actuals: &[Actual],
    generics: &Cursor<'_, Resolved>,
) -> Result<(), AllocError>
    requires ready { CanStand design.old actuals.now }
    ensures knows { (d : Design) (s : KnownAndLeft) (ks : List Known) → Stands d design.old actuals.now s ks
        → OnOk result (Knows d design.new (with_generics d generics.now s.left s.known ∷ ks)) }
    ensures extends { OnOk result (Extends design.old.table.subtypes design.new.table.subtypes) }
{
    let mut left = actuals;
    let mut rest = generics.fork();
    while let Some(first) = rest.open() {
        left = generic_stands(design, alloc, left, &first)?;
        rest = first.next;
    }
    Ok(())
}
