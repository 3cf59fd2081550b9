//! Generics that are constants. (IEEE 1076, interface object declarations; generic map aspects)

ghost use Rattle.std.specs.Prelude.{◌≡◌, ◌≤◌, ◌∷◌, IfOk, List, OnOk, length, true};
ghost use Rattle.vd_composites.specs.Subtypes.{Subtype};
ghost use Rattle.vd_environments.specs.Environments.{Argument};
ghost use Rattle.vd_environments.specs.Got.{Got};
ghost use Rattle.vd_forest.specs.Store.{Extends};
ghost use Rattle.vd_value_rules.specs.Indicated.{static_of};
ghost use Rattle.vd_known_generics.specs.Actuals.{IsActual};
ghost use Rattle.vd_known_designs.specs.Designs.{AreIndicated, IsReady, Knows};
ghost use Rattle.vd_known_generics.specs.Standing.{CanStand, Stands};
ghost use Rattle.vd_meaning.specs.Facets.{nth};
ghost use Rattle.vd_meaning.specs.Meanings.{meanings};
ghost use Rattle.vd_static_values.specs.Entries.{IsFound};
ghost use Rattle.vd_value_rules.specs.Declaring.{KnownAndLeft, TwoActuals, constant_stands as one_stands, constants_stand as all_stand};
ghost use Rattle.vd_value_rules.specs.Designs.{Design};
ghost use Rattle.vd_value_rules.specs.Knowledge.{Known, TwoIndicated, constant_of, early_value as value_early, indicated_twice as indicated_both_ways, meaning_at, parts_at};

use crate::Actual;
use crate::left::next_actual;
use std::alloc::{AllocError, Global};
use vd_composites::Value;
use vd_declarations::DeclId;
use vd_forest::Cursor;
use vd_function_names::numbers::numbers_of_first;
use vd_known_designs::{KnownDesign, TwoSubtypes};
use vd_known_forms::constants::{constants, early_value};
use vd_known_indications::{indicated_twice, node};
use vd_resolved::Resolved;
use vd_value_rules::StaticSort;

/// A constant whose actual or default is so static and has this value.
fn constant_set(
    design: &mut KnownDesign<'_, '_>,
    alloc: Global,
    number: DeclId,
    of: TwoSubtypes,
    known: StaticSort,
    value: &Option<Value>,
) -> Result<(), AllocError>
    requires own_in { of.own ≤ length design.old.table.subtypes }
    requires choosing_in { of.choosing ≤ length design.old.table.subtypes }
    ensures knows { (d : Design) (i : TwoIndicated) (k : Known) (ks : List Known) (argument : Argument)
        → (known.is_local ≡ true → (given : Got Subtype) → IsFound value.now (argument given))
        → Knows d design.old (k ∷ ks) → AreIndicated design.old.table.subtypes of i
        → OnOk result (Knows d design.new (constant_of number i (static_of known) (value_early (static_of known) argument i.own) k ∷ ks)) }
    ensures extends { OnOk result (Extends design.old.table.subtypes design.new.table.subtypes) }
{
    let value = early_value(alloc, design, of.own, known, value)?;
    constants(design, alloc, &[number], of, known, &value)
}

/// A constant that stands for its actual, or for its default where the map has none.
fn constant_stands(
    design: &mut KnownDesign<'_, '_>,
    alloc: Global,
    number: DeclId,
    of: TwoSubtypes,
    actual: &Actual,
    default: &Cursor<'_, Resolved>,
) -> Result<(), AllocError>
    requires ready { IsReady design.old }
    requires own_in { of.own ≤ length design.old.table.subtypes }
    requires choosing_in { of.choosing ≤ length design.old.table.subtypes }
    ensures knows { (d : Design) (i : TwoIndicated) (k : Known) (ks : List Known) (a : TwoActuals) → IsActual design.old.table.subtypes d.table actual.now a
        → Knows d design.old (k ∷ ks) → AreIndicated design.old.table.subtypes of i
        → OnOk result (Knows d design.new (one_stands (nth 0 (meanings d.table default.now)) i number a k ∷ ks)) }
    ensures extends { OnOk result (Extends design.old.table.subtypes design.new.table.subtypes) }
{
    match &actual.given {
        Some(given) => constant_set(design, alloc, number, of, given.known, &given.value),
        None => {
            let node = node(design, alloc, default)?;
            let sense = &node.sense;
            constant_set(design, alloc, number, of, sense.known, &sense.value)
        }
    }
}

/// Constants that are declared together. It gives the actuals that are left for the generics behind them.
///
/// A default is evaluated once for each constant for which the map has nothing.
fn constants_stand<'s>(
    design: &mut KnownDesign<'_, '_>,
    alloc: Global,
    numbers: &[DeclId],
    of: TwoSubtypes,
    actuals: &'s [Actual],
    default: &Cursor<'_, Resolved>,
) -> Result<&'s [Actual], AllocError>
    requires ready { CanStand design.old actuals.now }
    requires own_in { of.own ≤ length design.old.table.subtypes }
    requires choosing_in { of.choosing ≤ length design.old.table.subtypes }
    ensures stands { (d : Design) (i : TwoIndicated) (s : KnownAndLeft) (ks : List Known) → Stands d design.old actuals.now s ks
        → AreIndicated design.old.table.subtypes of i
        → IfOk result (λ left. Stands d design.new left.now (all_stand (nth 0 (meanings d.table default.now)) i numbers.now s.left s.known) ks) }
    ensures extends { OnOk result (Extends design.old.table.subtypes design.new.table.subtypes) }
{
    let mut left = actuals;
    for number in numbers {
        let Some(next) = next_actual(left) else {
            return Ok(left);
        };
        constant_stands(design, alloc, *number, of, next.first, default)?;
        left = next.rest;
    }
    Ok(left)
}

/// The constants of a declaration of generics with these parts.
pub(crate) fn declared_constants_stand<'s>(
    design: &mut KnownDesign<'_, '_>,
    alloc: Global,
    actuals: &'s [Actual],
    parts: &Cursor<'_, Resolved>,
) -> Result<&'s [Actual], AllocError>
    requires ready { CanStand design.old actuals.now }
    ensures stands { (d : Design) (s : KnownAndLeft) (ks : List Known) → Stands d design.old actuals.now s ks
        → IfOk result (λ left. Stands d design.new left.now (all_stand (meaning_at d 4 parts.now) (indicated_both_ways d s.known (parts_at 3 parts.now))
        (meaning_at d 1 parts.now).numbers s.left s.known) ks) }
    ensures extends { OnOk result (Extends design.old.table.subtypes design.new.table.subtypes) }
{
    let numbers = numbers_of_first(alloc, &parts.skip(1))?;
    let of = indicated_twice(design, alloc, &parts.skip(3).parts())?;
    constants_stand(design, alloc, &numbers, of, actuals, &parts.skip(4))
}
