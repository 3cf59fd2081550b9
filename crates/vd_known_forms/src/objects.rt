//! Objects that are declared together.

ghost use Rattle.std.specs.Prelude.{◌≡◌, ◌≤◌, OnOk, false, length};
ghost use Rattle.vd_forest.specs.Store.{Extends};
ghost use Rattle.vd_value_rules.specs.Indicated.{static_of};
ghost use Rattle.vd_known_forms.specs.Objects.{DeclaresObjects};
ghost use Rattle.vd_value_rules.specs.Knowledge.{later_objects as objects_later, signals_known};

use std::alloc::AllocError;
use vd_declarations::DeclId;
use vd_known_designs::shapes::default_shape;
use vd_known_designs::{KnownDesign, TwoSubtypes};
use vd_value_rules::StaticSort;

/// Objects whose values aren't known when the text is analysed: variables, parameters, generics where they stand for no actuals.
pub fn later_objects(
    design: &mut KnownDesign<'_, '_>,
    numbers: &[DeclId],
    of: TwoSubtypes,
    known: StaticSort,
) -> Result<(), AllocError>
    requires own_in { of.own ≤ length design.old.table.subtypes }
    requires choosing_in { of.choosing ≤ length design.old.table.subtypes }
    requires later { known.is_local ≡ false }
    ensures knows { DeclaresObjects (λ i. objects_later numbers.now i (static_of known)) of result design.old design.new }
    ensures extends { OnOk result (Extends design.old.table.subtypes design.new.table.subtypes) }
{
    let shape = default_shape(&design.table.subtypes.store().cursor(of.own))?;
    for number in numbers {
        design
            .table
            .set_object(number.number(), of.own, of.choosing, None, known, shape)?;
    }
    Ok(())
}

/// Signals and ports.
pub fn signals(
    design: &mut KnownDesign<'_, '_>,
    numbers: &[DeclId],
    of: TwoSubtypes,
) -> Result<(), AllocError>
    requires own_in { of.own ≤ length design.old.table.subtypes }
    ensures knows { DeclaresObjects (λ i. signals_known numbers.now i) of result design.old design.new }
    ensures extends { OnOk result (Extends design.old.table.subtypes design.new.table.subtypes) }
{
    for number in numbers {
        design
            .table
            .set_signal(number.number(), of.own, of.choosing)?;
    }
    Ok(())
}
