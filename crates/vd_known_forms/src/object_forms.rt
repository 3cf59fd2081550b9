//! Declarations of objects. (IEEE 1076, object declarations; interface object declarations)

ghost use Rattle.std.specs.Prelude.{◌≡◌, ◌∷◌, IfOk, List, OnOk, false};
ghost use Rattle.vd_forest.specs.Store.{Extends};
ghost use Rattle.vd_value_rules.specs.Indicated.{static_of};
ghost use Rattle.vd_known_designs.specs.Designs.{AreIndicated, IsReady, Knows};
ghost use Rattle.vd_known_forms.specs.Views.{HasViews};
ghost use Rattle.vd_resolved.specs.declared.node.Resolved.{Resolved as AnyNode};
ghost use Rattle.vd_value_rules.specs.Declaring.{Constants, GenericConstants, SomeParameters, SomePorts, SomeSignals, Variables, ViewPorts, declared_by};
ghost use Rattle.vd_value_rules.specs.Designs.{Design};
ghost use Rattle.vd_value_rules.specs.Knowledge.{Known, indicated_twice as indicated_both_ways, later_objects as objects_later, meaning_at, parts_at, signals_known, view_port_indicated as port_indicated};

use crate::constants::{constants, early_value};
use crate::objects::{later_objects, signals};
use std::alloc::{AllocError, Global};
use vd_declarations::DeclId;
use vd_forest::Cursor;
use vd_function_names::numbers::numbers_of_first;
use vd_known_designs::{KnownDesign, TwoSubtypes};
use vd_known_indications::{indicated_twice, node};
use vd_operations::{declaration_of, is_present};
use vd_port_modes::Interfaces;
use vd_resolved::Resolved;
use vd_value_rules::StaticSort;

/// What objects that are declared together have in common: their numbers, and their subtype.
#[derive(Drop)]
struct Together {
    numbers: Vec<DeclId>,
    of: TwoSubtypes,
}

/// Objects by the parts that are their list of identifiers and their subtype indication.
fn declared_together(
    design: &mut KnownDesign<'_, '_>,
    alloc: Global,
    parts: &Cursor<'_, Resolved>,
    identifiers: u32,
    indication: u32,
) -> Result<Together, AllocError>
    requires ready { IsReady design.old }
    ensures numbers { IfOk result (λ x. (d : Design) → x.numbers.items ≡ (meaning_at d identifiers parts.now).numbers) }
    ensures indicated { (d : Design) (k : Known) (ks : List Known) → Knows d design.old (k ∷ ks)
        → IfOk result (λ x. AreIndicated design.new.table.subtypes x.of (indicated_both_ways d k (parts_at indication parts.now))) }
    ensures knows { (d : Design) (ks : List Known) → Knows d design.old ks → OnOk result (Knows d design.new ks) }
    ensures extends { OnOk result (Extends design.old.table.subtypes design.new.table.subtypes) }
{
    let numbers = numbers_of_first(alloc, &parts.skip(identifiers))?;
    let of = indicated_twice(design, alloc, &parts.skip(indication).parts())?;
    Ok(Together { numbers, of })
}

/// Objects whose values are known later, by the parts that are their list of identifiers and their subtype indication.
pub(crate) fn later_declared(
    design: &mut KnownDesign<'_, '_>,
    alloc: Global,
    parts: &Cursor<'_, Resolved>,
    identifiers: u32,
    indication: u32,
    known: StaticSort,
) -> Result<(), AllocError>
    requires ready { IsReady design.old }
    requires later { known.is_local ≡ false }
    ensures knows { (d : Design) (k : Known) (ks : List Known) → Knows d design.old (k ∷ ks) → OnOk result (Knows d design.new (
        objects_later (meaning_at d identifiers parts.now).numbers (indicated_both_ways d k (parts_at indication parts.now)) (static_of known) k ∷ ks)) }
    ensures extends { OnOk result (Extends design.old.table.subtypes design.new.table.subtypes) }
{
    let objects = declared_together(design, alloc, parts, identifiers, indication)?;
    later_objects(design, &objects.numbers, objects.of, known)
}

/// Signals, by the parts that are their list of identifiers and their subtype indication.
fn signals_at(
    design: &mut KnownDesign<'_, '_>,
    alloc: Global,
    parts: &Cursor<'_, Resolved>,
    identifiers: u32,
    indication: u32,
) -> Result<(), AllocError>
    requires ready { IsReady design.old }
    ensures knows { (d : Design) (k : Known) (ks : List Known) → Knows d design.old (k ∷ ks) → OnOk result (Knows d design.new (
        signals_known (meaning_at d identifiers parts.now).numbers (indicated_both_ways d k (parts_at indication parts.now)) k ∷ ks)) }
    ensures extends { OnOk result (Extends design.old.table.subtypes design.new.table.subtypes) }
{
    let objects = declared_together(design, alloc, parts, identifiers, indication)?;
    signals(design, &objects.numbers, objects.of)
}

/// A constant declaration with these parts.
pub fn constants_declared(
    design: &mut KnownDesign<'_, '_>,
    alloc: Global,
    parts: &Cursor<'_, Resolved>,
) -> Result<(), AllocError>
    requires ready { IsReady design.old }
    ensures knows { (d : Design) (n : AnyNode) (inner k : Known) (ks : List Known) → Knows d design.old (k ∷ ks)
        → OnOk result (Knows d design.new (declared_by Constants d n parts.now inner k ∷ ks)) }
    ensures extends { OnOk result (Extends design.old.table.subtypes design.new.table.subtypes) }
{
    let expression = node(design, alloc, &parts.skip(2))?;
    let objects = declared_together(design, alloc, parts, 0, 1)?;
    let known = expression.sense.known;
    let value = early_value(
        alloc,
        design,
        objects.of.own,
        known,
        &expression.sense.value,
    )?;
    constants(design, alloc, &objects.numbers, objects.of, known, &value)
}

/// A variable declaration with these parts.
pub fn variables_declared(
    design: &mut KnownDesign<'_, '_>,
    alloc: Global,
    parts: &Cursor<'_, Resolved>,
) -> Result<(), AllocError>
    requires ready { IsReady design.old }
    ensures knows { (d : Design) (n : AnyNode) (inner k : Known) (ks : List Known) → Knows d design.old (k ∷ ks)
        → OnOk result (Knows d design.new (declared_by Variables d n parts.now inner k ∷ ks)) }
    ensures extends { OnOk result (Extends design.old.table.subtypes design.new.table.subtypes) }
{
    later_declared(design, alloc, parts, 0, 1, StaticSort::never())
}

/// A signal declaration with these parts.
pub fn signals_declared(
    design: &mut KnownDesign<'_, '_>,
    alloc: Global,
    parts: &Cursor<'_, Resolved>,
) -> Result<(), AllocError>
    requires ready { IsReady design.old }
    ensures knows { (d : Design) (n : AnyNode) (inner k : Known) (ks : List Known) → Knows d design.old (k ∷ ks)
        → OnOk result (Knows d design.new (declared_by SomeSignals d n parts.now inner k ∷ ks)) }
    ensures extends { OnOk result (Extends design.old.table.subtypes design.new.table.subtypes) }
{
    signals_at(design, alloc, parts, 0, 1)
}

/// A declaration of ports with a mode, with these parts.
pub fn ports_declared(
    design: &mut KnownDesign<'_, '_>,
    alloc: Global,
    parts: &Cursor<'_, Resolved>,
) -> Result<(), AllocError>
    requires ready { IsReady design.old }
    ensures knows { (d : Design) (n : AnyNode) (inner k : Known) (ks : List Known) → Knows d design.old (k ∷ ks)
        → OnOk result (Knows d design.new (declared_by SomePorts d n parts.now inner k ∷ ks)) }
    ensures extends { OnOk result (Extends design.old.table.subtypes design.new.table.subtypes) }
{
    signals_at(design, alloc, parts, 1, 3)
}

/// A declaration of generic constants with these parts, where they stand for no actuals.
pub fn generics_declared(
    design: &mut KnownDesign<'_, '_>,
    alloc: Global,
    parts: &Cursor<'_, Resolved>,
) -> Result<(), AllocError>
    requires ready { IsReady design.old }
    ensures knows { (d : Design) (n : AnyNode) (inner k : Known) (ks : List Known) → Knows d design.old (k ∷ ks)
        → OnOk result (Knows d design.new (declared_by GenericConstants d n parts.now inner k ∷ ks)) }
    ensures extends { OnOk result (Extends design.old.table.subtypes design.new.table.subtypes) }
{
    let known = StaticSort {
        is_local: false,
        is_global: true,
    };
    later_declared(design, alloc, parts, 1, 3, known)
}

/// A declaration of parameters with these parts.
pub fn parameters_declared(
    design: &mut KnownDesign<'_, '_>,
    alloc: Global,
    parts: &Cursor<'_, Resolved>,
) -> Result<(), AllocError>
    requires ready { IsReady design.old }
    ensures knows { (d : Design) (n : AnyNode) (inner k : Known) (ks : List Known) → Knows d design.old (k ∷ ks)
        → OnOk result (Knows d design.new (declared_by SomeParameters d n parts.now inner k ∷ ks)) }
    ensures extends { OnOk result (Extends design.old.table.subtypes design.new.table.subtypes) }
{
    later_declared(design, alloc, parts, 1, 3, StaticSort::never())
}

/// The subtype of ports with a view, which is that of the view where none is written.
fn view_port_indicated(
    design: &mut KnownDesign<'_, '_>,
    interfaces: &Interfaces<'_>,
    alloc: Global,
    parts: &Cursor<'_, Resolved>,
) -> Result<TwoSubtypes, AllocError>
    requires ready { IsReady design.old }
    ensures indicated { (d : Design) (k : Known) (ks : List Known) → HasViews d interfaces.now → Knows d design.old (k ∷ ks)
        → IfOk result (λ x. AreIndicated design.new.table.subtypes x (port_indicated d k parts.now)) }
    ensures knows { (d : Design) (ks : List Known) → Knows d design.old ks → OnOk result (Knows d design.new ks) }
    ensures extends { OnOk result (Extends design.old.table.subtypes design.new.table.subtypes) }
{
    let indication = parts.skip(4);
    if is_present(&indication) {
        indicated_twice(design, alloc, &indication.parts())
    } else {
        let mark = interfaces.mark_of_view(declaration_of(&parts.skip(2)));
        Ok(design.marked(mark))
    }
}

/// A declaration of ports with a view, with these parts.
pub fn view_ports_declared(
    design: &mut KnownDesign<'_, '_>,
    interfaces: &Interfaces<'_>,
    alloc: Global,
    parts: &Cursor<'_, Resolved>,
) -> Result<(), AllocError>
    requires ready { IsReady design.old }
    ensures knows { (d : Design) (n : AnyNode) (inner k : Known) (ks : List Known) → HasViews d interfaces.now
        → Knows d design.old (k ∷ ks) → OnOk result (Knows d design.new (declared_by ViewPorts d n parts.now inner k ∷ ks)) }
    ensures extends { OnOk result (Extends design.old.table.subtypes design.new.table.subtypes) }
{
    let numbers = numbers_of_first(alloc, &parts.skip(1))?;
    let of = view_port_indicated(design, interfaces, alloc, parts)?;
    signals(design, &numbers, of)
}
