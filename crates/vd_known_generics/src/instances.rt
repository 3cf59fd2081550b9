//! Generics that stand for their actuals, and what instances declare.

ghost use Rattle.std.specs.Prelude.{◌≡◌, ◌≤◌, ◌∷◌, IfOk, List, OnOk, length, map};
ghost use Rattle.vd_environments.specs.Environments.{never};
ghost use Rattle.vd_environments.specs.Got.{senseless};
ghost use Rattle.vd_forest.specs.Store.{Extends};
ghost use Rattle.vd_known_designs.specs.Designs.{AreIndicated, IsReady, Knows};
ghost use Rattle.vd_known_generics.specs.Inside.{IsInside, inside_of};
ghost use Rattle.vd_known_generics.specs.Standing.{called_stands};
ghost use Rattle.vd_known_indications.specs.Places.{IsRemembering};
ghost use Rattle.vd_known_designs.specs.Contents.{or_nothing};
ghost use Rattle.vd_meaning.specs.Meanings.{map_element, meanings};
ghost use Rattle.vd_meaning.specs.Names.{number_or};
ghost use Rattle.vd_value_rules.specs.Declaring.{FunctionInstance, actuals_known as all_known, declared_by, generics_stand as every_stand, instance_of_function, parameters_known as with_parameters, taken_known};
ghost use Rattle.vd_value_rules.specs.Designs.{Design};
ghost use Rattle.vd_value_rules.specs.Knowledge.{Known, TwoIndicated, indicated_twice as indicated_both_ways, known_in, later_objects as objects_later, meaning_at, parts_at};

use crate::copies::{all_copied, pairs, set_copies};
use crate::generics::{all_stand, function_set};
use crate::{ActualFunction, actuals_known};
use std::alloc::{AllocError, Global};
use vd_declarations::DeclId;
use vd_forest::Cursor;
use vd_function_names::numbers::numbers_of_first;
use vd_known_designs::{KnownDesign, TwoSubtypes};
use vd_known_forms::objects::later_objects;
use vd_known_indications::indicated_twice;
use vd_operations::tables::parameters_of;
use vd_operations::{declaration_of, elements_of, number_made};
use vd_resolved::Resolved;
use vd_value_rules::StaticSort;

/// Generics with these texts stand for the actuals of an instance, whose map has these elements, if there is one.
pub fn generics_stand(
    design: &mut KnownDesign<'_, '_>,
    alloc: Global,
    generic: DeclId,
    instance: DeclId,
    elements: &Option<Cursor<'_, Resolved>>,
    generics: &Cursor<'_, Resolved>,
) -> Result<(), AllocError>
    requires ready { IsReady design.old }
    ensures knows { (d : Design) (k : Known) (ks : List Known) → Knows d design.old (k ∷ ks)
        → OnOk result (Knows d design.new
        (every_stand d generics.now (all_known d generic instance (map map_element (meanings d.table (or_nothing elements.now))) k) k ∷ ks)) }
    ensures extends { OnOk result (Extends design.old.table.subtypes design.new.table.subtypes) }
{
    let actuals = actuals_known(design, alloc, generic, instance, elements)?;
    all_stand(design, alloc, &actuals, generics)
}

/// What an instance declares stands for what it is where its generics stand for the actuals. This is known, and what was known in front of the
/// instance is remembered.
pub fn taken(
    design: &mut KnownDesign<'_, '_>,
    alloc: Global,
    copies: &[(u32, u32)],
) -> Result<(), AllocError>
    requires remembering { IsRemembering design.old }
    ensures knows { (d : Design) (from k : Known) (ks : List Known) → Knows d design.old (from ∷ k ∷ ks)
        → OnOk result (Knows d design.new (taken_known copies.now from k ∷ ks)) }
    ensures subtypes { OnOk result (design.new.table.subtypes ≡ design.old.table.subtypes) }
{
    let copied = all_copied(alloc, design, copies)?;
    design.table.back();
    set_copies(design, copied)
}

/// Parameters that are declared together.
fn parameter_known(
    design: &mut KnownDesign<'_, '_>,
    alloc: Global,
    parts: &Cursor<'_, Resolved>,
) -> Result<(), AllocError>
    requires ready { IsReady design.old }
    ensures knows { (d : Design) (k : Known) (ks : List Known) → Knows d design.old (k ∷ ks)
        → OnOk result (Knows d design.new (objects_later (meaning_at d 1 parts.now).numbers (indicated_both_ways d k (parts_at 3 parts.now)) never k ∷ ks)) }
    ensures extends { OnOk result (Extends design.old.table.subtypes design.new.table.subtypes) }
{
    let numbers = numbers_of_first(alloc, &parts.skip(1))?;
    let of = indicated_twice(design, alloc, &parts.skip(3).parts())?;
    later_objects(design, &numbers, of, StaticSort::never())
}

/// Parameters, one after the other.
fn parameters_known(
    design: &mut KnownDesign<'_, '_>,
    alloc: Global,
    parameters: &Cursor<'_, Resolved>,
) -> Result<(), AllocError>
    requires ready { IsReady design.old }
    ensures knows { (d : Design) (k : Known) (ks : List Known) → Knows d design.old (k ∷ ks)
        → OnOk result (Knows d design.new (with_parameters d parameters.now k ∷ ks)) }
    ensures extends { OnOk result (Extends design.old.table.subtypes design.new.table.subtypes) }
{
    let mut rest = parameters.fork();
    while let Some(first) = rest.open() {
        parameter_known(design, alloc, &first.parts)?;
        rest = first.next;
    }
    Ok(())
}

/// What a function with this text is where its generics stand for the actuals of an instance. It gives the subtypes of its result.
fn with_text(
    design: &mut KnownDesign<'_, '_>,
    alloc: Global,
    function: DeclId,
    instance: DeclId,
    elements: &Option<Cursor<'_, Resolved>>,
    text: &Cursor<'_, Resolved>,
) -> Result<TwoSubtypes, AllocError>
    requires ready { IsReady design.old }
    ensures inside { (d : Design) (k : Known) (ks : List Known) → Knows d design.old (k ∷ ks) → IfOk result (λ of. IsInside d design.new of text.now
        (inside_of d function instance (map map_element (meanings d.table (or_nothing elements.now))) text.now k) ks) }
    ensures extends { OnOk result (Extends design.old.table.subtypes design.new.table.subtypes) }
{
    let generics = text.skip(2).parts();
    let parameters = text.skip(4).parts();
    generics_stand(design, alloc, function, instance, elements, &generics)?;
    parameters_known(design, alloc, &parameters)?;
    Ok(design.marked(declaration_of(&text.skip(5))))
}

/// The same for a text that may not be there.
fn inside(
    design: &mut KnownDesign<'_, '_>,
    alloc: Global,
    function: DeclId,
    instance: DeclId,
    elements: &Option<Cursor<'_, Resolved>>,
    text: &Option<Cursor<'_, Resolved>>,
) -> Result<TwoSubtypes, AllocError>
    requires ready { IsReady design.old }
    ensures inside { (d : Design) (k : Known) (ks : List Known) → Knows d design.old (k ∷ ks) → IfOk result (λ of. IsInside d design.new of (or_nothing text.now)
        (inside_of d function instance (map map_element (meanings d.table (or_nothing elements.now))) (or_nothing text.now) k) ks) }
    ensures extends { OnOk result (Extends design.old.table.subtypes design.new.table.subtypes) }
{
    match text {
        Some(text) => with_text(design, alloc, function, instance, elements, text),
        None => Ok(design.marked(None)),
    }
}

/// An instance with a result of these subtypes. What its calls give isn't known when the text is analysed.
fn result_set(
    design: &mut KnownDesign<'_, '_>,
    alloc: Global,
    instance: DeclId,
    of: TwoSubtypes,
) -> Result<(), AllocError>
    requires own_in { of.own ≤ length design.old.table.subtypes }
    ensures knows { (d : Design) (i : TwoIndicated) (k : Known) (ks : List Known) → Knows d design.old (k ∷ ks) → AreIndicated design.old.table.subtypes of i
        → OnOk result (Knows d design.new (called_stands instance i (λ _. senseless) (λ _. senseless) (known_in k.env) k ∷ ks)) }
    ensures same { design.new.table.subtypes ≡ design.old.table.subtypes }
{
    let function = ActualFunction {
        of_result: of,
        calls: StaticSort {
            is_local: false,
            is_global: !design.table.is_inside(),
        },
        operator: None,
    };
    function_set(design, alloc, instance, function)
}

/// The number of a declaration; 0 where there is none.
fn number_or_none(declaration: Option<DeclId>) -> DeclId
    ensures { result ≡ number_or declaration }
{
    match declaration {
        Some(number) => number,
        None => DeclId::of(0),
    }
}

/// What an instance of a function declares, by the elements of its map.
fn instance_known(
    design: &mut KnownDesign<'_, '_>,
    alloc: Global,
    function: DeclId,
    instance: DeclId,
    elements: &Option<Cursor<'_, Resolved>>,
) -> Result<(), AllocError>
    requires ready { IsReady design.old }
    ensures knows { (d : Design) (k : Known) (ks : List Known) → Knows d design.old (k ∷ ks)
        → OnOk result (Knows d design.new (instance_of_function d function instance (map map_element (meanings d.table (or_nothing elements.now))) k ∷ ks)) }
    ensures extends { OnOk result (Extends design.old.table.subtypes design.new.table.subtypes) }
{
    let parameters = parameters_of(design.declarations, function.number());
    let copies = parameters_of(design.declarations, instance.number());
    let copies = pairs(alloc, parameters, copies)?;
    let text = design.table.function_text(function.number());
    design.table.remember()?;
    let of = inside(design, alloc, function, instance, elements, &text)?;
    let copied = all_copied(alloc, design, &copies)?;
    design.table.back();
    result_set(design, alloc, instance, of)?;
    set_copies(design, copied)
}

/// An instance of a function with these parts.
pub fn function_instance_declared(
    design: &mut KnownDesign<'_, '_>,
    alloc: Global,
    node: &Resolved,
    parts: &Cursor<'_, Resolved>,
) -> Result<(), AllocError>
    requires ready { IsReady design.old }
    ensures knows { (d : Design) (inner k : Known) (ks : List Known) → Knows d design.old (k ∷ ks)
        → OnOk result (Knows d design.new (declared_by FunctionInstance d node.now parts.now inner k ∷ ks)) }
    ensures extends { OnOk result (Extends design.old.table.subtypes design.new.table.subtypes) }
{
    let function = number_or_none(declaration_of(&parts.skip(2)));
    let instance = number_made(node, &parts.skip(1));
    let elements = elements_of(&parts.skip(3));
    instance_known(design, alloc, function, instance, &elements)
}
