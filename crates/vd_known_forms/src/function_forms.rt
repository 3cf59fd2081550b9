//! Declarations of functions and packages. (IEEE 1076, subprogram declarations; package declarations)

ghost use Rattle.std.specs.Prelude.{◌∷◌, List, OnOk};
ghost use Rattle.vd_forest.specs.Store.{Extends};
ghost use Rattle.vd_known_designs.specs.Designs.{IsReady, Knows};
ghost use Rattle.vd_value_rules.specs.Declaring.{AFunction, AGenericFunction, APackage, declared_by, parameters_known as all_parameters_known};
ghost use Rattle.vd_value_rules.specs.Designs.{Design};
ghost use Rattle.vd_value_rules.specs.Knowledge.{Known};

use crate::object_forms::later_declared;
use crate::{function_known, result_known};
use std::alloc::{AllocError, Global};
use vd_forest::Cursor;
use vd_known_designs::KnownDesign;
use vd_operations::{declaration_of, is_present, number_made};
use vd_resolved::Resolved;
use vd_value_rules::StaticSort;

/// The parameters of a function, one after the other.
fn parameters_known(
    design: &mut KnownDesign<'_, '_>,
    alloc: Global,
    parameters: &Cursor<'_, Resolved>,
) -> Result<(), AllocError>
    requires ready { IsReady design.old }
    ensures knows { (d : Design) (k : Known) (ks : List Known) → Knows d design.old (k ∷ ks)
        → OnOk result (Knows d design.new (all_parameters_known d parameters.now k ∷ ks)) }
    ensures extends { OnOk result (Extends design.old.table.subtypes design.new.table.subtypes) }
{
    let mut rest = parameters.fork();
    while let Some(first) = rest.open() {
        later_declared(design, alloc, &first.parts, 1, 3, StaticSort::never())?;
        rest = first.next;
    }
    Ok(())
}

/// A generic function with these parts, where it stands for no actual.
pub fn generic_function_declared(
    design: &mut KnownDesign<'_, '_>,
    alloc: Global,
    node: &Resolved,
    parts: &Cursor<'_, Resolved>,
) -> Result<(), AllocError>
    requires ready { IsReady design.old }
    ensures knows { (d : Design) (inner k : Known) (ks : List Known) → Knows d design.old (k ∷ ks)
        → OnOk result (Knows d design.new (declared_by AGenericFunction d node.now parts.now inner k ∷ ks)) }
    ensures extends { OnOk result (Extends design.old.table.subtypes design.new.table.subtypes) }
{
    parameters_known(design, alloc, &parts.skip(2).parts())?;
    let number = number_made(node, &parts.skip(1));
    result_known(design, alloc, number, declaration_of(&parts.skip(3)))
}

/// The declaration or the body of a function with these parts, which have declared what is known.
pub fn function_declared<'a>(
    design: &mut KnownDesign<'a, '_>,
    alloc: Global,
    node: &Resolved,
    parts: &Cursor<'a, Resolved>,
) -> Result<(), AllocError>
    requires ready { IsReady design.old }
    ensures knows { (d : Design) (inner k : Known) (ks : List Known) → Knows d design.old (inner ∷ ks)
        → OnOk result (Knows d design.new (declared_by AFunction d node.now parts.now inner k ∷ ks)) }
    ensures extends { OnOk result (Extends design.old.table.subtypes design.new.table.subtypes) }
{
    function_known(design, alloc, node, parts)
}

/// A package with these parts, which have declared what is known. Where it has generics, its text is kept for its instances.
pub fn package_declared<'a>(
    design: &mut KnownDesign<'a, '_>,
    node: &Resolved,
    parts: &Cursor<'a, Resolved>,
) -> Result<(), AllocError>
    ensures knows { (d : Design) (inner k : Known) (ks : List Known) → Knows d design.old (inner ∷ ks)
        → OnOk result (Knows d design.new (declared_by APackage d node.now parts.now inner k ∷ ks)) }
    ensures extends { OnOk result (Extends design.old.table.subtypes design.new.table.subtypes) }
{
    if is_present(&parts.skip(1)) {
        let number = number_made(node, parts);
        design.table.set_package(number.number(), parts.fork())
    } else {
        Ok(())
    }
}
