//! Declarations of types and subtypes. (IEEE 1076, type declarations; subtype declarations)

ghost use Rattle.std.specs.Prelude.{◌∷◌, List, OnOk};
ghost use Rattle.vd_forest.specs.Store.{Extends};
ghost use Rattle.vd_known_designs.specs.Designs.{IsReady, Knows};
ghost use Rattle.vd_value_rules.specs.Declaring.{ASubtype, AType, declared_by};
ghost use Rattle.vd_value_rules.specs.Designs.{Design};
ghost use Rattle.vd_value_rules.specs.Knowledge.{Known};

use crate::type_defined;
use std::alloc::{AllocError, Global};
use vd_forest::Cursor;
use vd_known_designs::KnownDesign;
use vd_known_indications::indicated_twice;
use vd_operations::number_made;
use vd_resolved::Resolved;

/// A type declaration with these parts.
pub fn type_declared(
    design: &mut KnownDesign<'_, '_>,
    alloc: Global,
    node: &Resolved,
    parts: &Cursor<'_, Resolved>,
) -> Result<(), AllocError>
    requires ready { IsReady design.old }
    ensures knows { (d : Design) (inner k : Known) (ks : List Known) → Knows d design.old (k ∷ ks)
        → OnOk result (Knows d design.new (declared_by AType d node.now parts.now inner k ∷ ks)) }
    ensures extends { OnOk result (Extends design.old.table.subtypes design.new.table.subtypes) }
{
    let number = number_made(node, parts);
    let of = type_defined(design, alloc, &parts.skip(1))?;
    design.table.set_type(number.number(), of.own, of.choosing)
}

/// A subtype declaration with these parts.
pub fn subtype_declared(
    design: &mut KnownDesign<'_, '_>,
    alloc: Global,
    node: &Resolved,
    parts: &Cursor<'_, Resolved>,
) -> Result<(), AllocError>
    requires ready { IsReady design.old }
    ensures knows { (d : Design) (inner k : Known) (ks : List Known) → Knows d design.old (k ∷ ks)
        → OnOk result (Knows d design.new (declared_by ASubtype d node.now parts.now inner k ∷ ks)) }
    ensures extends { OnOk result (Extends design.old.table.subtypes design.new.table.subtypes) }
{
    let number = number_made(node, parts);
    let indication = parts.skip(1).parts();
    let of = indicated_twice(design, alloc, &indication)?;
    design.table.set_type(number.number(), of.own, of.choosing)
}
