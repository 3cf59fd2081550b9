//! What nodes declare, where instances of packages declare nothing.

ghost use Rattle.std.specs.Prelude.{◌∷◌, List, OnOk};
ghost use Rattle.vd_known_units.specs.Kinds.{alone_of, kept_of, objects_of};
ghost use Rattle.vd_known_designs.specs.Designs.{IsReady, Knows};
ghost use Rattle.vd_known_forms.specs.Views.{HasViews};
ghost use Rattle.vd_known_indications.specs.Places.{IsRemembering};
ghost use Rattle.vd_resolved.specs.declared.node.Resolved.{Resolved as AnyNode};
ghost use Rattle.vd_value_rules.specs.Declaring.{declared as all_declared, declared_by, declaring};
ghost use Rattle.vd_value_rules.specs.Designs.{Design};
ghost use Rattle.vd_value_rules.specs.Knowledge.{Known};

use crate::kinds::{Alone, Declaring, Kept, Objects, declaring_of};
use crate::states::{back, keep};
use crate::walking::{Declares, declare_all};
use std::alloc::{AllocError, Global};
use vd_forest::Cursor;
use vd_known_designs::KnownDesign;
use vd_known_forms::{
    constants_declared, function_declared, generic_function_declared, generics_declared,
    package_declared, parameters_declared, ports_declared, signals_declared, subtype_declared,
    type_declared, variables_declared, view_ports_declared,
};
use vd_known_generics::function_instance_declared;
use vd_port_modes::Interfaces;
use vd_resolved::Resolved;

/// Objects.
fn objects_declared(
    design: &mut KnownDesign<'_, '_>,
    interfaces: &Interfaces<'_>,
    alloc: Global,
    objects: Objects,
    parts: &Cursor<'_, Resolved>,
) -> Result<(), AllocError>
    requires ready { IsReady design.old }
    ensures knows { (d : Design) (n : AnyNode) (inner k : Known) (ks : List Known) → HasViews d interfaces.now → Knows d design.old (k ∷ ks)
        → OnOk result (Knows d design.new (declared_by (objects_of objects) d n parts.now inner k ∷ ks)) }
{
    match objects {
        Objects::Constants => constants_declared(design, alloc, parts),
        Objects::Variables => variables_declared(design, alloc, parts),
        Objects::Signals => signals_declared(design, alloc, parts),
        Objects::Ports => ports_declared(design, alloc, parts),
        Objects::ViewPorts => view_ports_declared(design, interfaces, alloc, parts),
        Objects::GenericConstants => generics_declared(design, alloc, parts),
        Objects::Parameters => parameters_declared(design, alloc, parts),
    }
}

/// What is declared beside nothing that the parts declare.
fn alone_declared(
    design: &mut KnownDesign<'_, '_>,
    interfaces: &Interfaces<'_>,
    alloc: Global,
    alone: Alone,
    node: &Resolved,
    parts: &Cursor<'_, Resolved>,
) -> Result<(), AllocError>
    requires ready { IsReady design.old }
    ensures knows { (d : Design) (inner k : Known) (ks : List Known) → HasViews d interfaces.now → Knows d design.old (k ∷ ks)
        → OnOk result (Knows d design.new (declared_by (alone_of alone) d node.now parts.now inner k ∷ ks)) }
{
    match alone {
        Alone::Nothing => Ok(()),
        Alone::Type => type_declared(design, alloc, node, parts),
        Alone::Subtype => subtype_declared(design, alloc, node, parts),
        Alone::GenericFunction => generic_function_declared(design, alloc, node, parts),
        Alone::FunctionInstance => function_instance_declared(design, alloc, node, parts),
        Alone::Objects(objects) => objects_declared(design, interfaces, alloc, objects, parts),
    }
}

/// What is declared beside what the parts declare.
fn kept_declared<'a>(
    design: &mut KnownDesign<'a, '_>,
    alloc: Global,
    kept: Kept,
    node: &Resolved,
    parts: &Cursor<'a, Resolved>,
) -> Result<(), AllocError>
    requires ready { IsReady design.old }
    ensures knows { (d : Design) (inner k : Known) (ks : List Known) → Knows d design.old (inner ∷ ks)
        → OnOk result (Knows d design.new (declared_by (kept_of kept) d node.now parts.now inner k ∷ ks)) }
{
    match kept {
        Kept::InOrder => Ok(()),
        Kept::Package => package_declared(design, node, parts),
        Kept::Function => function_declared(design, alloc, node, parts),
    }
}

/// What a node declares for the text behind it. What its parts declare is known, and what was known in front of it is remembered.
pub fn node_declared<'a>(
    design: &mut KnownDesign<'a, '_>,
    interfaces: &Interfaces<'_>,
    alloc: Global,
    node: &Resolved,
    parts: &Cursor<'a, Resolved>,
) -> Result<(), AllocError>
    requires remembering { IsRemembering design.old }
    ensures knows { (d : Design) (inner k : Known) (ks : List Known) → HasViews d interfaces.now → Knows d design.old (inner ∷ k ∷ ks)
        → OnOk result (Knows d design.new (declared_by (declaring node.now.form) d node.now parts.now inner k ∷ ks)) }
{
    match declaring_of(node.form) {
        Declaring::Kept(kept) => {
            keep(design);
            kept_declared(design, alloc, kept, node, parts)
        }
        Declaring::Alone(alone) => {
            back(design);
            alone_declared(design, interfaces, alloc, alone, node, parts)
        }
        Declaring::PackageInstance => {
            back(design);
            Ok(())
        }
    }
}

/// The declarations of a declarative part.
#[derive(Clone, Copy)]
pub struct Declarations;

impl<'a> Declares<'a> for Declarations {
    ghost use Rattle.vd_value_rules.specs.Declaring.{declared_by, declaring};

    ghost by = { λ d n parts inner k. declared_by (declaring n.form) d n parts inner k };

    fn declare(
        &self,
        design: &mut KnownDesign<'a, '_>,
        interfaces: &Interfaces<'_>,
        alloc: Global,
        node: &Resolved,
        parts: &Cursor<'a, Resolved>,
    ) -> Result<(), AllocError> {
        node_declared(design, interfaces, alloc, node, parts)
    }
}

/// What all trees of a forest declare, one after the other.
pub fn declared<'a>(
    design: &mut KnownDesign<'a, '_>,
    interfaces: &Interfaces<'_>,
    alloc: Global,
    trees: &Cursor<'a, Resolved>,
) -> Result<(), AllocError>
    requires ready { IsReady design.old }
    ensures knows { (d : Design) (k : Known) (ks : List Known) → HasViews d interfaces.now → Knows d design.old (k ∷ ks)
        → OnOk result (Knows d design.new (all_declared d trees.now k ∷ ks)) }
{
    declare_all(design, interfaces, alloc, trees, &Declarations)
}
