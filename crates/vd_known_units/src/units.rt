//! Design units, of which instances of packages have what the package declares where its generics stand for the actuals.

ghost use Rattle.std.specs.Prelude.{◌≡◌, ◌∷◌, List, OnOk};
ghost use Rattle.vd_known_designs.specs.Designs.{IsReady, Knows};
ghost use Rattle.vd_known_indications.specs.Places.{IsRemembering};
ghost use Rattle.vd_known_units.specs.Units.{is_instance as is_package_instance};
ghost use Rattle.vd_port_modes.specs.Source.{design_in};
ghost use Rattle.vd_value_rules.specs.Declaring.{declaring, unit_declared_by, units_declared as all_declared};
ghost use Rattle.vd_value_rules.specs.Knowledge.{Known};

use crate::declarations::node_declared;
use crate::instances::instance_declared;
use crate::states::back;
use crate::walking::{Declares, declare_all};
use std::alloc::{AllocError, Global};
use vd_forest::Cursor;
use vd_forms::Form;
use vd_known_designs::KnownDesign;
use vd_port_modes::Interfaces;
use vd_resolved::Resolved;

/// Whether a node of this form is an instance of a package.
fn is_instance(form: Form) -> bool
    ensures { result ≡ is_package_instance (declaring form) }
{
    matches!(form, Form::PackageInstantiation)
}

/// The units of a design.
#[derive(Clone, Copy)]
struct Units;

impl<'a> Declares<'a> for Units {
    ghost use Rattle.vd_value_rules.specs.Declaring.{declaring, unit_declared_by};

    ghost by = { λ d n parts inner k. unit_declared_by (declaring n.form) d n parts inner k };

    fn declare(
        &self,
        design: &mut KnownDesign<'a, '_>,
        interfaces: &Interfaces<'_>,
        alloc: Global,
        node: &Resolved,
        parts: &Cursor<'a, Resolved>,
    ) -> Result<(), AllocError> {
        if is_instance(node.form) {
            back(design);
            instance_declared(design, interfaces, alloc, node, parts)
        } else {
            node_declared(design, interfaces, alloc, node, parts)
        }
    }
}

/// What a node declares for the text behind it. What its parts declare is known, and what was known in front of them is remembered.
pub fn unit_declared<'a>(
    design: &mut KnownDesign<'a, '_>,
    interfaces: &Interfaces<'_>,
    alloc: Global,
    node: &Resolved,
    parts: &Cursor<'a, Resolved>,
) -> Result<(), AllocError>
    requires remembering { IsRemembering design.old }
    ensures knows { (inner k : Known) (ks : List Known) → Knows (design_in interfaces.now) design.old (inner ∷ k ∷ ks)
        → OnOk result (Knows (design_in interfaces.now) design.new
        (unit_declared_by (declaring node.now.form) (design_in interfaces.now) node.now parts.now inner k ∷ ks)) }
{
    Units.declare(design, interfaces, alloc, node, parts)
}

/// What all trees of a forest declare, one after the other.
pub fn units_declared<'a>(
    design: &mut KnownDesign<'a, '_>,
    interfaces: &Interfaces<'_>,
    alloc: Global,
    trees: &Cursor<'a, Resolved>,
) -> Result<(), AllocError>
    requires ready { IsReady design.old }
    ensures knows { (k : Known) (ks : List Known) → Knows (design_in interfaces.now) design.old (k ∷ ks)
        → OnOk result (Knows (design_in interfaces.now) design.new (all_declared (design_in interfaces.now) trees.now k ∷ ks)) }
{
    declare_all(design, interfaces, alloc, trees, &Units)
}
