//! A walk over trees that declares what each of them declares for the text behind it.

ghost use Rattle.std.specs.Prelude.{◌∷◌, List, OnOk};
ghost use Rattle.vd_known_units.specs.Walking.{ByNode, all_declared};
ghost use Rattle.vd_known_designs.specs.Designs.{IsReady, Knows};
ghost use Rattle.vd_known_forms.specs.Views.{HasViews};
ghost use Rattle.vd_known_indications.specs.Places.{IsRemembering};
ghost use Rattle.vd_value_rules.specs.Designs.{Design};
ghost use Rattle.vd_value_rules.specs.Knowledge.{Known};

use crate::states::remember;
use std::alloc::{AllocError, Global};
use vd_forest::Cursor;
use vd_known_designs::KnownDesign;
use vd_port_modes::Interfaces;
use vd_resolved::Resolved;

/// What nodes declare.
pub trait Declares<'a> {
    /// What a node declares for the text behind it.
    ghost by: { ByNode };

    /// Declares it, where what its parts declare is known and what was known in front of them is remembered.
    fn declare(
        &self,
        design: &mut KnownDesign<'a, '_>,
        interfaces: &Interfaces<'_>,
        alloc: Global,
        node: &Resolved,
        parts: &Cursor<'a, Resolved>,
    ) -> Result<(), AllocError>
        requires remembering { IsRemembering design.old }
        ensures knows { (d : Design) (inner k : Known) (ks : List Known) → HasViews d interfaces.now → Knows d design.old (inner ∷ k ∷ ks)
            → OnOk result (Knows d design.new (by d node.now parts.now inner k ∷ ks)) };
}

/// What all trees of a forest declare, one after the other.
pub fn declare_all<'a, T: Declares<'a>>(
    design: &mut KnownDesign<'a, '_>,
    interfaces: &Interfaces<'_>,
    alloc: Global,
    trees: &Cursor<'a, Resolved>,
    by: &T,
) -> Result<(), AllocError>
    requires ready { IsReady design.old }
    ensures knows { (d : Design) (k : Known) (ks : List Known) → HasViews d interfaces.now → Knows d design.old (k ∷ ks)
        → OnOk result (Knows d design.new (all_declared T.by d trees.now k ∷ ks)) }
{
    let mut round: Vec<Cursor<'a, Resolved>> = Vec::new(alloc);
    let mut left = trees.fork();
    loop {
        if let Some(node) = left.open() {
            remember(design)?;
            round.push(left)?;
            left = node.parts;
        } else {
            let Some(last) = round.pop() else {
                return Ok(());
            };
            if let Some(node) = last.open() {
                by.declare(design, interfaces, alloc, &node.form, &node.parts)?;
                left = node.next;
            }
        }
    }
}
