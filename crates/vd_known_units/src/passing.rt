//! Passing from a node to its parts, and from their end behind the node.

ghost use Rattle.std.specs.Prelude.{◌≡◌, ◌∷◌, List, OnOk};
ghost use Rattle.vd_known_designs.specs.Designs.{IsReady, Knows};
ghost use Rattle.vd_port_modes.specs.Source.{design_in};
ghost use Rattle.vd_value_rules.specs.Designs.{Design};
ghost use Rattle.vd_value_rules.specs.Knowledge.{Known};
ghost use Rattle.vd_value_rules.specs.Standings.{known_down};
ghost use Rattle.vd_known_units.specs.Passing.{KnowsEnd, declared_behind, declared_inside, seen_outside};

use crate::insides::known_in_parts;
use crate::states::{back, remember};
use crate::units::{unit_declared, units_declared};
use std::alloc::{AllocError, Global};
use vd_forest::Cursor;
use vd_forms::Form;
use vd_known_designs::KnownDesign;
use vd_port_modes::Interfaces;
use vd_resolved::Resolved;

/// Comes to what is known in the parts of a node, and remembers what was known in front of it.
pub fn go_inside(
    design: &mut KnownDesign<'_, '_>,
    alloc: Global,
    form: &Resolved,
    parts: &Cursor<'_, Resolved>,
) -> Result<(), AllocError>
    requires ready { IsReady design.old }
    ensures knows { (d : Design) (k : Known) (ks : List Known) → Knows d design.old (k ∷ ks)
        → OnOk result (Knows d design.new (known_down form.now.form d form.now parts.now k ∷ k ∷ ks)) }
{
    remember(design)?;
    known_in_parts(design, alloc, form, parts)
}

/// Comes from the end of the parts of a node to what they declare for the text behind it: what a function declares is seen from outside there.
fn seen_from_outside<'a>(
    design: &mut KnownDesign<'a, '_>,
    interfaces: &Interfaces<'_>,
    alloc: Global,
    form: &Resolved,
    parts: &Cursor<'a, Resolved>,
) -> Result<(), AllocError>
    requires end { KnowsEnd (design_in interfaces.now) design.old form.now parts.now }
    ensures knows { (k : Known) (ks : List Known)
        → Knows (design_in interfaces.now) design.old (declared_inside (design_in interfaces.now) form.now parts.now k ∷ k ∷ ks)
        → OnOk result (Knows (design_in interfaces.now) design.new (seen_outside form.now.form (design_in interfaces.now) form.now parts.now k ∷ k ∷ ks)) }
{
    match form.form {
        Form::FunctionBody => {
            back(design);
            remember(design)?;
            units_declared(design, interfaces, alloc, parts)
        }
        _ => Ok(()),
    }
}

/// Goes from the end of the parts of a node behind it.
pub fn go_outside<'a>(
    design: &mut KnownDesign<'a, '_>,
    interfaces: &Interfaces<'_>,
    alloc: Global,
    form: &Resolved,
    parts: &Cursor<'a, Resolved>,
) -> Result<(), AllocError>
    requires end { KnowsEnd (design_in interfaces.now) design.old form.now parts.now }
    ensures knows { (k : Known) (ks : List Known)
        → Knows (design_in interfaces.now) design.old (declared_inside (design_in interfaces.now) form.now parts.now k ∷ k ∷ ks)
        → OnOk result (Knows (design_in interfaces.now) design.new (declared_behind (design_in interfaces.now) form.now parts.now k ∷ ks)) }
{
    seen_from_outside(design, interfaces, alloc, form, parts)?;
    unit_declared(design, interfaces, alloc, form, parts)
}
