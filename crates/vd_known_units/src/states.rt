//! What is known at a place, and what was known in front of it.

ghost use Rattle.std.specs.Prelude.{◌≡◌, ◌∷◌, List, OnOk};
ghost use Rattle.vd_known_designs.specs.Designs.{Knows};
ghost use Rattle.vd_value_rules.specs.Designs.{Design};
ghost use Rattle.vd_value_rules.specs.Knowledge.{Known};

use std::alloc::AllocError;
use vd_known_designs::KnownDesign;

/// Remembers what is known here.
pub fn remember(design: &mut KnownDesign<'_, '_>) -> Result<(), AllocError>
    ensures knows { (d : Design) (k : Known) (ks : List Known) → Knows d design.old (k ∷ ks) → OnOk result (Knows d design.new (k ∷ k ∷ ks)) }
{
    design.table.remember()
}

/// Goes back to what is remembered.
pub fn back(design: &mut KnownDesign<'_, '_>)
    ensures knows { (d : Design) (inner k : Known) (ks : List Known) → Knows d design.old (inner ∷ k ∷ ks) → Knows d design.new (k ∷ ks) }
{
    design.table.back();
}

/// Stays with what is known here, and forgets what is remembered.
pub fn keep(design: &mut KnownDesign<'_, '_>)
    ensures knows { (d : Design) (inner k : Known) (ks : List Known) → Knows d design.old (inner ∷ k ∷ ks) → Knows d design.new (inner ∷ ks) }
{
    design.table.keep();
}
