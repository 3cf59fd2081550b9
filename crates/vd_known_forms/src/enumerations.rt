//! Enumeration types. (IEEE 1076, enumeration types)

ghost use Rattle.std.specs.Prelude.{◌≡◌, ◌∷◌, IfOk, List, OnOk};
ghost use Rattle.vd_forest.specs.Store.{Extends};
ghost use Rattle.vd_known_designs.specs.Designs.{AreIndicated, Knows};
ghost use Rattle.vd_meaning.specs.Declarations.{enumeration};
ghost use Rattle.vd_meaning.specs.Facets.{flattened};
ghost use Rattle.vd_meaning.specs.Meanings.{meanings};
ghost use Rattle.vd_meaning.specs.Tables.{Table};
ghost use Rattle.vd_value_rules.specs.Designs.{Design};
ghost use Rattle.vd_value_rules.specs.Knowledge.{Known};

use crate::lists::literals;
use crate::texts::texts_of_all;
use std::alloc::{AllocError, Global};
use vd_forest::Cursor;
use vd_known_designs::{KnownDesign, TwoSubtypes};
use vd_resolved::Resolved;

/// The type of these literals.
#[tactic(auto, using(vd_forest::proofs::StoreLemmas::growing))]
pub(crate) fn enumeration_defined(
    design: &mut KnownDesign<'_, '_>,
    alloc: Global,
    parts: &Cursor<'_, Resolved>,
) -> Result<TwoSubtypes, AllocError>
    ensures indicated { (t : Table) → let i = enumeration (flattened (λ m. m.texts) (meanings t parts.now)) in
        IfOk result (λ x. AreIndicated design.new.table.subtypes x (record { own = i; choosing = i })) }
    ensures knows { (d : Design) (ks : List Known) → Knows d design.old ks → OnOk result (Knows d design.new ks) }
    ensures extends { OnOk result (Extends design.old.table.subtypes design.new.table.subtypes) }
{
    let texts = texts_of_all(alloc, parts)?;
    let subtypes = &mut design.table.subtypes;
    let listed = literals(subtypes, &texts)?;
    let number = subtypes.enumeration(listed)?;
    Ok(TwoSubtypes {
        own: number,
        choosing: number,
    })
}
