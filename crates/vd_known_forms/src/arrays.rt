//! Array types. (IEEE 1076, array types)

ghost use Rattle.std.specs.Prelude.{◌≡◌, ◌≤◌, ◌∷◌, IfOk, List, OnOk, false, length, true};
ghost use Rattle.vd_forest.specs.Store.{Extends, at};
ghost use Rattle.vd_value_rules.specs.Indicated.{indicated_in, static_of};
ghost use Rattle.vd_value_rules.specs.Made.{Indicates};
ghost use Rattle.vd_known_designs.specs.Designs.{AreIndicated, IsReady, Knows};
ghost use Rattle.vd_known_forms.specs.Arrays.{IsIndexWithin, array_by};
ghost use Rattle.vd_value_rules.specs.Designs.{Design};
ghost use Rattle.vd_value_rules.specs.Knowledge.{Known, array_defined as array_meant, indicated, meaning_at, parts_at};

use crate::indexes::{ArrayIndex, Index, index_of};
use std::alloc::{AllocError, Global};
use vd_forest::Cursor;
use vd_known_designs::{KnownDesign, SubtypeTables, TwoSubtypes};
use vd_known_indications::{indicated_twice, nodes};
use vd_resolved::Resolved;

/// The array type of an index, by its elements.
fn array(subtypes: &mut SubtypeTables, of: ArrayIndex, element: u32) -> Result<u32, AllocError>
    requires index_in { IsIndexWithin subtypes.old of.index }
    requires element_in { element ≤ length subtypes.old }
    ensures indicates { IfOk result (λ number. Indicates subtypes.new number
        (array_by subtypes.old of.index (static_of of.known) (indicated_in (at subtypes.old element)))) }
    ensures extends { Extends subtypes.old subtypes.new }
{
    match of.index {
        Index::OfAnyBounds(number) => subtypes.array_of_any_bounds(number, of.known, element),
        Index::WithRange { range, literals } => {
            subtypes.array_with_range(range, literals, of.known, element)
        }
    }
}

/// The array type of an index and a subtype of elements, which are these parts.
#[tactic(auto, using(vd_forest::proofs::StoreLemmas::growing))]
pub(crate) fn array_defined(
    design: &mut KnownDesign<'_, '_>,
    alloc: Global,
    parts: &Cursor<'_, Resolved>,
) -> Result<TwoSubtypes, AllocError>
    requires ready { IsReady design.old }
    ensures indicated { (d : Design) (k : Known) (ks : List Known) → Knows d design.old (k ∷ ks) → let index = meaning_at d 0 parts.now in
        IfOk result (λ x. AreIndicated design.new.table.subtypes x (record {
          own = array_meant index k.env (indicated d false k (parts_at 1 parts.now));
          choosing = array_meant index k.env (indicated d true k (parts_at 1 parts.now));
        })) }
    ensures knows { (d : Design) (ks : List Known) → Knows d design.old ks → OnOk result (Knows d design.new ks) }
    ensures extends { OnOk result (Extends design.old.table.subtypes design.new.table.subtypes) }
{
    let nodes = nodes(design, alloc, parts)?;
    let index = index_of(design, &nodes);
    let element = indicated_twice(design, alloc, &parts.skip(1).parts())?;
    let subtypes = &mut design.table.subtypes;
    let own = array(subtypes, index, element.own)?;
    let choosing = array(subtypes, index, element.choosing)?;
    Ok(TwoSubtypes { own, choosing })
}
