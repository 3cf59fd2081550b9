//! Subtype indications. (IEEE 1076, subtype declarations)

ghost use Rattle.std.specs.Prelude.{◌≡◌, ◌≤◌, ◌∷◌, IfOk, List, OnOk, false, length, true};
ghost use Rattle.vd_forest.specs.Store.{Extends};
ghost use Rattle.vd_value_rules.specs.Indicated.{static_of, indicated_in};
ghost use Rattle.vd_value_rules.specs.Made.{narrowed_for};
ghost use Rattle.vd_forest.specs.Store.{at};
ghost use Rattle.vd_known_designs.specs.Designs.{AreIndicated, Knows};
ghost use Rattle.vd_value_rules.specs.Designs.{Design};
ghost use Rattle.vd_value_rules.specs.Knowledge.{Known, at_mark};

use crate::design::KnownDesign;
use std::alloc::AllocError;
use vd_composites::Bounds;
use vd_declarations::DeclId;
use vd_value_rules::StaticSort;

/// A subtype as it is, and as it is for choices, by the numbers in the store.
#[derive(Clone, Copy, Debug)]
pub struct TwoSubtypes {
    pub own: u32,
    pub choosing: u32,
}

impl<'a, 'd> KnownDesign<'a, 'd> {
    /// The subtype of a mark.
    pub fn marked(&self, mark: Option<DeclId>) -> TwoSubtypes
        ensures { (d : Design) (k : Known) (ks : List Known) → Knows d self.now (k ∷ ks)
            → AreIndicated self.now.table.subtypes result (record { own = at_mark mark k.env; choosing = at_mark mark k.choosing }) }
    {
        match mark {
            Some(mark) => TwoSubtypes {
                own: self.table.own(mark.number()),
                choosing: self.table.choosing(mark.number()),
            },
            None => TwoSubtypes {
                own: 0,
                choosing: 0,
            },
        }
    }

    /// A subtype with a constraint, by its range where that is locally static and doesn't stop.
    pub fn narrowed(
        &mut self,
        of: TwoSubtypes,
        range: Option<Bounds>,
        known: StaticSort,
    ) -> Result<TwoSubtypes, AllocError>
        requires own_in { of.own ≤ length self.old.table.subtypes }
        requires choosing_in { of.choosing ≤ length self.old.table.subtypes }
        ensures narrowed { let subtypes = self.old.table.subtypes in IfOk result (λ x. AreIndicated self.new.table.subtypes x (record {
          own = narrowed_for false range (static_of known) (indicated_in (at subtypes of.own));
          choosing = narrowed_for true range (static_of known) (indicated_in (at subtypes of.choosing));
        })) }
        ensures knows { (d : Design) (ks : List Known) → Knows d self.old ks → OnOk result (Knows d self.new ks) }
        ensures extends { OnOk result (Extends self.old.table.subtypes self.new.table.subtypes) }
    {
        let own = self.table.subtypes.narrowed(false, of.own, range, known)?;
        let choosing = self
            .table
            .subtypes
            .narrowed(true, of.choosing, range, known)?;
        Ok(TwoSubtypes { own, choosing })
    }
}
