//! Copies of regions.

ghost use Rattle.std.specs.Prelude.{◌≡◌, ◌++◌, ◌∷◌, [], IfOk, OnOk, map};
ghost use Rattle.vd_regions.specs.Scopes.{region_at};
ghost use Rattle.vd_naming.specs.Copies.{region_round_copy, copy_of_region, unseen_region, some_of};
ghost use Rattle.vd_name_instances.specs.Copied.{seen_region};
ghost use Rattle.vd_name_instances.specs.Sources.{seen_copying};

use crate::copying::Copying;
use std::alloc::{AllocError, Global};
use vd_declarations::RegionId;
use vd_name_rows::Names;

/// A region: the one round it, the one that it continues, and whether its end is reached. Copies have no use clauses.
#[derive(Clone, Copy)]
pub struct RegionCopy {
    pub outer: RegionId,
    pub continues: Option<RegionId>,
    pub closed: bool,
}

/// Puts a region behind others.
fn push_region(
    copies: &mut Vec<RegionCopy>,
    outer: RegionId,
    continues: Option<RegionId>,
    closed: bool,
) -> Result<(), AllocError>
    ensures { OnOk result (copies.new.items ≡ copies.old.items ++ record { outer = outer; continues = continues; closed = closed } ∷ []) }
{
    copies.push(RegionCopy {
        outer,
        continues,
        closed,
    })?;
    Ok(())
}

impl<'a> Copying<'a> {
    /// The region round a copy, where this one is round the original. What is round the whole package or function is older than that.
    pub fn region_round_copy(&self, outer: RegionId) -> Result<RegionId, AllocError>
        ensures { IfOk result (λ copy. copy ≡ region_round_copy (seen_copying self.now) outer) }
    {
        if outer.number() < self.offsets.span.first_region {
            return Ok(self.outer);
        }
        let copy = self.offsets.region_of_copy(outer)?;
        Ok(copy)
    }

    /// The copy of a region.
    pub fn copy_of_region(&self, names: &Names, region: RegionId) -> Result<RegionCopy, AllocError>
        ensures { IfOk result (λ copy. seen_region copy ≡ copy_of_region (seen_copying self.now) (region_at names.now.scopes region)) }
    {
        let regions = names.regions();
        let outer = self.region_round_copy(regions.round(region))?;
        let continues = self.region_inside_copy(regions.continued(region))?;
        Ok(RegionCopy {
            outer,
            continues,
            closed: regions.is_ended(region),
        })
    }

    /// Puts the copy of a region behind others.
    fn push_copy(
        &self,
        names: &Names,
        region: RegionId,
        copies: &mut Vec<RegionCopy>,
    ) -> Result<(), AllocError>
        ensures { OnOk result (map seen_region copies.new.items
            ≡ map seen_region copies.old.items ++ copy_of_region (seen_copying self.now) (region_at names.now.scopes region) ∷ []) }
    {
        let copy = self.copy_of_region(names, region)?;
        push_region(copies, copy.outer, copy.continues, copy.closed)?;
        Ok(())
    }

    /// Puts the region in which nothing looks behind others.
    fn push_unseen(&self, copies: &mut Vec<RegionCopy>) -> Result<(), AllocError>
        ensures { OnOk result (map seen_region copies.new.items ≡ map seen_region copies.old.items ++ unseen_region (seen_copying self.now) ∷ []) }
    {
        push_region(copies, self.outer, None, false)?;
        Ok(())
    }

    /// The copies of all regions that are copied, and the region in which nothing looks.
    #[tactic(auto, using(crate::proofs::AddingLemmas::region_copied))]
    pub fn regions_of_copies(
        &self,
        alloc: Global,
        names: &Names,
    ) -> Result<Vec<RegionCopy>, AllocError>
        ensures { IfOk result (λ copies. map seen_region copies.items
            ≡ map (copy_of_region (seen_copying self.now)) (some_of self.now.span.first_region self.now.span.end_region names.now.scopes.regions)
            ++ unseen_region (seen_copying self.now) ∷ []) }
    {
        let mut copies = Vec::new(alloc);
        let mut next = self.offsets.span.first_region;
        let end = self.offsets.span.end_region;
        while next < end && names.regions().is_region(RegionId::of(next)) {
            self.push_copy(names, RegionId::of(next), &mut copies)?;
            next += 1;
        }
        self.push_unseen(&mut copies)?;
        Ok(copies)
    }
}
