//! Copies of all that is declared, each with its region.

ghost use Rattle.std.specs.Prelude.{◌≡◌, ◌<◌, IfOk, length};
ghost use Rattle.vd_regions.specs.Scopes.{entered_at};
ghost use Rattle.vd_naming.specs.Copies.{region_for_copy, declaration_of_copy, entries_of_copies, some_of};
ghost use Rattle.vd_name_instances.specs.Sources.{seen_copying};

use crate::copying::Copying;
use std::alloc::{AllocError, Global};
use vd_declarations::{DeclId, RegionId};
use vd_name_rows::Names;
use vd_regions::entries::Entered;

impl<'a> Copying<'a> {
    /// The region of the copy of a declaration that stands in this region. In the region of the package or function, what is neither a generic nor
    /// listed are the operators that a generic type brought with it, whose copies stand where nothing looks.
    pub fn region_for_copy(&self, id: DeclId, region: RegionId) -> Result<RegionId, AllocError>
        ensures { IfOk result (λ copy. copy ≡ region_for_copy (seen_copying self.now) id region) }
    {
        if region.number() == self.offsets.span.first_region && !self.is_kept(id) {
            return self.offsets.region_behind();
        }
        let copy = self.offsets.region_of_copy(region)?;
        Ok(copy)
    }

    /// The copy of what was entered under a number.
    fn entry_of_copy(&self, alloc: Global, names: &Names, id: DeclId) -> Result<Entered, AllocError>
        requires { id < length names.now.scopes.entered }
        ensures { IfOk result (λ copy. copy ≡ record {
          region = region_for_copy (seen_copying self.now) id (entered_at names.now.scopes id).region;
          declaration = declaration_of_copy (seen_copying self.now) id (entered_at names.now.scopes id).declaration;
        }) }
    {
        let regions = names.regions();
        let region = self.region_for_copy(id, regions.region_of(id))?;
        let declaration = self.declaration_of_copy(alloc, id, regions.declaration(id))?;
        Ok(Entered {
            region: region.number(),
            declaration,
        })
    }

    /// The copies of all that is copied.
    #[tactic(auto, using(crate::proofs::AddingLemmas::entry_copied))]
    pub fn entries_of_copies(
        &self,
        alloc: Global,
        names: &Names,
    ) -> Result<Vec<Entered>, AllocError>
        ensures { IfOk result (λ copies. copies.items
            ≡ entries_of_copies (seen_copying self.now) self.now.span.first (some_of self.now.span.first self.now.span.end names.now.scopes.entered)) }
    {
        let mut copies = Vec::new(alloc);
        let mut next = self.offsets.span.first;
        let end = self.offsets.span.end;
        while next < end && names.regions().is_declaration(DeclId::of(next)) {
            copies.push(self.entry_of_copy(alloc, names, DeclId::of(next))?)?;
            next += 1;
        }
        Ok(copies)
    }
}
