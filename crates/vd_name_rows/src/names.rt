//! The names of a design so far.

ghost use Rattle.std.specs.Prelude.{◌≡◌, ◌<◌, ◌≤◌, ◌++◌, ◌∷◌, [], OnOk, IfOk, MatchOption, length, option_map};
ghost use Rattle.std.specs.List.{filter};
ghost use Rattle.vd_regions.specs.Scopes.{declaration_at, no_declaration, region_at, with_clause, with_clauses};
ghost use Rattle.vd_regions.specs.Homographs.{homograph};
ghost use Rattle.vd_predefined.specs.Entries.{with_entry};
ghost use Rattle.vd_predefined.specs.Given.{with_end};
ghost use Rattle.vd_predefined.specs.Operators.{with_operators_of};
ghost use Rattle.vd_name_rows.specs.Designs.{note_at, with_note, with_scopes, put_note, begin_design, standpoint};
ghost use Rattle.vd_name_rows.specs.Members.{numbers_in, declared_in, next_number, next_region, is_of};

use crate::at::At;
use crate::counts::Counts;
use crate::notes::{NO_NOTE, Note, Taken, put_at};
use crate::sorts::Sort;
use std::alloc::{AllocError, Global};
use std::marker::Model;
use vd_declarations::{Class, DeclId, Declaration, RegionId, TypeId};
use vd_predefined::bring_operators;
use vd_regions::Regions;
use vd_visible::Surroundings;

/// The declarations and regions of a design so far, what is noted of declarations beside, and the headers of bodies that stand for those of
/// declarations. After an Err from a call that changes it, each later one may end with an Err.
#[derive(Drop)]
pub struct Names {
    alloc: Global,
    regions: Regions,
    // Not in the middle of a change that an Err cut off.
    whole: bool,
    counts: Counts,
    notes: Vec<Note>,
    taken: Vec<Taken>,
}

impl Model for Names {
    ghost use Rattle.std.specs.Prelude.{◌≡◌, true};
    ghost use Rattle.vd_name_rows.specs.Designs.{Design};
    ghost use Rattle.vd_name_rows.specs.Counts.{AreCounted};

    ghost Value = { Design };

    ghost view = { λ a. record { scopes = a.regions; notes = a.notes.items; taken = a.taken.items } };

    // The first declarations are counted: which of them are types, and which of them stand in each region.
    ghost invariant = { λ a. a.whole ≡ true → AreCounted a.regions a.counts };
}

impl Names {
    /// What is given, with nothing declared behind it.
    pub fn new(alloc: Global, regions: Regions) -> Result<Names, AllocError>
        ensures { IfOk result (λ names. names ≡ begin_design regions) }
    {
        let counts = Counts::new(alloc, &regions);
        let mut names = Names {
            alloc,
            regions,
            whole: true,
            counts,
            notes: Vec::new(alloc),
            taken: Vec::new(alloc),
        };
        names.counts.go_on(&names.regions)?;
        Ok(names)
    }

    /// The regions, and the declarations in them.
    pub fn regions(&self) -> &Regions
        ensures { result.now ≡ self.now.scopes }
    {
        &self.regions
    }

    /// What is known at a place.
    pub fn surroundings(&self, at: &At<'_>) -> Result<Surroundings<'_>, AllocError>
        ensures { IfOk result (λ place. place ≡ standpoint at.now self.now) }
    {
        if !self.whole || !self.counts.is_complete(&self.regions) {
            return Err(AllocError);
        }
        Ok(Surroundings::of(
            at.revision,
            &self.regions,
            at.region,
            at.ports,
            self.counts.types.as_slice(),
        ))
    }

    /// The declaration of a number, or None where that of a number that isn't given out yet is asked for.
    pub fn declaration(&self, id: DeclId) -> Option<&Declaration>
        ensures { MatchOption result (declaration_at self.now.scopes id ≡ no_declaration) (λ d. d.now ≡ declaration_at self.now.scopes id) }
    {
        if !self.regions.is_declaration(id) {
            return None;
        }
        Some(self.regions.declaration(id))
    }

    /// What kind of declaration it is. That of a number that isn't given out is a label.
    pub fn class_of(&self, id: DeclId) -> Class
        ensures { result ≡ (declaration_at self.now.scopes id).class }
    {
        match self.declaration(id) {
            Some(declaration) => declaration.class,
            None => Class::Label,
        }
    }

    /// The type of a declaration.
    pub fn mark_of(&self, id: DeclId) -> Option<TypeId>
        ensures { result ≡ (declaration_at self.now.scopes id).mark }
    {
        match self.declaration(id) {
            Some(declaration) => declaration.mark,
            None => None,
        }
    }

    /// The region inside a declaration.
    pub fn inside_of(&self, id: DeclId) -> Option<RegionId>
        ensures { result ≡ (declaration_at self.now.scopes id).inside }
    {
        match self.declaration(id) {
            Some(declaration) => declaration.inside,
            None => None,
        }
    }

    /// The name of a declaration.
    pub fn name_of(&self, id: DeclId) -> &[u8]
        ensures { result.now ≡ (declaration_at self.now.scopes id).name }
    {
        match self.declaration(id) {
            Some(declaration) => declaration.name.as_slice(),
            None => &[],
        }
    }

    /// The parameters of a declaration.
    pub fn parameters_of(&self, id: DeclId) -> &[DeclId]
        ensures { result.now ≡ (declaration_at self.now.scopes id).parameters }
    {
        match self.declaration(id) {
            Some(declaration) => declaration.parameters.as_slice(),
            None => &[],
        }
    }

    /// The generics of a declaration.
    pub fn generics_of(&self, id: DeclId) -> &[DeclId]
        ensures { result.now ≡ (declaration_at self.now.scopes id).generics }
    {
        match self.declaration(id) {
            Some(declaration) => declaration.generics.as_slice(),
            None => &[],
        }
    }

    /// What is noted of a declaration.
    pub fn note(&self, id: DeclId) -> Note
        ensures { result ≡ note_at self.now id }
    {
        match self.notes.get(id.number() as usize) {
            Some(note) => *note,
            None => NO_NOTE,
        }
    }

    /// Notes this of a declaration, in place of what was noted.
    pub fn put(&mut self, id: DeclId, note: Note) -> Result<(), AllocError>
        ensures { OnOk result (self.new ≡ with_note id note self.old) }
    {
        put_at(&mut self.notes, id.number(), note)
    }

    /// What stands in a region and is of a sort, in the order in which it was entered.
    pub fn declared_in(
        &self,
        alloc: Global,
        region: RegionId,
        sort: Sort,
    ) -> Result<Vec<DeclId>, AllocError>
        ensures { IfOk result (λ found. found.items ≡ declared_in region sort self.now) }
    {
        let mut found = Vec::new(alloc);
        for id in self.members(region)? {
            if sort.has(self.class_of(*id)) {
                found.push(*id)?;
            }
        }
        Ok(found)
    }

    // What stands in a region.
    fn members(&self, region: RegionId) -> Result<&[DeclId], AllocError>
        ensures { IfOk result (λ found. found.now ≡ numbers_in region 0 self.now.scopes.entered) }
    {
        if !self.whole || !self.counts.is_complete(&self.regions) {
            return Err(AllocError);
        }
        Ok(self.counts.members.of(region.number()))
    }

    /// The number that the next declaration gets.
    pub fn next_number(&self) -> Result<u32, AllocError>
        ensures { IfOk result (λ number. number ≡ next_number self.now) }
    {
        if !self.whole || !self.counts.is_complete(&self.regions) {
            return Err(AllocError);
        }
        Ok(self.counts.counted)
    }

    /// The number that the next region gets.
    pub fn next_region(&self) -> Result<u32, AllocError>
        ensures { IfOk result (λ number. number ≡ next_region self.now) }
    {
        count_regions(&self.regions)
    }

    /// Opens a region inside another, which may continue one.
    pub fn open(
        &mut self,
        outer: RegionId,
        continues: Option<RegionId>,
        closed: bool,
    ) -> Result<RegionId, AllocError>
        ensures { IfOk result (λ region. (region ≡ length self.old.scopes.regions)
            × (self.new ≡ with_scopes self.old (record self.old.scopes { regions = self.old.scopes.regions ++ record { outer = outer; continues = continues; closed = closed; uses = [] } ∷ [] }))) }
    {
        let region = self.regions.add_like(outer, continues, closed)?;
        Ok(region)
    }

    /// The end of a region is reached.
    pub fn close(&mut self, region: RegionId)
        requires { region < length self.old.scopes.regions }
        ensures { self.new ≡ with_scopes self.old (with_end self.old.scopes region) }
    {
        self.regions.close(region);
    }

    /// Enters a declaration, whatever stands in the region, and gives the first one beside which it may not stand.
    pub fn enter(
        &mut self,
        region: RegionId,
        declared: Declaration,
    ) -> Result<Option<DeclId>, AllocError>
        ensures first { IfOk result (λ first. first ≡ homograph self.old.scopes region declared) }
        ensures entered { OnOk result (self.new ≡ with_scopes self.old (with_entry self.old.scopes region declared)) }
    {
        let first = self.regions.homograph(region, &declared)?;
        self.add(region, declared)?;
        Ok(first)
    }

    /// Enters a declaration, whatever stands in the region.
    pub fn add(&mut self, region: RegionId, declared: Declaration) -> Result<DeclId, AllocError>
        ensures { IfOk result (λ id. (id ≡ next_number self.old) × (self.new ≡ with_scopes self.old (with_entry self.old.scopes region declared))) }
    {
        if !self.whole {
            return Err(AllocError);
        }
        self.whole = false;
        let id = self.regions.add(region, declared)?;
        self.counts.go_on(&self.regions)?;
        self.whole = true;
        Ok(id)
    }

    /// Enters the operators that a type brings with it.
    pub fn bring_operators(
        &mut self,
        region: RegionId,
        own: TypeId,
        class: Class,
    ) -> Result<(), AllocError>
        ensures { OnOk result (self.new ≡ with_scopes self.old (with_operators_of self.old.scopes region own class)) }
    {
        if !self.whole {
            return Err(AllocError);
        }
        self.whole = false;
        bring_operators(self.alloc, &mut self.regions, region, own, class)?;
        self.counts.go_on(&self.regions)?;
        self.whole = true;
        Ok(())
    }

    /// A use clause in a region: of all that another region declares, or of a name of it.
    pub fn use_name(
        &mut self,
        region: RegionId,
        from: RegionId,
        name: Option<&str>,
    ) -> Result<(), AllocError>
        requires { region < length self.old.scopes.regions }
        ensures { OnOk result (self.new ≡ with_scopes self.old (with_clause self.old.scopes region (record { from = from; name = option_map (λ n. n.now) name.entry }))) }
    {
        self.regions.use_name(region, from, name)
    }

    /// Repeats the use clauses of one region in another.
    pub fn repeat_uses(&mut self, region: RegionId, from: RegionId) -> Result<(), AllocError>
        requires { region < length self.old.scopes.regions }
        ensures { OnOk result (self.new ≡ with_scopes self.old (with_clauses region (region_at self.old.scopes from).uses self.old.scopes)) }
    {
        if !self.whole {
            return Err(AllocError);
        }
        self.whole = false;
        self.regions.repeat_uses(region, from)?;
        self.whole = true;
        Ok(())
    }

    /// The headers of bodies that stand for those of declarations, in the order in which they were read.
    pub fn taken(&self) -> &[Taken]
        ensures { result.now ≡ self.now.taken }
    {
        self.taken.as_slice()
    }

    /// The header of a body stands for another.
    pub fn take(&mut self, taken: Taken) -> Result<(), AllocError>
        ensures { OnOk result (self.new ≡ record self.old { taken = self.old.taken ++ taken ∷ [] }) }
    {
        self.taken.push(taken)?;
        Ok(())
    }
}

/// How many regions there are. They are found by halves, since nothing below counts them.
fn count_regions(regions: &Regions) -> Result<u32, AllocError>
    ensures { IfOk result (λ number. number ≡ length regions.now.regions) }
{
    let mut low = 0;
    let mut high = u32::MAX;
    if regions.is_region(RegionId::of(high)) {
        return Err(AllocError);
    }
    while low < high {
        let middle = low + (high - low) / 2;
        if regions.is_region(RegionId::of(middle)) {
            low = middle + 1;
        } else {
            high = middle;
        }
    }
    Ok(low)
}
