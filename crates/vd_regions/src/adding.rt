//! What code asks of regions and puts into them where a rule may be broken: whoever looks for the first broken rule goes on behind it.

ghost use Rattle.std.specs.Prelude.{◌≡◌, ◌==◌, ◌<◌, ◌++◌, ◌∷◌, [], OnOk, OnErr, IfOk, length};
ghost use Rattle.std.specs.List.{list_any};
ghost use lib.ListN.{set as slice_set_at};
ghost use Rattle.vd_regions.specs.Scopes.{Clause, region_at, entered_at, chain, with_clause, with_clauses};
ghost use Rattle.vd_regions.specs.Homographs.{homograph};
ghost use Rattle.vd_regions.specs.Clauses.{clause_of, clauses_of};
ghost use Rattle.vd_regions.specs.Found.{entered_in};

use crate::clauses::UseClause;
use crate::entries::Entered;
use crate::regions::Regions;
use std::alloc::{AllocError, Global};
use vd_bytes::Text;
use vd_declarations::{DeclId, Declaration, RegionId};
use vd_region_tables::key_of;
use vd_region_tables::numbers::has;

impl Regions {
    /// The region that a declaration stands in.
    pub fn region_of(&self, id: DeclId) -> RegionId
        requires { id < length self.now.entered }
        ensures { result ≡ (entered_at self.now id).region }
    {
        RegionId::of(self.catalog.at(id.number()).region)
    }

    /// The region round another. That of the libraries stands for the one round it.
    pub fn round(&self, region: RegionId) -> RegionId
        ensures { result ≡ (region_at self.now region).outer }
    {
        RegionId::of(self.outer(region.number()))
    }

    /// The region that another continues.
    pub fn continued(&self, region: RegionId) -> Option<RegionId>
        ensures { result ≡ (region_at self.now region).continues }
    {
        match self.continues(region.number()) {
            Some(declaration) => Some(RegionId::of(declaration)),
            None => None,
        }
    }

    /// Whether the end of a region is reached.
    pub fn is_ended(&self, region: RegionId) -> bool
        ensures { result ≡ (region_at self.now region).closed }
    {
        self.is_closed(region.number())
    }

    /// Whether a place in a region stands in another, or in what continues it.
    pub fn is_inside(
        &self,
        alloc: Global,
        region: RegionId,
        other: RegionId,
    ) -> Result<bool, AllocError>
        ensures { IfOk result (λ b. b ≡ list_any (λ r. r == other) (chain self.now region)) }
    {
        let regions = self.chain(alloc, region.number())?;
        Ok(has(regions.as_slice(), other.number()))
    }

    /// What was entered in a region under a name, the newest first, whether it can be seen or not.
    pub fn entered_under(
        &self,
        alloc: Global,
        region: RegionId,
        name: &[u8],
    ) -> Result<Vec<u32>, AllocError>
        ensures { IfOk result (λ found. found.items ≡ entered_in self.now region name.now) }
    {
        let key = key_of(alloc, region.number(), name)?;
        let mut found = Vec::new(alloc);
        self.catalog.add_entered(&key, &mut found)?;
        Ok(found)
    }

    /// The first declaration of a region, or of what it continues, beside which a new one may not stand.
    pub fn homograph(
        &self,
        region: RegionId,
        declared: &Declaration,
    ) -> Result<Option<DeclId>, AllocError>
        ensures { IfOk result (λ first. first ≡ homograph self.now region declared.now) }
    {
        match self.first_clash(region.number(), declared)? {
            Some(first) => Ok(Some(DeclId::of(first))),
            None => Ok(None),
        }
    }

    /// Puts a declaration into a region, whatever stands there.
    pub fn add(&mut self, region: RegionId, declared: Declaration) -> Result<DeclId, AllocError>
        ensures added { IfOk result (λ id. (id ≡ length self.old.entered)
            × (self.new ≡ record self.old { entered = self.old.entered ++ record { region = region; declaration = declared } ∷ [] })) }
        ensures unchanged { OnErr result (self.new ≡ self.old) }
    {
        let name = Text::from_slice(self.alloc, declared.name.as_slice())?;
        let entered = Entered {
            region: region.number(),
            declaration: declared,
        };
        let id = self.catalog.push(name.as_slice(), entered)?;
        Ok(DeclId::of(id))
    }

    /// A new region inside another that continues another or none, with no use clauses. It may be closed from the beginning.
    pub fn add_like(
        &mut self,
        outer: RegionId,
        continues: Option<RegionId>,
        closed: bool,
    ) -> Result<RegionId, AllocError>
        ensures added { IfOk result (λ region. (region ≡ length self.old.regions)
            × (self.new ≡ record self.old { regions = self.old.regions ++ record { outer = outer; continues = continues; closed = closed; uses = [] } ∷ [] })) }
        ensures unchanged { OnErr result (self.new ≡ self.old) }
    {
        let continues = match continues {
            Some(region) => Some(region.number()),
            None => None,
        };
        self.add_region(outer, continues, closed)
    }

    /// Repeats the use clauses of one region in another. After an Err some may be repeated.
    pub fn repeat_uses(&mut self, region: RegionId, from: RegionId) -> Result<(), AllocError>
        requires { region < length self.old.regions }
        ensures { OnOk result (self.new ≡ with_clauses region (region_at self.old from).uses self.old) }
    {
        let clauses = self.copied_uses(from.number())?;
        for clause in &clauses {
            let again = copy_of(self.alloc, clause)?;
            self.push_use(region.number(), again)?;
        }
        Ok(())
    }

    // The use clauses of a region once more.
    fn copied_uses(&self, region: u32) -> Result<Vec<UseClause>, AllocError>
        ensures { IfOk result (λ found. clauses_of found.items ≡ (region_at self.now region).uses) }
    {
        let mut found = Vec::new(self.alloc);
        for clause in self.uses_of(region) {
            found.push(copy_of(self.alloc, clause)?)?;
        }
        Ok(found)
    }

    // A use clause more.
    fn push_use(&mut self, region: u32, clause: UseClause) -> Result<(), AllocError>
        requires { region < length self.old.regions }
        ensures { OnOk result (self.new ≡ with_clause self.old region (clause_of clause)) }
    {
        self.spaces[region as usize].uses.push(clause)?;
        Ok(())
    }
}

// A use clause once more.
fn copy_of(alloc: Global, clause: &UseClause) -> Result<UseClause, AllocError>
    ensures { IfOk result (λ copy. clause_of copy ≡ clause_of clause.now) }
{
    let name = match &clause.name {
        Some(name) => Some(Text::from_slice(alloc, name.as_slice())?),
        None => None,
    };
    Ok(UseClause {
        from: clause.from,
        name,
    })
}
