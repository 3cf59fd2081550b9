//! Regions inside one another, their declarations and use clauses.

ghost use Rattle.std.specs.Prelude.{◌≡◌, ◌↔◌, ◌<◌, ◌++◌, ◌∷◌, ℕ, [], List, OnOk, OnErr, IfOk, Ok, Err, Some, None, true, false, length, nat_lt, option_map};
ghost use Rattle.std.specs.List.{Contains};
ghost use Rattle.std.specs.List.Sorted.{IsStrictlyIncreasing};
ghost use lib.ListN.{set as slice_set_at};
ghost use Rattle.vd_regions.specs.Scopes.{Scopes, Region, Clause, region_at, declaration_at};
ghost use Rattle.vd_regions.specs.Homographs.{homograph};
ghost use Rattle.vd_regions.specs.Visible.{IsVisible, IsSelected, IsMeant};
ghost use Rattle.vd_regions.specs.InOrder.{visible_in, selected_in_order};

use crate::catalog::Catalog;
use crate::clauses::{UseClause, UseClauses};
use crate::entries::{Entered, Space};
use crate::runs::run_of;
use std::alloc::{AllocError, Global};
use std::marker::Model;
use vd_bytes::Text;
use vd_declarations::{DeclId, Declaration, RegionId};
use vd_region_tables::key_of;
use vd_region_tables::numbers::narrow;

/// Regions inside one another, the declarations in them, and their use clauses. Numbers of regions and declarations are never
/// given back.
#[derive(Drop)]
pub struct Regions {
    pub(crate) alloc: Global,
    pub(crate) catalog: Catalog,
    pub(crate) spaces: Vec<Space>,
}

impl Model for Regions {
    ghost use Rattle.std.specs.Prelude.{map};
    ghost use Rattle.vd_regions.specs.Scopes.{Scopes};
    ghost use Rattle.vd_regions.specs.Links.{region_of};
    ghost use Rattle.vd_regions.specs.Runs.{AreRuns};

    ghost Value = { Scopes };

    ghost view = { λ a. record { entered = a.catalog; regions = map region_of a.spaces.items } };

    // Each region's run is one.
    ghost invariant = { λ a. AreRuns a.spaces.items };
}

/// Why a declaration wasn't entered.
#[derive(Clone, Copy, PartialEq, Eq, Debug, Drop)]
pub enum EnterEnd {
    /// The region has a declaration of the name already, and this one may not stand beside it. The first such declaration.
    Homograph(DeclId),
    Memory,
}

impl From<AllocError> for EnterEnd {
    ghost use Rattle.vd_regions.specs.declared.regions.EnterEnd.TheVariants.{Memory};

    ghost from_gives = { λ _ end. end ≡ Memory };

    fn from(_: AllocError) -> Self {
        EnterEnd::Memory
    }
}

// A name of one's own.
fn owned(alloc: Global, name: Option<&str>) -> Result<Option<Text>, AllocError>
    ensures { IfOk result (λ text. text ≡ option_map (λ n. n.now) name.entry) }
{
    match name {
        Some(name) => {
            let text = Text::from_slice(alloc, name.as_bytes())?;
            Ok(Some(text))
        }
        None => Ok(None),
    }
}

impl Regions {
    /// The region of the libraries alone, with nothing in it.
    pub fn new(alloc: Global) -> Result<Self, AllocError>
        ensures { IfOk result (λ regions. regions ≡ record { entered = []; regions = record { outer = 0; continues = None; closed = false; uses = [] } ∷ [] }) }
    {
        let mut spaces = Vec::new(alloc);
        spaces.push(Space {
            outer: 0,
            continues: None,
            closed: false,
            uses: UseClauses::new(alloc),
            run: 0,
        })?;
        Ok(Regions {
            alloc,
            catalog: Catalog::new(alloc),
            spaces,
        })
    }

    /// The region of the libraries.
    pub fn root(&self) -> RegionId
        ensures { result ≡ 0 }
    {
        RegionId::of(0)
    }

    /// Whether this value gave out the region.
    pub fn is_region(&self, region: RegionId) -> bool
        ensures { result ≡ nat_lt region (length self.now.regions) }
    {
        (region.number() as usize) < self.spaces.len()
    }

    /// Whether a declaration was entered under this number.
    pub fn is_declaration(&self, id: DeclId) -> bool
        ensures { result ≡ nat_lt id (length self.now.entered) }
    {
        (id.number() as usize) < self.catalog.len()
    }

    /// A new region inside another.
    pub fn nest(&mut self, outer: RegionId) -> Result<RegionId, AllocError>
        requires { outer < length self.old.regions }
        ensures nested { IfOk result (λ region. (region ≡ length self.old.regions)
            × (self.new ≡ record self.old { regions = self.old.regions ++ record { outer = outer; continues = None; closed = false; uses = [] } ∷ [] })) }
        ensures unchanged { OnErr result (self.new ≡ self.old) }
    {
        self.add_region(outer, None, false)
    }

    /// A new region inside another, which continues a region: that of an architecture body or a package body, which continues the one of
    /// its declaration.
    pub fn nest_body(
        &mut self,
        outer: RegionId,
        declaration: RegionId,
    ) -> Result<RegionId, AllocError>
        requires outer_in { outer < length self.old.regions }
        requires declaration_in { declaration < length self.old.regions }
        ensures nested { IfOk result (λ region. (region ≡ length self.old.regions)
            × (self.new ≡ record self.old { regions = self.old.regions ++ record { outer = outer; continues = Some declaration; closed = false; uses = [] } ∷ [] })) }
        ensures unchanged { OnErr result (self.new ≡ self.old) }
    {
        self.add_region(outer, Some(declaration.number()), false)
    }

    // A new region.
    pub(crate) fn add_region(
        &mut self,
        outer: RegionId,
        continues: Option<u32>,
        closed: bool,
    ) -> Result<RegionId, AllocError>
        ensures nested { IfOk result (λ region. (region ≡ length self.old.regions)
            × (self.new ≡ record self.old { regions = self.old.regions ++ record { outer = outer; continues = continues; closed = closed; uses = [] } ∷ [] })) }
        ensures unchanged { OnErr result (self.new ≡ self.old) }
    {
        let region = narrow(self.spaces.len())?;
        let run = run_of(&self.spaces, region, outer.number(), continues);
        self.spaces.push(Space {
            outer: outer.number(),
            continues,
            closed,
            uses: UseClauses::new(self.alloc),
            run,
        })?;
        Ok(RegionId::of(region))
    }

    /// A use clause in a region: of a name that another region declares, or of all that it declares.
    pub fn use_name(
        &mut self,
        region: RegionId,
        from: RegionId,
        name: Option<&str>,
    ) -> Result<(), AllocError>
        requires { region < length self.old.regions }
        ensures used { OnOk result (self.new ≡ record self.old {
          regions = slice_set_at self.old.regions region
              (record (region_at self.old region) { uses = (region_at self.old region).uses ++ record { from = from; name = option_map (λ n. n.now) name.entry } ∷ [] });
        }) }
        ensures unchanged { OnErr result (self.new ≡ self.old) }
    {
        let name = owned(self.alloc, name)?;
        let clause = UseClause {
            from: from.number(),
            name,
        };
        self.spaces[region.number() as usize].uses.push(clause)?;
        Ok(())
    }

    /// The end of a region is reached.
    pub fn close(&mut self, region: RegionId)
        requires { region < length self.old.regions }
        ensures { self.new ≡ record self.old { regions = slice_set_at self.old.regions region (record (region_at self.old region) { closed = true }) } }
    {
        self.spaces[region.number() as usize].closed = true;
    }

    /// The declaration that was entered under a number.
    pub fn declaration(&self, id: DeclId) -> &Declaration
        requires { id < length self.now.entered }
        ensures { result.now ≡ declaration_at self.now id }
    {
        &self.catalog.at(id.number()).declaration
    }

    /// Puts a declaration into a region, under its name. It is visible there from now on.
    pub fn enter(
        &mut self,
        region: RegionId,
        name: &str,
        declared: Declaration,
    ) -> Result<DeclId, EnterEnd>
        requires own_name { name.now ≡ declared.name }
        ensures entered { IfOk result (λ id. (id ≡ length self.old.entered)
            × (self.new ≡ record self.old { entered = self.old.entered ++ record { region = region; declaration = declared } ∷ [] })) }
        ensures free { OnOk result (homograph self.old region declared ≡ None) }
        ensures taken { (id : ℕ) → result ≡ Err (EnterEnd.Homograph id) → homograph self.old region declared ≡ Some id }
        ensures unchanged { OnErr result (self.new ≡ self.old) }
    {
        if let Some(first) = self.first_clash(region.number(), &declared)? {
            return Err(EnterEnd::Homograph(DeclId::of(first)));
        }
        let entered = Entered {
            region: region.number(),
            declaration: declared,
        };
        let id = self.catalog.push(name.as_bytes(), entered)?;
        Ok(DeclId::of(id))
    }

    /// What is visible in a region under a name, in the order in which it was entered.
    pub fn visible(
        &self,
        alloc: Global,
        region: RegionId,
        name: &str,
    ) -> Result<Vec<DeclId>, AllocError>
        ensures in_order { IfOk result (λ found. IsStrictlyIncreasing found.items) }
        ensures all { IfOk result (λ found. (k : ℕ) → Contains found.items k ↔ IsMeant self.now (IsVisible self.now region name.now) k) }
        ensures is { IfOk result (λ found. found.items ≡ visible_in self.now region name.now) }
    {
        let mut key = key_of(alloc, region.number(), name.as_bytes())?;
        let found = self.seen(alloc, &mut key)?;
        let ids = self.meant_in_order(alloc, &found)?;
        Ok(ids)
    }

    /// What a name means at a place behind the name of a library, a unit or a record type, in the order in which it was entered: `prefix` is
    /// the declaration of that.
    pub fn selected(
        &self,
        alloc: Global,
        place: RegionId,
        prefix: DeclId,
        name: &str,
    ) -> Result<Vec<DeclId>, AllocError>
        ensures in_order { IfOk result (λ found. IsStrictlyIncreasing found.items) }
        ensures all { IfOk result (λ found. (k : ℕ) → Contains found.items k ↔ IsMeant self.now (IsSelected self.now place prefix name.now) k) }
        ensures is { IfOk result (λ found. found.items ≡ selected_in_order self.now place prefix name.now) }
    {
        let mut found = Vec::new(alloc);
        self.add_selected(
            alloc,
            place.number(),
            prefix.number(),
            name.as_bytes(),
            &mut found,
        )?;
        let ids = self.meant_in_order(alloc, &found)?;
        Ok(ids)
    }
}
