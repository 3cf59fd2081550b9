//! Runs of regions, and what is visible in the last region of one.

ghost use Rattle.std.specs.Prelude.{◌≡◌, ◌↔◌, ◌≤◌, ℕ, [], true, OnOk, IfOk, length};
ghost use Rattle.std.specs.List.{Contains};
ghost use Rattle.vd_regions.specs.Found.{entered_in};
ghost use Rattle.vd_regions.specs.Visible.{IsVisible};
ghost use Rattle.vd_regions.specs.Runs.{IsRun, BeginsAt, SeesAs, nearer, nearest};

use crate::entries::Space;
use crate::regions::Regions;
use std::alloc::{AllocError, Global};
use vd_region_tables::numbers::put_in_order;
use vd_region_tables::{Key, Name};

/// Where the run of a new region begins: where that of the region before it does, if it stands in that one and continues none.
pub(crate) fn run_of(spaces: &[Space], region: u32, outer: u32, continues: Option<u32>) -> u32
    requires { region ≡ length spaces.now }
    ensures { BeginsAt spaces.now outer continues result }
{
    if continues.is_some() || outer >= region || region - outer != 1 {
        return region;
    }
    match spaces.get(outer as usize) {
        Some(space) => space.run,
        None => region,
    }
}

/// A region that is nearer to a place than another one, but not behind it; or else the other one.
fn nearer(to: u32, from: u32, home: u32) -> u32
    ensures { result ≡ nearer to from home }
{
    if from < home && home <= to {
        home
    } else {
        from
    }
}

/// The nearest of some regions.
fn nearest(to: u32, from: u32, homes: &[u32]) -> u32
    ensures { result ≡ nearest to from homes.now }
{
    let mut found = from;
    for home in homes {
        found = nearer(to, found, *home);
    }
    found
}

impl Regions {
    /// Where the run of a region begins.
    fn run(&self, region: u32) -> u32
        ensures { IsRun self.now.regions result region }
    {
        match self.spaces.get(region as usize) {
            Some(space) => space.run,
            None => region,
        }
    }

    /// Whether the key's region declares nothing under its name.
    fn is_bare(&self, key: &Key) -> bool
        ensures { result ≡ true → entered_in self.now key.now.region key.now.name.items ≡ [] }
    {
        self.catalog.table(key).newest == 0
    }

    /// Goes outwards in the run of the key's region, to the first region that declares the name, or for some steps.
    fn go_outwards(&self, key: &mut Key, run: u32, steps: usize)
        requires { IsRun self.now.regions run key.old.region }
        ensures sees { SeesAs self.now key.old.name.items key.old.region key.new.region }
        ensures run { IsRun self.now.regions run key.new.region }
        ensures name { key.new.name.items ≡ key.old.name.items }
    {
        let mut left = steps;
        while left > 0 && run < key.region && self.is_bare(key) {
            key.region -= 1;
            left -= 1;
        }
    }

    /// Goes outwards in the run of the key's region, to the first region that declares the name, or to where the run begins. The regions on
    /// the way are asked, or those that declare the name, whichever are fewer.
    fn go_to_first(&self, alloc: Global, key: &mut Key) -> Result<(), AllocError>
        ensures sees { OnOk result (SeesAs self.now key.old.name.items key.old.region key.new.region) }
        ensures name { key.new.name.items ≡ key.old.name.items }
    {
        let bytes = Vec::from_slice(alloc, &key.name)?;
        let name = Name { bytes };
        let homes = self.catalog.homes(&name);
        let run = self.run(key.region);
        self.go_outwards(key, run, homes.len());
        if !self.is_bare(key) {
            return Ok(());
        }
        key.region = nearest(key.region, run, homes);
        Ok(())
    }

    /// What is visible in the key's region under its name. A declaration that isn't overloadable hides what stands further out, and what use
    /// clauses give.
    pub(crate) fn seen(&self, alloc: Global, key: &mut Key) -> Result<Vec<u32>, AllocError>
        ensures { IfOk result (λ found. (k : ℕ) → Contains found.items k ↔ IsVisible self.now key.old.region key.old.name.items k) }
    {
        let region = key.region;
        self.go_to_first(alloc, key)?;
        let mut here = Vec::new(alloc);
        self.add_declared(alloc, key, &mut here)?;
        if !self.are_overloadable(&here) {
            return Ok(here);
        }
        let found = self.seen_from(alloc, key, region)?;
        Ok(found)
    }

    /// What is visible in a region under the key's name, where the regions round the key's declare the same.
    fn seen_from(&self, alloc: Global, key: &mut Key, region: u32) -> Result<Vec<u32>, AllocError>
        requires { SeesAs self.now key.old.name.items region key.old.region }
        ensures { IfOk result (λ found. (k : ℕ) → Contains found.items k ↔ IsVisible self.now region key.old.name.items k) }
    {
        let regions = self.chain(alloc, key.region)?;
        let mut around = Vec::new(alloc);
        self.add_round(alloc, key, &regions, &mut around)?;
        let mut found = Vec::new(alloc);
        self.add_direct(alloc, key, &regions, &mut found)?;
        if !self.are_overloadable(&around) {
            return Ok(found);
        }
        let all = self.chain(alloc, region)?;
        let mut given = self.gather_given(alloc, key, &all)?;
        put_in_order(&mut given)?;
        self.add_by_use(&around, &given, &mut found)?;
        Ok(found)
    }
}
