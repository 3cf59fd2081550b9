//! Which regions may declare a name.

ghost use Rattle.std.specs.Prelude.{◌≡◌, ℕ, [], List, IsTrue, OnOk, OnErr};
ghost use Rattle.std.specs.List.{Contains};
ghost use Rattle.vd_region_tables.specs.declared.keys.Name.{Name};
ghost use Rattle.vd_region_tables.specs.Tables.{homes_of};

use crate::keys::Name;
use indexmap::IndexMap;
use std::alloc::{AllocError, Global};

/// For each name some regions.
#[derive(Drop)]
pub struct Homes {
    map: IndexMap<Name, Vec<u32>>,
}

impl Homes {
    /// No region for any name.
    pub fn new(alloc: Global) -> Homes
        ensures { (name : Name) → homes_of result name ≡ [] }
    {
        Homes {
            map: IndexMap::new(alloc),
        }
    }

    /// The regions of a name.
    pub fn of(&self, name: &Name) -> &[u32]
        ensures { result.now ≡ homes_of self.now name.now }
    {
        match self.map.get(name) {
            Some(regions) => regions.as_slice(),
            None => &[],
        }
    }

    /// A region more for a name, where that is asked.
    pub fn add_where(
        &mut self,
        alloc: Global,
        asked: bool,
        name: &[u8],
        region: u32,
    ) -> Result<(), AllocError>
        ensures kept { (other : Name) (r : ℕ) → Contains (homes_of self.old other) r → Contains (homes_of self.new other) r }
        ensures added { OnOk result (IsTrue asked → (other : Name) → other.bytes.items ≡ name.now → Contains (homes_of self.new other) region) }
    {
        if !asked {
            return Ok(());
        }
        let bytes = Vec::from_slice(alloc, name)?;
        self.add(alloc, Name { bytes }, region)?;
        Ok(())
    }

    /// A region more for a name.
    fn add(&mut self, alloc: Global, name: Name, region: u32) -> Result<(), AllocError>
        ensures kept { (other : Name) (r : ℕ) → Contains (homes_of self.old other) r → Contains (homes_of self.new other) r }
        ensures added { OnOk result ((other : Name) → other.bytes.items ≡ name.bytes.items → Contains (homes_of self.new other) region) }
    {
        if let Some(regions) = self.map.get_mut(&name) {
            regions.push(region)?;
            return Ok(());
        }
        let mut regions = Vec::new(alloc);
        regions.push(region)?;
        self.map.insert(name, regions)?;
        Ok(())
    }
}
