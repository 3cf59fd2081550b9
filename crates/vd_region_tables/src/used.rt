//! What use clauses give.

ghost use Rattle.std.specs.Prelude.{◌≡◌, ◌==◌, ◌||◌, false, OnOk, OnErr};
ghost use Rattle.vd_region_tables.specs.declared.keys.Key.{Key};
ghost use Rattle.vd_region_tables.specs.Tables.{same_key, is_used};

use crate::keys::Key;
use indexmap::IndexSet;
use std::alloc::{AllocError, Global};

/// The regions all of whose names are given, and single names of regions.
#[derive(Drop)]
pub struct Used {
    all: IndexSet<u32>,
    single: IndexSet<Key>,
}

impl Used {
    /// No name of any region.
    pub fn new(alloc: Global) -> Used
        ensures { (key : Key) → is_used result key ≡ false }
    {
        Used {
            all: IndexSet::new(alloc),
            single: IndexSet::new(alloc),
        }
    }

    /// Whether a name of a region is given.
    pub fn has(&self, key: &Key) -> bool
        ensures { result ≡ is_used self.now key.now }
    {
        self.all.contains(&key.region) || self.single.contains(key)
    }

    /// All names of a region more.
    pub fn add_all(&mut self, region: u32) -> Result<(), AllocError>
        ensures added { OnOk result ((key : Key) → is_used self.new key ≡ ((region == key.region) || is_used self.old key)) }
        ensures unchanged { OnErr result ((key : Key) → is_used self.new key ≡ is_used self.old key) }
    {
        self.all.insert(region)?;
        Ok(())
    }

    /// A name of a region more.
    pub fn add_name(&mut self, name: Key) -> Result<(), AllocError>
        ensures added { OnOk result ((key : Key) → is_used self.new key ≡ (same_key name key || is_used self.old key)) }
        ensures unchanged { OnErr result ((key : Key) → is_used self.new key ≡ is_used self.old key) }
    {
        self.single.insert(name)?;
        Ok(())
    }
}
