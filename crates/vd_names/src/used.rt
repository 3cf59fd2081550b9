//! Names that are used already.

ghost use Rattle.std.specs.Prelude.{◌≡◌, ◌||◌, false, OnOk};
ghost use Rattle.vd_region_tables.specs.declared.keys.Name.{Name};
ghost use Rattle.vd_region_tables.specs.Tables.{same_name};
ghost use Rattle.vd_names.specs.Names.{is_used};

use indexmap::IndexSet;
use std::alloc::{AllocError, Global};
use vd_region_tables::Name;

/// Names that are used already.
#[derive(Drop)]
pub struct Used {
    names: IndexSet<Name>,
}

impl Used {
    /// None is.
    pub fn new(alloc: Global) -> Used
        ensures { (key : Name) → is_used result key ≡ false }
    {
        Used {
            names: IndexSet::new(alloc),
        }
    }

    /// Whether one is.
    pub fn has(&self, key: &Name) -> bool
        ensures { result ≡ is_used self.now key.now }
    {
        self.names.contains(key)
    }

    /// One more is.
    pub fn add(&mut self, alloc: Global, name: &[u8]) -> Result<(), AllocError> {
        let bytes = Vec::from_slice(alloc, name)?;
        self.names.insert(Name { bytes })?;
        Ok(())
    }
}
