//! What stands in each region.

ghost use Rattle.std.specs.Prelude.{◌≡◌, ◌==◌, ◌<◌, ◌++◌, ◌∷◌, ℕ, [], OnOk, length, if◌then◌else◌, slice_index_or};

use std::alloc::{AllocError, Global};
use std::marker::Model;
use vd_declarations::DeclId;

/// The declarations of each region, by the region's number. Behind the last list nothing stands.
#[derive(Drop)]
pub(crate) struct Members {
    alloc: Global,
    lists: Vec<Vec<DeclId>>,
}

impl Model for Members {
    ghost use Rattle.std.specs.Prelude.{ℕ, List, map};

    ghost Value = { List (List ℕ) };

    ghost view = { λ a. map (λ own. own.items) a.lists.items };
}

impl Members {
    /// No declaration in any region.
    pub(crate) fn new(alloc: Global) -> Members
        ensures { result ≡ [] }
    {
        Members {
            alloc,
            lists: Vec::new(alloc),
        }
    }

    /// The declarations of a region.
    pub(crate) fn of(&self, region: u32) -> &[DeclId]
        ensures { result.now ≡ slice_index_or self.now region [] }
    {
        match self.lists.get(region as usize) {
            Some(own) => own.as_slice(),
            None => &[],
        }
    }

    /// Puts a declaration behind those of its region. After an Err nothing is known of any.
    pub(crate) fn add(&mut self, region: u32, id: DeclId) -> Result<(), AllocError>
        ensures { OnOk result ((r : ℕ) → slice_index_or self.new r []
            ≡ (if r == region then slice_index_or self.old region [] ++ id ∷ [] else slice_index_or self.old r [])) }
    {
        self.make_room(region)?;
        self.lists[region as usize].push(id)?;
        Ok(())
    }

    // Makes lists up to that of a region.
    fn make_room(&mut self, region: u32) -> Result<(), AllocError>
        ensures same { (r : ℕ) → slice_index_or self.new r [] ≡ slice_index_or self.old r [] }
        ensures within { OnOk result (region < length self.new) }
    {
        while self.lists.len() <= region as usize {
            self.lists.push(Vec::new(self.alloc))?;
        }
        Ok(())
    }
}
