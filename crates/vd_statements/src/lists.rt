//! Lists of trees, one for each place.

ghost use Rattle.std.specs.Prelude.{◌≤◌, ℕ, IfOk, OnOk, length};
ghost use Rattle.vd_forest.specs.Store.{Extends};
ghost use Rattle.vd_statements.specs.Lists.{AreWithin};

use std::alloc::{AllocError, Global};
use vd_forest::Store;
use vd_resolved::Resolved;

/// Lists of trees of a store, one for each place and one for those that have none. Each has its last tree first.
#[derive(Debug, Drop)]
pub(crate) struct Lists {
    lists: Vec<u32>,
}

impl Lists {
    /// Empty lists for so many places.
    pub(crate) fn new(alloc: Global, places: usize) -> Result<Lists, AllocError>
        ensures { IfOk result (λ lists. (size : ℕ) → AreWithin size lists.lists.items) }
    {
        let mut lists = vec![in alloc; 0; places]?;
        lists.push(0)?;
        Ok(Lists { lists })
    }

    /// Which list is for a place.
    fn list_at(&self, place: Option<u32>) -> usize {
        let last = self.lists.len().saturating_sub(1);
        match place {
            Some(place) if (place as usize) < last => place as usize,
            _ => last,
        }
    }

    /// Puts the first tree of a forest into the list of a place.
    pub(crate) fn put(
        &mut self,
        out: &mut Store<Resolved>,
        place: Option<u32>,
        tree: u32,
    ) -> Result<(), AllocError>
        requires tree_in { tree ≤ length out.old }
        requires lists_in { AreWithin (length out.old) self.old.lists.items }
        ensures lists { OnOk result (AreWithin (length out.new) self.new.lists.items) }
        ensures extends { Extends out.old out.new }
    {
        let at = self.list_at(place);
        if at < self.lists.len() {
            self.lists[at] = out.relink(tree, self.lists[at])?;
        }
        Ok(())
    }

    /// All lists, one behind the other.
    pub(crate) fn joined(&self, out: &mut Store<Resolved>) -> Result<u32, AllocError>
        requires { AreWithin (length out.old) self.now.lists.items }
        ensures within { IfOk result (λ made. made ≤ length out.new) }
        ensures extends { Extends out.old out.new }
    {
        let mut made = 0;
        let mut left = self.lists.len();
        while left > 0 {
            left -= 1;
            made = out.turn(self.lists[left], made)?;
        }
        Ok(made)
    }
}
