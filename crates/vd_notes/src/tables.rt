//! What a pass asks of a declaration by its number.

ghost use Rattle.std.specs.Prelude.{◌≡◌, ◌<◌, IfOk, None, ℕ, length, slice_index_or};
ghost use Rattle.vd_notes.specs.Entries.{entries, first_of, home_of, mark_of, table_of};

use crate::entries::{Entry, declared_in};
use std::alloc::{AllocError, Global};
use vd_resolved::Tree;

/// What a design declares, by the numbers of the declarations. Where a number is declared twice, the first place counts.
#[derive(Drop)]
pub struct Tables {
    pub entries: Vec<Option<Entry>>,
}

impl Tables {
    /// The unit that declares a number.
    pub fn home(&self, number: u32) -> Option<u32>
        ensures { result ≡ home_of (slice_index_or self.now.entries.items number None) }
    {
        match self.entries.get(number as usize) {
            Some(Some(entry)) => entry.home,
            _ => None,
        }
    }

    /// The type or subtype that a declaration was given with, or the entity of an architecture.
    pub fn mark(&self, number: u32) -> Option<u32>
        ensures { result ≡ mark_of (slice_index_or self.now.entries.items number None) }
    {
        match self.entries.get(number as usize) {
            Some(Some(entry)) => entry.mark,
            _ => None,
        }
    }
}

/// The table of so many numbers.
#[tactic(auto, using(crate::proofs::TableLemmas::filling))]
fn filled(alloc: Global, count: usize, found: &[Entry]) -> Result<Vec<Option<Entry>>, AllocError>
    ensures { IfOk result (λ table. table.items ≡ table_of count found.now) }
{
    let mut table: Vec<Option<Entry>> = vec![in alloc; None; count]?;
    let mut left = found.len();
    while left > 0 {
        left -= 1;
        let entry = found[left];
        let place = entry.number as usize;
        if place < table.len() {
            table[place] = Some(entry);
        }
    }
    Ok(table)
}

/// What a design declares, found by one walk.
#[tactic(auto, using(crate::proofs::TableLemmas::first_in_table))]
pub fn tables_of(alloc: Global, tree: &Tree) -> Result<Tables, AllocError>
    ensures table { IfOk result (λ t. t.entries.items ≡ table_of (length tree.now.declarations) (entries None tree.now.units)) }
    ensures first { IfOk result (λ t. (k : ℕ) → k < length tree.now.declarations
        → slice_index_or t.entries.items k None ≡ first_of k (entries None tree.now.units)) }
{
    let found = declared_in(alloc, &tree.cursor(), None)?;
    let entries = filled(alloc, tree.declarations().len(), &found)?;
    Ok(Tables { entries })
}
