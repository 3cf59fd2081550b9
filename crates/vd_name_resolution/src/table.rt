//! Tables of the numbers that stand for others.

ghost use Rattle.std.specs.Prelude.{◌≡◌, ◌≤◌, ◌+◌, ◌-◌, ℕ, IfOk, OnOk, if◌then◌else◌, length, slice_index_or};
ghost use Rattle.vd_naming.specs.Settled.{is_taken, settled, settled_some};

use std::alloc::{AllocError, Global};
use std::marker::Model;
use vd_declarations::{DeclId, TypeId};
use vd_name_rows::Taken;

/// Which declaration each one stands for, by the headers of bodies that stand for those of declarations: of two that have a number the
/// first counts. Contracts see the list of these headers.
#[derive(Drop)]
pub struct Settling {
    taken: Vec<Taken>,
    /// By each number up to the end of the last header that which it stands for.
    table: Vec<u32>,
}

impl Model for Settling {
    ghost use Rattle.std.specs.Prelude.{◌≡◌, ℕ, List, slice_index_or};
    ghost use Rattle.vd_name_rows.specs.declared.notes.Taken.{Taken};
    ghost use Rattle.vd_naming.specs.Settled.{settled};

    ghost Value = { List Taken };

    ghost view = { λ a. a.taken.items };

    ghost invariant = { λ a. (n : ℕ) → slice_index_or a.table.items n n ≡ settled a.taken.items n };
}

impl Settling {
    /// By these headers. One whose numbers pass those that a declaration can have ends as where memory does.
    pub fn of(alloc: Global, taken: &[Taken]) -> Result<Settling, AllocError>
        ensures { IfOk result (λ settling. settling ≡ taken.now) }
    {
        let table = table_of(alloc, taken)?;
        let taken = Vec::from_slice(alloc, taken)?;
        Ok(Settling { taken, table })
    }

    /// The number that this one stands for, which may be itself.
    pub fn number(&self, n: u32) -> u32
        ensures { result ≡ settled self.now n }
    {
        match self.table.get(n as usize) {
            Some(other) => *other,
            None => n,
        }
    }

    /// The declaration that one stands for, where there is one.
    pub(crate) fn declaration(&self, named: &Option<DeclId>) -> Option<DeclId>
        ensures { result ≡ settled_some self.now named.now }
    {
        match named {
            Some(id) => Some(DeclId::of(self.number(id.number()))),
            None => None,
        }
    }

    /// The type that one stands for, where there is one.
    pub(crate) fn mark(&self, mark: &Option<TypeId>) -> Option<TypeId>
        ensures { result ≡ settled_some self.now mark.now }
    {
        match mark {
            Some(id) => Some(TypeId::of(self.number(id.number()))),
            None => None,
        }
    }
}

/// Lets each number below an end stand for itself, where nothing is known of it.
#[tactic(auto, using(crate::proofs::TableLemmas::room_for_one))]
fn make_room(table: &mut Vec<u32>, end: u32) -> Result<(), AllocError>
    ensures same { (n : ℕ) → slice_index_or table.new.items n n ≡ slice_index_or table.old.items n n }
    ensures within { OnOk result (end ≤ length table.new.items) }
{
    while table.len() < end as usize {
        let next = table.len() as u32;
        table.push(next)?;
    }
    Ok(())
}

/// Lets the numbers of a header stand for those of another, whatever they stood for.
#[tactic(auto, using(crate::proofs::TableLemmas::one_more_put, crate::proofs::TableLemmas::nothing_put, crate::proofs::TableLemmas::all_put))]
fn put(table: &mut Vec<u32>, header: &Taken) -> Result<(), AllocError>
    ensures { OnOk result ((n : ℕ) → slice_index_or table.new.items n n
        ≡ (if is_taken n header.now then (n - header.now.first) + header.now.other else slice_index_or table.old.items n n)) }
{
    make_room(table, header.end)?;
    let first = header.first;
    for number in first..header.end {
        let Some(other) = (number - first).checked_add(header.other) else {
            return Err(AllocError);
        };
        table[number as usize] = other;
    }
    Ok(())
}

/// The table of some headers. The last is put first, so that the first counts.
#[tactic(auto, using(crate::proofs::TableLemmas::settled_before))]
fn table_of(alloc: Global, taken: &[Taken]) -> Result<Vec<u32>, AllocError>
    ensures { IfOk result (λ table. (n : ℕ) → slice_index_or table.items n n ≡ settled taken.now n) }
{
    let mut table = Vec::new(alloc);
    let mut left = taken.len();
    while left > 0 {
        left -= 1;
        put(&mut table, &taken[left])?;
    }
    Ok(table)
}
