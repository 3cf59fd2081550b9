//! A table from declarations to numbers.

ghost use Rattle.std.specs.Prelude.{◌≡◌, [], IfOk, OnOk, map};
ghost use Rattle.vd_weighing.specs.Weights.{numbers_of};
ghost use Rattle.vd_weighing.specs.Tables.{found, with_entry, with_more, with_each, copies, with_entries, with_sums};
ghost use Rattle.vd_weighing.specs.Copies.{copied};

use crate::numbers::plus;
use indexmap::IndexMap;
use std::alloc::{AllocError, Global};
use std::marker::Model;
use vd_declarations::DeclId;
use vd_forest::Cursor;
use vd_resolved::Resolved;

/// A number that a new declaration gets.
#[derive(Clone, Copy)]
pub(crate) struct Copied {
    pub(crate) id: DeclId,
    pub(crate) number: u64,
}

/// At most one number for each declaration. Contracts see them in the order in which they came.
#[derive(Drop)]
pub(crate) struct Table {
    numbers: IndexMap<u32, u64>,
}

impl Model for Table {
    ghost use Rattle.std.specs.Prelude.{ℕ, List};
    ghost use Rattle.std.specs.Coded.{coded_list, coded×, coded_ℕ};

    ghost Value = { List (ℕ × ℕ) };

    ghost coded = { coded_list (coded× coded_ℕ coded_ℕ) };

    ghost view = { λ a. a.numbers.entries };
}

impl Table {
    /// No numbers.
    pub(crate) fn new(alloc: Global) -> Table
        ensures { result ≡ [] }
    {
        Table {
            numbers: IndexMap::new(alloc),
        }
    }

    /// The number of a declaration.
    pub(crate) fn get(&self, id: Option<DeclId>) -> Option<u64>
        ensures { result ≡ found id self.now }
    {
        let known = id?;
        self.numbers.get(&known.number()).copied()
    }

    /// Gives a declaration a number, in the place of what it has.
    pub(crate) fn put(&mut self, id: DeclId, number: u64) -> Result<(), AllocError>
        ensures { OnOk result (self.new ≡ with_entry self.old id number) }
    {
        self.numbers.insert(id.number(), number)?;
        Ok(())
    }

    /// Adds to the number of a declaration.
    pub(crate) fn add(&mut self, id: DeclId, number: u64) -> Result<(), AllocError>
        ensures { OnOk result (self.new ≡ with_more self.old id number) }
    {
        let so_far = self.get(Some(id)).unwrap_or(0);
        self.put(id, plus(so_far, number))?;
        Ok(())
    }

    /// Gives the declarations at trees side by side the same number.
    pub(crate) fn put_each(
        &mut self,
        trees: &Cursor<'_, Resolved>,
        number: u64,
    ) -> Result<(), AllocError>
        ensures { OnOk result (self.new ≡ with_each self.old (numbers_of trees.now) number) }
    {
        let mut left = trees.fork();
        while let Some(first) = left.open() {
            if let Some(id) = first.form.declaration {
                self.put(id, number)?;
            }
            left = first.next;
        }
        Ok(())
    }

    /// For each new declaration the number of the old one in whose place it stands.
    pub(crate) fn copies(
        &self,
        alloc: Global,
        olds: &[DeclId],
        news: &[DeclId],
    ) -> Result<Vec<Copied>, AllocError>
        ensures { IfOk result (λ made. map copied made.items ≡ copies olds.now news.now self.now) }
    {
        let mut made = Vec::new(alloc);
        for at in 0..olds.len().min(news.len()) {
            if let Some(number) = self.get(Some(olds[at])) {
                made.push(Copied {
                    id: news[at],
                    number,
                })?;
            }
        }
        Ok(made)
    }

    /// Gives declarations their numbers. Where one has several, the first counts.
    pub(crate) fn put_all(&mut self, numbers: &[Copied]) -> Result<(), AllocError>
        ensures { OnOk result (self.new ≡ with_entries self.old (map copied numbers.now)) }
    {
        let mut left = numbers.len();
        while left > 0 {
            left -= 1;
            let last = numbers[left];
            self.put(last.id, last.number)?;
        }
        Ok(())
    }

    /// Adds to the numbers of declarations.
    pub(crate) fn add_all(&mut self, numbers: &[Copied]) -> Result<(), AllocError>
        ensures { OnOk result (self.new ≡ with_sums self.old (map copied numbers.now)) }
    {
        let mut left = numbers.len();
        while left > 0 {
            left -= 1;
            let last = numbers[left];
            self.add(last.id, last.number)?;
        }
        Ok(())
    }
}
