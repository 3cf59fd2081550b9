//! What is known in front of a place.

ghost use Rattle.std.specs.Prelude.{◌≡◌, IfOk, OnOk};
ghost use Rattle.vd_weighing.specs.Weights.{nothing_known, has_entry_at, times_at, numbers_of};
ghost use Rattle.vd_weighing.specs.Limits.{at_most};
ghost use Rattle.vd_weighing.specs.Tables.{sum_found, sums_found, with_sum, with_elements, with_ports, with_instance};

use crate::numbers::plus;
use crate::table::Table;
use std::alloc::{AllocError, Global};
use std::marker::Model;
use vd_declarations::DeclId;
use vd_forest::Cursor;
use vd_resolved::Resolved;

/// What each package and function with generics weighs, how many elements with a mode each view and the view of each port have, and
/// the packages of the instances so far.
#[derive(Drop)]
pub(crate) struct Tables {
    sums: Table,
    elements: Table,
    packages: Vec<Option<DeclId>>,
}

impl Model for Tables {
    ghost use Rattle.std.specs.Prelude.{reverse};
    ghost use Rattle.vd_weighing.specs.Weights.{Known};

    ghost Value = { Known };

    ghost view = { λ a. record { generics = a.sums; views = a.elements; instances = reverse a.packages.items } };
}

impl Tables {
    /// Nothing is known.
    pub(crate) fn new(alloc: Global) -> Tables
        ensures { result ≡ nothing_known }
    {
        Tables {
            sums: Table::new(alloc),
            elements: Table::new(alloc),
            packages: Vec::new(alloc),
        }
    }

    /// What a package or function with generics weighs so far.
    pub(crate) fn sum(&self, id: Option<DeclId>) -> u64
        ensures { result ≡ sum_found id self.now.generics }
    {
        self.sums.get(id).unwrap_or(0)
    }

    /// Whether something is known of what a package or function weighs.
    #[tactic(auto, using(crate::proofs::TableLemmas::entries_are_found))]
    pub(crate) fn has_sum(&self, id: Option<DeclId>) -> bool
        ensures { result ≡ has_entry_at id self.now.generics }
    {
        self.sums.get(id).is_some()
    }

    /// How often a port counts, or how many elements a view has.
    #[tactic(auto, using(crate::proofs::TableLemmas::times_are_found))]
    pub(crate) fn times(&self, id: Option<DeclId>) -> u64
        ensures { result ≡ times_at id self.now.views }
    {
        self.elements.get(id).unwrap_or(1)
    }

    /// A package or function with generics, or its body, weighs this.
    pub(crate) fn add_sum(&mut self, id: Option<DeclId>, weight: u64) -> Result<(), AllocError>
        ensures { OnOk result (self.new ≡ with_sum id weight self.old) }
    {
        if let Some(known) = id {
            self.sums.add(known, weight)?;
        }
        Ok(())
    }

    /// A view has so many elements with a mode.
    pub(crate) fn put_elements(&mut self, id: Option<DeclId>, count: u64) -> Result<(), AllocError>
        ensures { OnOk result (self.new ≡ with_elements id count self.old) }
    {
        if let Some(known) = id {
            self.elements.put(known, count)?;
        }
        Ok(())
    }

    /// Each of these ports has a view with so many elements.
    pub(crate) fn put_ports(
        &mut self,
        names: &Cursor<'_, Resolved>,
        count: u64,
    ) -> Result<(), AllocError>
        ensures { OnOk result (self.new ≡ with_ports (numbers_of names.now) count self.old) }
    {
        self.elements.put_each(names, count)?;
        Ok(())
    }

    /// What an instance of a package declares weighs what it weighs in the package.
    pub(crate) fn add_instance(
        &mut self,
        alloc: Global,
        generic: Option<DeclId>,
        olds: &[DeclId],
        news: &[DeclId],
    ) -> Result<(), AllocError>
        ensures { OnOk result (self.new ≡ with_instance generic olds.now news.now self.old) }
    {
        let sums = self.sums.copies(alloc, olds, news)?;
        let elements = self.elements.copies(alloc, olds, news)?;
        self.sums.add_all(&sums)?;
        self.elements.put_all(&elements)?;
        self.packages.push(generic)?;
        Ok(())
    }

    /// What the packages of all instances weigh.
    pub(crate) fn weight_of_instances(&self) -> u64
        ensures { result ≡ at_most (sums_found self.now.instances self.now.generics) }
    {
        let mut weight = 0;
        let mut left = self.packages.len();
        while left > 0 {
            left -= 1;
            weight = plus(weight, self.sum(self.packages[left]));
        }
        weight
    }
}
