//! The first declaration of each sort.

ghost use Rattle.std.specs.Prelude.{◌≡◌, None, OnOk, OnErr};
ghost use Rattle.vd_region_tables.specs.declared.keys.Sort.{Sort};
ghost use Rattle.vd_region_tables.specs.Tables.{first_of, AddsFirst};

use crate::keys::Sort;
use indexmap::IndexMap;
use std::alloc::{AllocError, Global};

/// For each sort of overloadable declarations the first of them.
#[derive(Drop)]
pub struct Firsts {
    map: IndexMap<Sort, u32>,
}

impl Firsts {
    /// No declaration of any sort.
    pub fn new(alloc: Global) -> Firsts
        ensures { (sort : Sort) → first_of result sort ≡ None }
    {
        Firsts {
            map: IndexMap::new(alloc),
        }
    }

    /// The first of a sort.
    pub fn first(&self, sort: &Sort) -> Option<u32>
        ensures { result ≡ first_of self.now sort.now }
    {
        self.map.get(sort).copied()
    }

    /// A declaration more, of a sort where it is overloadable.
    pub fn add(&mut self, sort: Option<Sort>, id: u32) -> Result<(), AllocError>
        ensures added { OnOk result (AddsFirst (first_of self.old) (first_of self.new) sort id) }
        ensures unchanged { OnErr result ((q : Sort) → first_of self.new q ≡ first_of self.old q) }
    {
        let Some(sort) = sort else {
            return Ok(());
        };
        let first = self.first(&sort).unwrap_or(id);
        self.map.insert(sort, first)?;
        Ok(())
    }
}
