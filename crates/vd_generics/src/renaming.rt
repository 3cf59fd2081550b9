//! What stands for what in a copy.

use crate::declared::Declared;
use indexmap::IndexMap;
use std::alloc::{AllocError, Global};
use vd_declarations::DeclId;

/// By the number of a declaration of a text with generics: the one that stands for it in an instance.
#[derive(Drop)]
pub(crate) struct Renaming {
    to: IndexMap<u32, u32>,
}

/// A declaration, and the one that stands for it.
#[derive(Clone, Copy)]
struct Pair {
    old: u32,
    new: u32,
}

/// Puts pairs of some numbers behind others, one by one.
fn add_pairs(pairs: &mut Vec<Pair>, old: &[DeclId], new: &[DeclId]) -> Result<(), AllocError> {
    let mut place: usize = 0;
    for id in old {
        if let Some(other) = new.get(place) {
            pairs.push(Pair {
                old: id.number(),
                new: other.number(),
            })?;
        }
        place = place.saturating_add(1);
    }
    Ok(())
}

impl Renaming {
    /// Nothing stands for anything else.
    pub(crate) fn new(alloc: Global) -> Renaming {
        Renaming {
            to: IndexMap::new(alloc),
        }
    }

    /// What stands for a declaration, where something does.
    pub(crate) fn get(&self, number: u32) -> Option<u32> {
        self.to.get(&number).copied()
    }

    /// From now on something stands for a declaration.
    pub(crate) fn put(&mut self, number: u32, other: u32) -> Result<(), AllocError> {
        self.to.insert(number, other)?;
        Ok(())
    }

    /// Takes a pair up, and puts the pairs of what both declare behind the others.
    fn take(
        &mut self,
        declared: &Declared<'_>,
        pair: Pair,
        left: &mut Vec<Pair>,
    ) -> Result<(), AllocError> {
        if self.get(pair.old).is_some() {
            return Ok(());
        }
        self.put(pair.old, pair.new)?;
        let old = declared.parameters_of(pair.old);
        let new = declared.parameters_of(pair.new);
        add_pairs(left, old, new)?;
        let old = declared.generics_of(pair.old);
        let new = declared.generics_of(pair.new);
        add_pairs(left, old, new)
    }

    /// What an instance declares for what is declared by that which it is an instance of: its generics and parameters for those one by one, and so on
    /// for what these declare.
    pub(crate) fn paired(
        alloc: Global,
        declared: &Declared<'_>,
        template: u32,
        instance: u32,
    ) -> Result<Renaming, AllocError> {
        let mut renaming = Renaming::new(alloc);
        let mut left = Vec::new(alloc);
        left.push(Pair {
            old: template,
            new: instance,
        })?;
        for _ in 0..u64::MAX {
            let Some(pair) = left.pop() else {
                break;
            };
            renaming.take(declared, pair, &mut left)?;
        }
        Ok(renaming)
    }
}
