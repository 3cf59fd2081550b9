//! Texts with generics, as they became.

use indexmap::IndexMap;
use std::alloc::{AllocError, Global};
use vd_resolved::Tree;

/// The texts of packages and functions with generics, by the numbers of their declarations. Instances in them are expanded already.
#[derive(Drop)]
pub(crate) struct Templates {
    trees: Vec<Tree>,
    /// Where the declaration of a package stands, or the body of a function.
    headers: IndexMap<u32, usize>,
    /// Where the body of a package stands.
    bodies: IndexMap<u32, usize>,
}

impl Templates {
    /// None is known.
    pub(crate) fn new(alloc: Global) -> Templates {
        Templates {
            trees: Vec::new(alloc),
            headers: IndexMap::new(alloc),
            bodies: IndexMap::new(alloc),
        }
    }

    /// Keeps the declaration of a package, or the body of a function.
    pub(crate) fn keep(&mut self, number: u32, tree: Tree) -> Result<(), AllocError> {
        self.headers.insert(number, self.trees.len())?;
        self.trees.push(tree)?;
        Ok(())
    }

    /// Keeps the body of a package.
    pub(crate) fn keep_body(&mut self, number: u32, tree: Tree) -> Result<(), AllocError> {
        self.bodies.insert(number, self.trees.len())?;
        self.trees.push(tree)?;
        Ok(())
    }

    /// The declaration of a package, or the body of a function.
    pub(crate) fn header(&self, number: u32) -> Option<&Tree> {
        let place = self.headers.get(&number).copied()?;
        self.trees.get(place)
    }

    /// The body that a package has so far.
    pub(crate) fn body(&self, number: u32) -> Option<&Tree> {
        let place = self.bodies.get(&number).copied()?;
        self.trees.get(place)
    }
}
