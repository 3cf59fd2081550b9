//! Bodies of functions that wait for the body of a package.
#![tactic(auto, using(vd_forest::proofs::StoreLemmas::growing))]

ghost use Rattle.std.specs.Prelude.{◌≡◌, ◌≤◌, IfOk, length};
ghost use Rattle.vd_forest.specs.Store.{Extends};

use crate::trees::copy_first;
use indexmap::IndexMap;
use std::alloc::{AllocError, Global};
use vd_forest::Store;
use vd_resolved::{Resolved, Tree};

/// Which of the bodies are those of a package.
#[derive(Clone, Copy)]
struct Span {
    first: usize,
    end: usize,
}

/// The bodies of the instances in package declarations.
#[derive(Drop)]
pub(crate) struct Held {
    bodies: Vec<Tree>,
    /// Where those of the package at hand begin.
    first: usize,
    spans: IndexMap<u32, Span>,
}

impl Held {
    /// None wait.
    pub(crate) fn new(alloc: Global) -> Held {
        Held {
            bodies: Vec::new(alloc),
            first: 0,
            spans: IndexMap::new(alloc),
        }
    }

    /// A package declaration begins.
    pub(crate) fn begin(&mut self) {
        self.first = self.bodies.len();
    }

    /// One more body for the package at hand.
    pub(crate) fn push(&mut self, body: Tree) -> Result<(), AllocError> {
        self.bodies.push(body)?;
        Ok(())
    }

    /// A package declaration ends. The answer says whether bodies wait for its body.
    pub(crate) fn end(&mut self, package: u32) -> Result<bool, AllocError> {
        let end = self.bodies.len();
        if end <= self.first {
            return Ok(false);
        }
        self.spans.insert(
            package,
            Span {
                first: self.first,
                end,
            },
        )?;
        Ok(true)
    }

    /// A body in front of others.
    fn one_in_front(
        &self,
        out: &mut Store<Resolved>,
        place: usize,
        rest: u32,
    ) -> Result<u32, AllocError>
        requires { rest ≤ length out.old }
        ensures within { IfOk result (λ made. made ≤ length out.new) }
        ensures extends { Extends out.old out.new }
    {
        match self.bodies.get(place) {
            Some(body) => copy_first(out, &body.cursor(), rest),
            None => Ok(rest),
        }
    }

    /// The bodies that wait for that of a package, in front of others.
    pub(crate) fn in_front(
        &self,
        out: &mut Store<Resolved>,
        package: u32,
        rest: u32,
    ) -> Result<u32, AllocError>
        requires { rest ≤ length out.old }
        ensures within { IfOk result (λ made. made ≤ length out.new) }
        ensures extends { Extends out.old out.new }
    {
        let Some(span) = self.spans.get(&package).copied() else {
            return Ok(rest);
        };
        let mut made = rest;
        let mut left = span.end;
        while left > span.first {
            left -= 1;
            made = self.one_in_front(out, left, made)?;
        }
        Ok(made)
    }
}
