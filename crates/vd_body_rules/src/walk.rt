//! The first body that differs from the declaration of its function.

ghost use Rattle.std.specs.Prelude.{◌≡◌, IfOk};
ghost use Rattle.vd_body_rules.specs.Walk.{bodies_walker};
ghost use Rattle.vd_value_rules.specs.Groups.{bodies, firsts_by};
ghost use Rattle.vd_value_rules.specs.Designs.{design_of};

use crate::bodies::{refused_at, texts_left};
use crate::texts::Texts;
use std::alloc::{AllocError, Global};
use std::mem;
use vd_bytes::Refused;
use vd_forest::{Opened, Store};
use vd_resolved::{Resolved, Tree};
use vd_trees::Revision;
use vd_value_rules::Firsts;
use vd_walks::{Entry, Outcome, Walking, lesser, walk};

/// What is kept of a node while its parts are walked: how many texts there were in front of it, and its refusal.
#[derive(Clone, Copy)]
pub struct Kept {
    pub count: usize,
    pub refused: Option<Refused>,
}

/// The bodies of a design.
#[derive(Clone, Copy)]
struct Bodies<'a> {
    revision: Revision,
    tree: &'a Tree,
}

impl<'a> Walking<'a, Resolved, u8, Texts<'a>, u8, Kept> for Bodies<'a> {
    ghost walker = { λ all. bodies_walker (design_of all.revision all.tree.now) };

    fn enter(
        &self,
        alloc: Global,
        node: &Opened<'a, Resolved>,
        at: Texts<'a>,
        _table: &mut u8,
        _out: &mut Store<u8>,
    ) -> Result<Entry<Texts<'a>, Kept>, AllocError> {
        let refused = refused_at(alloc, &at, node)?;
        let count = at.len();
        Ok(Entry::Inside {
            at,
            kept: Kept { count, refused },
        })
    }

    fn leave(
        &self,
        alloc: Global,
        kept: Kept,
        node: &Opened<'a, Resolved>,
        outcome: &mut Outcome<Texts<'a>>,
        _table: &mut u8,
        _out: &mut Store<u8>,
    ) -> Result<(), AllocError> {
        outcome.first = lesser(kept.refused, outcome.first);
        let inner = mem::replace(&mut outcome.at, Texts::new(alloc));
        let left = texts_left(alloc, inner, kept.count, node)?;
        drop(mem::replace(&mut outcome.at, left));
        Ok(())
    }
}

/// The first refusals of bodies: each is like the declaration of its function.
pub fn body_refusals(alloc: Global, revision: Revision, tree: &Tree) -> Result<Firsts, AllocError>
    ensures { IfOk result (λ found. found ≡ firsts_by bodies revision tree.now) }
{
    let all = Bodies { revision, tree };
    let mut out = Store::new(alloc);
    let mut table = 0;
    let outcome = walk(
        alloc,
        &tree.cursor(),
        Texts::new(alloc),
        &mut table,
        &mut out,
        &all,
    )?;
    let first = outcome.first;
    drop(outcome);
    Ok(Firsts {
        of_names: None,
        of_rules: first,
    })
}
