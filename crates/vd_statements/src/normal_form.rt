//! A design as it is laid out.

ghost use Rattle.std.specs.Prelude.{◌≡◌, ◌≤◌, IfOk, length};
ghost use Rattle.vd_forest.specs.Store.{Holds, Extends};
ghost use Rattle.vd_rewriting.specs.Inheriting.{rewritten_under};
ghost use Rattle.vd_statements.specs.Words.{outside, words};

use crate::associations::Associations;
use crate::slots::Slot;
use crate::words::Words;
use std::alloc::{AllocError, Global};
use vd_declarations::Declaration;
use vd_forest::{Cursor, Store};
use vd_noting::all_copied;
use vd_resolved::{Resolved, Tree};
use vd_rewriting::rewrite_under;
use vd_tours::tour;

/// The same with maps by name and calls by position.
#[tactic(auto, using(crate::proofs::TourLemmas::at_start))]
fn associated(
    alloc: Global,
    declarations: &[Declaration],
    units: &Cursor<'_, Resolved>,
    out: &mut Store<Resolved>,
) -> Result<u32, AllocError>
    ensures within { IfOk result (λ made. made ≤ length out.new) }
    ensures extends { Extends out.old out.new }
{
    let mut pass = Associations::of(alloc, declarations)?;
    tour(alloc, units, out, &mut pass)
}

/// The same with one declaration a name, and words and ends as they are laid out.
fn worded(
    alloc: Global,
    declarations: &[Declaration],
    units: &Cursor<'_, Resolved>,
    out: &mut Store<Resolved>,
) -> Result<u32, AllocError>
    ensures holds { IfOk result (λ made. Holds out.new made (rewritten_under (words declarations.now) outside units.now)) }
    ensures extends { Extends out.old out.new }
{
    let outside = Slot {
        round: None,
        at: 0,
        unit: None,
    };
    rewrite_under(alloc, units, outside, out, &mut Words { declarations })
}

/// A design as it is laid out: one declaration a name; no word that may be left out, but for modes of ports, `is` of processes and `begin` of generate
/// statements; the word and the name at the end of units, the word alone at other ends; generic and port maps by name, in the order of generics and
/// ports; calls by position. It declares what the design declares.
pub fn normal(alloc: Global, tree: &Tree) -> Result<Tree, AllocError>
    ensures { IfOk result (λ made. made.declarations ≡ tree.now.declarations) }
{
    let mut associated_units = Store::new(alloc);
    let units = associated(
        alloc,
        tree.declarations(),
        &tree.cursor(),
        &mut associated_units,
    )?;
    let mut out = Store::new(alloc);
    let units = worded(
        alloc,
        tree.declarations(),
        &associated_units.cursor(units),
        &mut out,
    )?;
    let declarations = all_copied(alloc, tree.declarations())?;
    Ok(Tree::of(out, units, declarations))
}
