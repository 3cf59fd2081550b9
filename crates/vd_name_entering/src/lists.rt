//! Lists of names that are declared later, where their numbers are known already.

ghost use Rattle.std.specs.Prelude.{◌≡◌, ◌+◌, IfOk, OnOk};
ghost use Rattle.vd_forest.specs.Forest.{tree_count};
ghost use Rattle.vd_forest.specs.Store.{Holds, Extends};
ghost use Rattle.vd_naming.specs.Expressions.{unresolved as with_nothing_named};
ghost use Rattle.vd_naming.specs.Statements.{names as names_step};
ghost use Rattle.vd_name_rows.specs.Entering.{numbered as with_numbers};
ghost use Rattle.vd_name_entering.specs.Made.{IsMade};

use crate::label_nodes::add_named;
use crate::{Made, add_node};
use std::alloc::{AllocError, Global};
use vd_declarations::DeclId;
use vd_forest::{Cursor, Opened, Store};
use vd_forms::Form;
use vd_name_rows::{At, Names};
use vd_resolved::Resolved;

/// A list of names with their numbers, by the number of its trees in the store that is made, and the number behind its last one.
#[derive(Clone, Copy)]
struct Listed {
    tree: u32,
    next: u32,
}

/// The names of a list, with the numbers from this one on.
#[tactic(auto, using(crate::proofs::NumberLemmas::numbered_added, vd_forest::proofs::StoreLemmas::growing))]
fn numbered(
    alloc: Global,
    first: u32,
    list: &Cursor<'_, Form>,
    out: &mut Store<Resolved>,
) -> Result<Listed, AllocError>
    ensures holds { IfOk result (λ made. Holds out.new made.tree (with_numbers first (with_nothing_named list.now))) }
    ensures next { IfOk result (λ made. made.next ≡ first + tree_count list.now) }
    ensures extends { Extends out.old out.new }
{
    let mut made = 0;
    let mut number = first;
    let mut left = list.fork();
    while let Some(node) = left.open() {
        made = add_named(alloc, Some(DeclId::of(number)), &node, made, out)?;
        let Some(next) = number.checked_add(1) else {
            return Err(AllocError);
        };
        number = next;
        left = node.next;
    }
    let tree = out.turn(made, 0)?;
    Ok(Listed { tree, next: number })
}

/// The names of a list have the numbers that come next.
pub fn names(
    alloc: Global,
    names: &Names,
    at: &mut At<'_>,
    node: &Opened<'_, Form>,
    out: &mut Store<Resolved>,
) -> Result<Made, AllocError>
    ensures is { IfOk result (λ made. IsMade out.new names.now made
        (names_step at.old names.now node.now.form node.now.text.now node.now.place node.now.parts)) }
    ensures at { OnOk result (at.new ≡ (names_step at.old names.now node.now.form node.now.text.now node.now.place node.now.parts).at) }
    ensures extends { Extends out.old out.new }
{
    let list = numbered(alloc, at.next, &node.parts, out)?;
    at.next = list.next;
    let tree = add_node(node, None, None, list.tree, out)?;
    Ok(Made { tree, first: None })
}
