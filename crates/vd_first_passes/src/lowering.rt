//! `process (all)` written with the list of its read set.

ghost use Rattle.std.specs.Prelude.{◌≡◌, ◌≤◌, OnOk, IfOk, length};
ghost use Rattle.vd_forest.specs.Forest.{nothing, more, turned};
ghost use Rattle.vd_forest.specs.Store.{at, Holds, Extends};
ghost use Rattle.vd_first_passes.specs.Lowering.{names_in, tree_names, firsts, names_after, read_set, listed, lowered};

use crate::names::NameSet;
use std::alloc::{AllocError, Global};
use vd_first_trees::Form;
use vd_first_trees::form_tests::{is_all, is_name, is_process};
use vd_forest::{Cursor, Opened, Store};

// The trees with a sensitivity list in each `process (all)`.
#[tactic(auto, using(vd_forest::proofs::StoreLemmas::turned_added, vd_forest::proofs::StoreLemmas::within_more, vd_forest::proofs::StoreLemmas::extends_same, vd_forest::proofs::StoreLemmas::extends_trans))]
pub(crate) fn lower_all(
    alloc: Global,
    out: &mut Store<Form>,
    from: &Cursor<'_, Form>,
) -> Result<u32, AllocError>
    ensures holds { IfOk result (λ number. Holds out.new number (lowered from.now)) }
    ensures extends { Extends out.old out.new }
{
    let mut left = from.fork();
    let mut made = 0;
    while let Some(first) = left.open() {
        let parts = if is_process(first.form) {
            list_process(alloc, out, &first.parts)?
        } else {
            lower_all(alloc, out, &first.parts)?
        };
        made = out.add(first.form, first.text, first.place, parts, made)?;
        left = first.next;
    }
    let number = out.turn(made, 0)?;
    Ok(number)
}

// The parts of a process, `all` being replaced by a list.
#[tactic(auto, using(vd_forest::proofs::StoreLemmas::kept, vd_forest::proofs::StoreLemmas::within_more, vd_forest::proofs::StoreLemmas::extends_same, vd_forest::proofs::StoreLemmas::extends_trans))]
fn list_process(
    alloc: Global,
    out: &mut Store<Form>,
    parts: &Cursor<'_, Form>,
) -> Result<u32, AllocError>
    ensures holds { IfOk result (λ number. Holds out.new number (listed parts.now)) }
    ensures extends { Extends out.old out.new }
{
    let Some(first) = parts.open() else {
        return Ok(0);
    };
    let next = out.copy(&first.next)?;
    if is_all(first.form) {
        let statements = first.next.next();
        let names = write_read_set(alloc, out, &statements)?;
        let number = out.add(Form::SensitivityList, &[], first.place, names, next)?;
        return Ok(number);
    }
    let inner = out.copy(&first.parts)?;
    let number = out.add(first.form, first.text, first.place, inner, next)?;
    Ok(number)
}

// The names that some statements read.
#[tactic(auto, using(vd_forest::proofs::StoreLemmas::within_more, vd_forest::proofs::StoreLemmas::extends_same, vd_forest::proofs::StoreLemmas::extends_trans))]
fn write_read_set(
    alloc: Global,
    out: &mut Store<Form>,
    statements: &Cursor<'_, Form>,
) -> Result<u32, AllocError>
    ensures holds { IfOk result (λ number. Holds out.new number (read_set statements.now)) }
    ensures extends { Extends out.old out.new }
{
    let mut seen = NameSet::new(alloc);
    let mut left = statements.fork();
    let mut made = 0;
    while let Some(first) = left.open() {
        let values = first.parts.next();
        made = collect_names(out, &mut seen, made, &values)?;
        left = first.next;
    }
    let number = out.turn(made, 0)?;
    Ok(number)
}

// Puts the names of some expressions that haven't come yet in front of those that have, the newest first.
#[cycle(collecting)]
#[tactic(auto, using(vd_forest::proofs::StoreLemmas::within_more, vd_forest::proofs::StoreLemmas::extends_same, vd_forest::proofs::StoreLemmas::extends_trans))]
fn collect_names(
    out: &mut Store<Form>,
    seen: &mut NameSet,
    made: u32,
    from: &Cursor<'_, Form>,
) -> Result<u32, AllocError>
    requires made_in { made ≤ length out.old }
    ensures holds { IfOk result (λ number. Holds out.new number (turned (firsts seen.old (names_in from.now)) (at out.old made))) }
    ensures names { OnOk result (seen.new ≡ names_after seen.old (names_in from.now)) }
    ensures extends { Extends out.old out.new }
{
    let mut left = from.fork();
    let mut newest = made;
    while let Some(first) = left.open() {
        newest = collect_tree(out, seen, newest, &first)?;
        left = first.next;
    }
    Ok(newest)
}

// The same for one expression.
#[cycle(collecting)]
fn collect_tree(
    out: &mut Store<Form>,
    seen: &mut NameSet,
    made: u32,
    tree: &Opened<'_, Form>,
) -> Result<u32, AllocError>
    requires made_in { made ≤ length out.old }
    ensures holds { IfOk result (λ number. Holds out.new number (turned (firsts seen.old (tree_names tree.now.form tree.now.text.now tree.now.place tree.now.parts)) (at out.old made))) }
    ensures names { OnOk result (seen.new ≡ names_after seen.old (tree_names tree.now.form tree.now.text.now tree.now.place tree.now.parts)) }
    ensures extends { Extends out.old out.new }
{
    if is_name(tree.form) {
        collect_name(out, seen, made, tree)
    } else {
        collect_names(out, seen, made, &tree.parts)
    }
}

// One name.
#[tactic(auto, using(vd_forest::proofs::StoreLemmas::kept, vd_forest::proofs::StoreLemmas::within_more, vd_forest::proofs::StoreLemmas::extends_same, vd_forest::proofs::StoreLemmas::extends_trans))]
fn collect_name(
    out: &mut Store<Form>,
    seen: &mut NameSet,
    made: u32,
    name: &Opened<'_, Form>,
) -> Result<u32, AllocError>
    requires made_in { made ≤ length out.old }
    ensures holds { IfOk result (λ number. Holds out.new number
        (turned (firsts seen.old (more name.now.form name.now.text.now name.now.place name.now.parts nothing)) (at out.old made))) }
    ensures names { OnOk result (seen.new ≡ names_after seen.old (more name.now.form name.now.text.now name.now.place name.now.parts nothing)) }
    ensures extends { Extends out.old out.new }
{
    if !seen.insert(name.parts.text())? {
        return Ok(made);
    }
    let parts = out.copy(&name.parts)?;
    let number = out.add(name.form, name.text, name.place, parts, made)?;
    Ok(number)
}
