//! The 1993 tree of a lowered one.

ghost use Rattle.std.specs.Prelude.{◌≡◌, ◌≤◌, [], OnOk, IfOk, length};
ghost use Rattle.vd_forest.specs.Forest.{nothing, more, turned, with_next};
ghost use Rattle.vd_forest.specs.Store.{at, Holds, Extends};
ghost use Rattle.vd_first_passes.specs.Lowering.{lowered};
ghost use Rattle.vd_first_passes.specs.Flavour.{each_port, single_ports, closed_by, present, with_is, flavoured_parts, closing_parts, flavoured};

use crate::lowering::lower_all;
use std::alloc::{AllocError, Global};
use vd_first_trees::form_tests::{
    is_absent, is_architecture, is_closing, is_entity, is_port_clause, is_process,
};
use vd_first_trees::{Design19, Design93, Form};
use vd_forest::{Cursor, Opened, Store};

/// The 1993 tree that is written for a design.
pub fn lower(alloc: Global, design: &Design19) -> Result<Design93, AllocError>
    ensures { IfOk result (λ written. written ≡ flavoured (lowered design.now)) }
{
    let mut lists = Store::new(alloc);
    let from = design.units();
    let with_lists = lower_all(alloc, &mut lists, &from)?;
    let mut out = Store::new(alloc);
    let units = flavour_all(&mut out, &lists.cursor(with_lists))?;
    Ok(Design93::of(out, units))
}

#[tactic(auto, using(vd_forest::proofs::StoreLemmas::turned_added, vd_forest::proofs::StoreLemmas::within_more, vd_forest::proofs::StoreLemmas::extends_same, vd_forest::proofs::StoreLemmas::extends_trans))]
#[cycle(flavour)]
fn flavour_all(out: &mut Store<Form>, from: &Cursor<'_, Form>) -> Result<u32, AllocError>
    ensures holds { IfOk result (λ number. Holds out.new number (flavoured from.now)) }
    ensures extends { Extends out.old out.new }
{
    let mut left = from.fork();
    let mut made = 0;
    while let Some(first) = left.open() {
        let parts = flavour_parts(out, &first)?;
        made = out.add(first.form, first.text, first.place, parts, made)?;
        left = first.next;
    }
    let number = out.turn(made, 0)?;
    Ok(number)
}

// The parts of one tree.
#[tactic(auto, using(vd_forest::proofs::StoreLemmas::kept, vd_forest::proofs::StoreLemmas::extends_same, vd_forest::proofs::StoreLemmas::extends_trans))]
#[cycle(flavour)]
fn flavour_parts(out: &mut Store<Form>, tree: &Opened<'_, Form>) -> Result<u32, AllocError>
    ensures holds { IfOk result (λ number. Holds out.new number (flavoured_parts tree.now.form tree.now.parts)) }
    ensures extends { Extends out.old out.new }
{
    if is_port_clause(tree.form) {
        return write_single_ports(out, &tree.parts);
    }
    if is_process(tree.form) {
        return write_is(out, &tree.parts);
    }
    if is_entity(tree.form) || is_architecture(tree.form) {
        let identifier = write_first(out, &tree.parts)?;
        return close_unit(out, identifier, &tree.parts);
    }
    flavour_all(out, &tree.parts)
}

// The parts of a unit, its closing having the identifier that stands in the store.
#[tactic(auto, using(vd_forest::proofs::StoreLemmas::turned_added, vd_forest::proofs::StoreLemmas::within_more, vd_forest::proofs::StoreLemmas::extends_same, vd_forest::proofs::StoreLemmas::extends_trans))]
#[cycle(flavour)]
fn close_unit(
    out: &mut Store<Form>,
    identifier: u32,
    from: &Cursor<'_, Form>,
) -> Result<u32, AllocError>
    requires within { identifier ≤ length out.old }
    ensures holds { IfOk result (λ number. Holds out.new number (closed_by (at out.old identifier) (flavoured from.now))) }
    ensures extends { Extends out.old out.new }
{
    let mut left = from.fork();
    let mut made = 0;
    while let Some(first) = left.open() {
        let parts = close_part(out, identifier, &first)?;
        made = out.add(first.form, first.text, first.place, parts, made)?;
        left = first.next;
    }
    let number = out.turn(made, 0)?;
    Ok(number)
}

// The parts of one part of a unit.
#[tactic(auto, using(vd_forest::proofs::StoreLemmas::extends_same, vd_forest::proofs::StoreLemmas::holds_at))]
#[cycle(flavour)]
fn close_part(
    out: &mut Store<Form>,
    identifier: u32,
    tree: &Opened<'_, Form>,
) -> Result<u32, AllocError>
    requires within { identifier ≤ length out.old }
    ensures holds { IfOk result (λ number. Holds out.new number (closing_parts (at out.old identifier) tree.now.form tree.now.parts)) }
    ensures extends { Extends out.old out.new }
{
    if is_closing(tree.form) {
        return Ok(identifier);
    }
    flavour_parts(out, tree)
}

// The first tree alone.
#[tactic(auto, using(vd_forest::proofs::StoreLemmas::holds_nothing, vd_forest::proofs::StoreLemmas::extends_same, vd_forest::proofs::StoreLemmas::extends_trans))]
fn write_first(out: &mut Store<Form>, trees: &Cursor<'_, Form>) -> Result<u32, AllocError>
    ensures holds { IfOk result (λ number. Holds out.new number (with_next trees.now nothing)) }
    ensures extends { Extends out.old out.new }
{
    let Some(first) = trees.open() else {
        return Ok(0);
    };
    let parts = out.copy(&first.parts)?;
    let number = out.add(first.form, first.text, first.place, parts, 0)?;
    Ok(number)
}

// The parts of a process, with the word `is`.
#[tactic(auto, using(vd_forest::proofs::StoreLemmas::turned_added, vd_forest::proofs::StoreLemmas::within_more, vd_forest::proofs::StoreLemmas::extends_same, vd_forest::proofs::StoreLemmas::extends_trans))]
fn write_is(out: &mut Store<Form>, from: &Cursor<'_, Form>) -> Result<u32, AllocError>
    ensures holds { IfOk result (λ number. Holds out.new number (with_is from.now)) }
    ensures extends { Extends out.old out.new }
{
    let mut left = from.fork();
    let mut made = 0;
    while let Some(first) = left.open() {
        let parts = out.copy(&first.parts)?;
        made = out.add(present(first.form), first.text, first.place, parts, made)?;
        left = first.next;
    }
    let number = out.turn(made, 0)?;
    Ok(number)
}

fn present(form: Form) -> Form
    ensures { result ≡ present form }
{
    match form {
        Form::Absent => Form::Is,
        _ => form,
    }
}

// Declarations of ports, one for each identifier.
#[tactic(auto, using(vd_forest::proofs::StoreLemmas::within_more, vd_forest::proofs::StoreLemmas::extends_same, vd_forest::proofs::StoreLemmas::extends_trans))]
fn write_single_ports(out: &mut Store<Form>, from: &Cursor<'_, Form>) -> Result<u32, AllocError>
    ensures holds { IfOk result (λ number. Holds out.new number (single_ports from.now)) }
    ensures extends { Extends out.old out.new }
{
    let mut left = from.fork();
    let mut made = 0;
    while let Some(first) = left.open() {
        let mode_and_subtype = out.copy(&first.parts.next())?;
        made = write_each(out, &first.parts.parts(), mode_and_subtype, made)?;
        left = first.next;
    }
    let number = out.turn(made, 0)?;
    Ok(number)
}

// Puts a declaration for each identifier in front of those that are made, the newest first.
#[tactic(auto, using(vd_forest::proofs::StoreLemmas::within_more, vd_forest::proofs::StoreLemmas::extends_same, vd_forest::proofs::StoreLemmas::extends_trans))]
fn write_each(
    out: &mut Store<Form>,
    identifiers: &Cursor<'_, Form>,
    mode_and_subtype: u32,
    made: u32,
) -> Result<u32, AllocError>
    requires shared_in { mode_and_subtype ≤ length out.old }
    requires made_in { made ≤ length out.old }
    ensures holds { IfOk result (λ number. Holds out.new number (turned (each_port identifiers.now (at out.old mode_and_subtype)) (at out.old made))) }
    ensures extends { Extends out.old out.new }
{
    let mut left = identifiers.fork();
    let mut newest = made;
    while let Some(first) = left.open() {
        newest = write_port(out, &first, mode_and_subtype, newest)?;
        left = first.next;
    }
    Ok(newest)
}

// A declaration of one identifier, in front of others.
#[tactic(auto, using(crate::proofs::FlavourLemmas::port_made, vd_forest::proofs::StoreLemmas::holds_nothing, vd_forest::proofs::StoreLemmas::within_more, vd_forest::proofs::StoreLemmas::at_more, vd_forest::proofs::StoreLemmas::extends_same, vd_forest::proofs::StoreLemmas::extends_trans))]
fn write_port(
    out: &mut Store<Form>,
    identifier: &Opened<'_, Form>,
    mode_and_subtype: u32,
    next: u32,
) -> Result<u32, AllocError>
    requires shared_in { mode_and_subtype ≤ length out.old }
    requires next_in { next ≤ length out.old }
    ensures holds { IfOk result (λ number. Holds out.new number (more Form.PortDeclaration [] identifier.now.place
        (more Form.IdentifierList [] identifier.now.place
        (more identifier.now.form identifier.now.text.now identifier.now.place identifier.now.parts nothing) (at out.old mode_and_subtype))
        (at out.old next))) }
    ensures extends { Extends out.old out.new }
{
    let parts = out.copy(&identifier.parts)?;
    let name = out.add(identifier.form, identifier.text, identifier.place, parts, 0)?;
    let list = out.add(
        Form::IdentifierList,
        &[],
        identifier.place,
        name,
        mode_and_subtype,
    )?;
    let number = out.add(Form::PortDeclaration, &[], identifier.place, list, next)?;
    Ok(number)
}
