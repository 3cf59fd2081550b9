//! The resolution of names in processes.

ghost use Rattle.std.specs.Prelude.{◌≡◌, ◌+◌, ◌^◌, ◌<◌, ◌++◌, [], map, OnOk, IfOk, length};
ghost use Rattle.vd_first_elaboration.specs.Expressions.{names_read, each_once};
ghost use Rattle.vd_first_elaboration.specs.Processes.{targets_of, names_assigned, names_listed, sensitivity, driven_by};
ghost use Rattle.vd_first_elaboration.specs.Elaboration.{processes_from, driven_names};
ghost use Rattle.vd_first_processes.specs.Numbering.{number_in};
ghost use Rattle.vd_first_processes.specs.Operations.{operations};
ghost use Rattle.vd_first_processes.specs.Resolved.{names_read_by, resolved_assignments, resolved};

use crate::expressions::write_operations;
use crate::names::Names;
use crate::numbers::Numbers;
use crate::processes::{ResolvedAssignment, ResolvedProcess};
use std::alloc::{AllocError, Global};
use vd_first_trees::Form;
use vd_first_trees::form_tests::{is_all, is_name};
use vd_forest::{Cursor, Opened};
use vd_kernel::{DriverId, SignalId};

// The targets of some assignments.
fn targets(alloc: Global, statements: &Cursor<'_, Form>) -> Result<Names, AllocError>
    ensures { IfOk result (λ names. names ≡ each_once [] (targets_of statements.now)) }
{
    let mut names = Names::new(alloc);
    let mut left = statements.fork();
    while let Some(first) = left.open() {
        names.insert(first.parts.parts().text())?;
        left = first.next;
    }
    Ok(names)
}

// Adds the names that some expressions read.
#[cycle(reading)]
fn add_read(names: &mut Names, from: &Cursor<'_, Form>) -> Result<(), AllocError>
    ensures { OnOk result (names.new ≡ each_once names.old (names_read from.now)) }
{
    let mut left = from.fork();
    while let Some(first) = left.open() {
        add_read_by(names, &first)?;
        left = first.next;
    }
    Ok(())
}

// The same for one expression.
#[cycle(reading)]
fn add_read_by(names: &mut Names, tree: &Opened<'_, Form>) -> Result<(), AllocError>
    ensures { OnOk result (names.new ≡ each_once names.old (names_read_by tree.now.form tree.now.parts)) }
{
    if is_name(tree.form) {
        names.insert(tree.parts.text())?;
        Ok(())
    } else {
        add_read(names, &tree.parts)
    }
}

// The names that the values of some assignments read.
fn names_of_values(alloc: Global, statements: &Cursor<'_, Form>) -> Result<Names, AllocError>
    ensures { IfOk result (λ names. names ≡ each_once [] (names_assigned statements.now)) }
{
    let mut names = Names::new(alloc);
    let mut left = statements.fork();
    while let Some(first) = left.open() {
        add_read(&mut names, &first.parts.next())?;
        left = first.next;
    }
    Ok(names)
}

// The numbers of the names of a list.
fn listed(
    alloc: Global,
    numbers: &Numbers,
    list: &Cursor<'_, Form>,
) -> Result<Vec<SignalId>, AllocError>
    ensures { IfOk result (λ v. v.items ≡ map (number_in numbers.now) (names_listed list.now)) }
{
    let mut on = Vec::new(alloc);
    let mut left = list.fork();
    while let Some(first) = left.open() {
        on.push(numbers.number(first.parts.text()))?;
        left = first.next;
    }
    Ok(on)
}

// The signals that a process is sensitive to.
fn resolve_sensitivity(
    alloc: Global,
    numbers: &Numbers,
    process: &Cursor<'_, Form>,
) -> Result<Vec<SignalId>, AllocError>
    ensures { IfOk result (λ v. v.items ≡ map (number_in numbers.now) (sensitivity process.now)) }
{
    let Some(first) = process.open() else {
        return Ok(Vec::new(alloc));
    };
    if !is_all(first.form) {
        return listed(alloc, numbers, &first.parts);
    }
    let read = names_of_values(alloc, &first.next.next())?;
    numbers.numbers(alloc, &read)
}

// Assignments whose targets have drivers in this order, from this number on.
fn resolve_assignments(
    alloc: Global,
    numbers: &Numbers,
    first_driver: usize,
    targets: &Names,
    statements: &Cursor<'_, Form>,
) -> Result<Vec<ResolvedAssignment>, AllocError>
    requires { first_driver + length targets.now < 2 ^ 64 }
    ensures { IfOk result (λ v. v.items ≡ resolved_assignments (number_in numbers.now) first_driver targets.now statements.now) }
{
    let mut assignments = Vec::new(alloc);
    let mut left = statements.fork();
    while let Some(first) = left.open() {
        let mut value = Vec::new(alloc);
        write_operations(&mut value, numbers, &first.parts.next())?;
        let driver = DriverId::of(first_driver + targets.number(first.parts.parts().text()));
        assignments.push(ResolvedAssignment { driver, value })?;
        left = first.next;
    }
    Ok(assignments)
}

// A process, whose drivers come behind those that there are.
fn resolve_process(
    alloc: Global,
    numbers: &Numbers,
    driven: &mut Vec<SignalId>,
    process: &Cursor<'_, Form>,
) -> Result<ResolvedProcess, AllocError>
    ensures driven { OnOk result (driven.new.items ≡ driven.old.items ++ map (number_in numbers.now) (driven_by process.now)) }
    ensures process { IfOk result (λ p. p ≡ resolved (number_in numbers.now) (record { first_driver = length driven.old.items; parts = process.now })) }
{
    let first_driver = driven.len();
    let statements = process.next().next();
    let targets = targets(alloc, &statements)?;
    driven.append(&mut numbers.numbers(alloc, &targets)?)?;
    let assignments = resolve_assignments(alloc, numbers, first_driver, &targets, &statements)?;
    let on = resolve_sensitivity(alloc, numbers, process)?;
    Ok(ResolvedProcess { assignments, on })
}

/// All processes, and the signals that their drivers drive.
pub fn resolve_processes(
    alloc: Global,
    numbers: &Numbers,
    driven: &mut Vec<SignalId>,
    from: &Cursor<'_, Form>,
) -> Result<Vec<ResolvedProcess>, AllocError>
    requires { driven.old.items ≡ [] }
    ensures driven { OnOk result (driven.new.items ≡ map (number_in numbers.now) (driven_names from.now)) }
    ensures processes { IfOk result (λ v. v.items ≡ map (resolved (number_in numbers.now)) (processes_from 0 from.now)) }
{
    let mut processes = Vec::new(alloc);
    let mut left = from.fork();
    while let Some(first) = left.open() {
        processes.push(resolve_process(alloc, numbers, driven, &first.parts)?)?;
        left = first.next;
    }
    Ok(processes)
}
