//! Formals: a whole port, or a conversion of one.

ghost use Rattle.std.specs.Prelude.{◌≡◌, IfOk, List, Some, ℕ};
ghost use Rattle.vd_operations.specs.Roles.{read_role};
ghost use Rattle.vd_meaning.specs.Names.{number_or};
ghost use Rattle.vd_port_associations.specs.Associations.{bracketed_formal, read_brackets, read_formal};
ghost use Rattle.vd_port_associations.specs.Numbers.{Holds};
ghost use Rattle.vd_port_modes.specs.Source.{design_in};
ghost use Rattle.vd_value_rules.specs.Actuals.{converted_port, formal_sort as sort_of_formal, port_named as named_port, port_named_by as named_port_by, whole_port as port_as_whole};
ghost use Rattle.vd_value_rules.specs.Designs.{Design};

use crate::brackets::{LastBrackets, is_single, last_brackets};
use crate::numbers::NumberSet;
use std::alloc::{AllocError, Global};
use vd_declarations::DeclId;
use vd_forest::{Cursor, Opened};
use vd_forms::Form;
use vd_operations::Role;
use vd_port_modes::{Interfaces, reached_by};
use vd_resolved::Resolved;

/// What a formal is.
#[derive(Clone, Copy)]
pub enum FormalSort {
    WholePort { port: DeclId },
    ConvertedPort { mark: DeclId, port: DeclId },
    NoFormal,
}

/// A declaration that is there, where it is a port and named alone.
fn port_if(ports: &NumberSet, number: DeclId, is_alone: bool) -> Option<DeclId>
    ensures { (d : Design) (ns : List ℕ) → Holds ports.now ns → result ≡ port_as_whole d ns (Some number) is_alone }
{
    if is_alone && ports.has(&number) {
        Some(number)
    } else {
        None
    }
}

/// A declaration, where it is a port and named alone.
fn whole_port(ports: &NumberSet, number: Option<DeclId>, is_alone: bool) -> Option<DeclId>
    ensures { (d : Design) (ns : List ℕ) → Holds ports.now ns → result ≡ port_as_whole d ns number is_alone }
{
    match number {
        Some(number) => port_if(ports, number, is_alone),
        None => None,
    }
}

/// The port that a name of one identifier means.
fn port_named_by(
    alloc: Global,
    interfaces: &Interfaces<'_>,
    ports: &NumberSet,
    tree: &Opened<'_, Resolved>,
) -> Result<Option<DeclId>, AllocError>
    ensures { (ns : List ℕ) → Holds ports.now ns → IfOk result (λ port.
        port ≡ named_port_by tree.now.form.form (design_in interfaces.now) ns tree.now.form tree.now.parts) }
{
    match tree.form.form {
        Form::Name => {
            let reached = reached_by(alloc, interfaces, &tree.parts)?;
            let number = tree.form.declaration.or(reached.declaration);
            Ok(whole_port(ports, number, is_single(&tree.parts)))
        }
        _ => Ok(None),
    }
}

/// The port that the one tree means, if there is one and it is a name of one identifier.
fn port_named(
    alloc: Global,
    interfaces: &Interfaces<'_>,
    ports: &NumberSet,
    trees: &Cursor<'_, Resolved>,
) -> Result<Option<DeclId>, AllocError>
    ensures { (ns : List ℕ) → Holds ports.now ns → IfOk result (λ port. port ≡ named_port (design_in interfaces.now) ns trees.now) }
{
    let Some(tree) = trees.open() else {
        return Ok(None);
    };
    match tree.next.form() {
        None => port_named_by(alloc, interfaces, ports, &tree),
        Some(_) => Ok(None),
    }
}

/// A mark, or the first declaration of all where there is none.
pub(crate) fn mark_or_first(number: Option<DeclId>) -> DeclId
    ensures { result ≡ number_or number }
{
    match number {
        Some(number) => number,
        None => DeclId::of(0),
    }
}

/// A port in brackets behind a name, which converts it where that is a mark.
fn converted(
    interfaces: &Interfaces<'_>,
    brackets: &LastBrackets<'_>,
    port: Option<DeclId>,
) -> FormalSort
    ensures { (ns : List ℕ) → read_formal result ≡ converted_port (design_in interfaces.now) ns (read_brackets (Some brackets.now)) port }
{
    let Some(port) = port else {
        return FormalSort::NoFormal;
    };
    match interfaces.role_of(brackets.declaration) {
        Role::Mark => FormalSort::ConvertedPort {
            mark: mark_or_first(brackets.declaration),
            port,
        },
        _ => FormalSort::NoFormal,
    }
}

/// What choices are that are no whole port.
fn formal_in_brackets(
    alloc: Global,
    interfaces: &Interfaces<'_>,
    ports: &NumberSet,
    choices: &Cursor<'_, Resolved>,
) -> Result<FormalSort, AllocError>
    ensures { (ns : List ℕ) → Holds ports.now ns → IfOk result (λ formal. read_formal formal ≡ bracketed_formal (design_in interfaces.now) ns choices.now) }
{
    let Some(brackets) = last_brackets(&choices.parts()) else {
        return Ok(FormalSort::NoFormal);
    };
    let port = port_named(alloc, interfaces, ports, &brackets.elements)?;
    Ok(converted(interfaces, &brackets, port))
}

/// What stands in front of `=>`.
pub(crate) fn formal_sort(
    alloc: Global,
    interfaces: &Interfaces<'_>,
    ports: &NumberSet,
    choices: &Cursor<'_, Resolved>,
) -> Result<FormalSort, AllocError>
    ensures { (ns : List ℕ) → Holds ports.now ns → IfOk result (λ formal. read_formal formal ≡ sort_of_formal (design_in interfaces.now) ns choices.now) }
{
    match port_named(alloc, interfaces, ports, choices)? {
        Some(port) => Ok(FormalSort::WholePort { port }),
        None => formal_in_brackets(alloc, interfaces, ports, choices),
    }
}
