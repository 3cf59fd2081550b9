//! Functions that are written, and packages that have bodies.

ghost use Rattle.std.specs.Prelude.{◌≡◌, ℕ, None, IfOk, slice_index_or};
ghost use Rattle.vd_walks.specs.Finding.{Finder};
ghost use Rattle.vd_call_rules.specs.Calls.{outside as outside_of_all, until as until_end, written_until as written_with, written_at as written_by, written_finder, written as all_written, end_of, package_body_at as package_body_by, package_body_finder, package_bodies as all_package_bodies};

use crate::inside::{Inside, inside_of};
use std::alloc::{AllocError, Global};
use vd_declarations::DeclId;
use vd_forest::{Cursor, Opened};
use vd_forms::Form;
use vd_resolved::Resolved;
use vd_structure_rules::functions::or_designator;
use vd_structure_rules::loops::number_at;
use vd_structure_rules::tables::put;
use vd_walks::{Finding, find_all};

/// A function, and the function or package with which its body ends.
#[derive(Clone, Copy)]
pub struct Written {
    pub function: DeclId,
    pub until: DeclId,
}

/// What is around design units.
pub fn outside() -> Inside
    ensures { result ≡ outside_of_all }
{
    Inside {
        home: None,
        function: None,
        name: None,
    }
}

/// A function that is written, perhaps as an instance in a package declaration.
fn written_until(home: Option<DeclId>, function: Option<DeclId>) -> Option<Written>
    ensures { result ≡ written_with home function }
{
    match function {
        None => None,
        Some(number) => Some(Written {
            function: number,
            until: home.unwrap_or(number),
        }),
    }
}

/// The function that a node writes.
fn written_at(
    home: Option<DeclId>,
    form: Form,
    number: Option<DeclId>,
    parts: &Cursor<'_, Resolved>,
) -> Option<Written>
    ensures { result ≡ written_by home form number parts.now }
{
    match form {
        Form::FunctionDeclaration | Form::FunctionBody => {
            written_until(None, or_designator(number, &parts.skip(1)))
        }
        Form::FunctionInstantiation => {
            written_until(home, or_designator(number, &parts.skip(1)))
        }
        _ => None,
    }
}

/// Functions that are written.
#[derive(Clone, Copy)]
struct WrittenFunctions;

impl Finding<Resolved, Inside, Written> for WrittenFunctions {
    ghost finder = { λ _. written_finder };

    fn answer(
        &self,
        _alloc: Global,
        around: &Inside,
        node: &Opened<'_, Resolved>,
    ) -> Result<Option<Written>, AllocError> {
        Ok(written_at(
            around.home,
            node.form.form,
            node.form.declaration,
            &node.parts,
        ))
    }

    fn down(
        &self,
        _alloc: Global,
        around: &Inside,
        node: &Opened<'_, Resolved>,
    ) -> Result<Inside, AllocError> {
        Ok(inside_of(around, node))
    }

    fn along(
        &self,
        _alloc: Global,
        around: &Inside,
        _node: &Opened<'_, Resolved>,
    ) -> Result<Inside, AllocError> {
        Ok(*around)
    }
}

/// All functions that are written, in the order of the text.
pub fn written_functions(
    alloc: Global,
    units: &Cursor<'_, Resolved>,
) -> Result<Vec<Written>, AllocError>
    ensures { IfOk result (λ found. found.items ≡ all_written units.now) }
{
    find_all(alloc, units, outside(), &WrittenFunctions)
}

/// With what the body of each function ends, by the function's number.
pub fn ends_by_number(
    alloc: Global,
    functions: &[Written],
) -> Result<Vec<Option<DeclId>>, AllocError>
    ensures { IfOk result (λ table. (k : ℕ) → slice_index_or table.items k None ≡ end_of functions.now k) }
{
    let mut table = Vec::new(alloc);
    let mut left = functions.len();
    while left > 0 {
        left -= 1;
        let one = functions[left];
        put(&mut table, one.function.number(), one.until)?;
    }
    Ok(table)
}

/// The package whose body a node is.
fn package_body_at(form: Form, parts: &Cursor<'_, Resolved>) -> Option<DeclId>
    ensures { result ≡ package_body_by form parts.now }
{
    match form {
        Form::PackageBody => number_at(parts),
        _ => None,
    }
}

/// Bodies of packages.
#[derive(Clone, Copy)]
struct PackageBodies;

impl Finding<Resolved, u8, DeclId> for PackageBodies {
    ghost finder = { λ _. package_body_finder };

    fn answer(
        &self,
        _alloc: Global,
        _state: &u8,
        node: &Opened<'_, Resolved>,
    ) -> Result<Option<DeclId>, AllocError> {
        Ok(package_body_at(node.form.form, &node.parts))
    }

    fn down(
        &self,
        _alloc: Global,
        state: &u8,
        _node: &Opened<'_, Resolved>,
    ) -> Result<u8, AllocError> {
        Ok(*state)
    }

    fn along(
        &self,
        _alloc: Global,
        state: &u8,
        _node: &Opened<'_, Resolved>,
    ) -> Result<u8, AllocError> {
        Ok(*state)
    }
}

/// The packages that have bodies, in the order of the text.
pub fn packages_with_bodies(
    alloc: Global,
    units: &Cursor<'_, Resolved>,
) -> Result<Vec<DeclId>, AllocError>
    ensures { IfOk result (λ found. found.items ≡ all_package_bodies units.now) }
{
    find_all(alloc, units, 0, &PackageBodies)
}
