//! Which packages have a body.

use std::alloc::{AllocError, Global};
use vd_forest::Cursor;
use vd_forms::Form;
use vd_notes::number_at;
use vd_resolved::Resolved;

/// What a unit declares, behind its clauses and those of units round it.
fn main_of<'t>(unit: &Cursor<'t, Resolved>) -> Cursor<'t, Resolved> {
    let mut main = unit.fork();
    for _ in 0..u64::MAX {
        let Some(first) = main.open() else {
            break;
        };
        match first.form.form {
            Form::DesignUnit | Form::ReferringUnit => main = first.parts.skip(1),
            _ => break,
        }
    }
    main
}

/// The package whose body a unit is.
fn package_of(unit: &Cursor<'_, Resolved>) -> Option<u32> {
    let main = main_of(unit).open()?;
    match main.form.form {
        Form::PackageBody => number_at(&main),
        _ => None,
    }
}

/// Puts down a package.
fn note(bodies: &mut Vec<bool>, package: Option<u32>) {
    if let Some(number) = package {
        let place = number as usize;
        if place < bodies.len() {
            bodies[place] = true;
        }
    }
}

/// Of each of so many numbers: whether it is that of a package with a body.
pub(crate) fn with_bodies(
    alloc: Global,
    units: &Cursor<'_, Resolved>,
    count: usize,
) -> Result<Vec<bool>, AllocError> {
    let mut bodies = vec![in alloc; false; count]?;
    let mut left = units.fork();
    while let Some(first) = left.open() {
        note(&mut bodies, package_of(&left));
        left = first.next;
    }
    Ok(bodies)
}
