//! Bodies that instances need.

ghost use Rattle.std.specs.Prelude.{◌≡◌, OnOk};
ghost use Rattle.std.specs.List.{list_any};
ghost use Rattle.vd_name_rows.specs.Noting.{as_instance as noted_as_instance, is_tied_elsewhere as is_tied_to_another};
ghost use Rattle.vd_naming.specs.Functions.{is_written_function as is_function_written};
ghost use Rattle.vd_naming.specs.Instances.{wants_body as needs_body, lacks_body as has_no_body, with_instance};

use std::alloc::AllocError;
use vd_declarations::{Class, DeclId};
use vd_name_entering::note_body;
use vd_name_rows::Names;

/// Whether a class is that of a function that is written, with generics or without.
fn is_written_function(class: &Class) -> bool
    ensures { result ≡ is_function_written class.now }
{
    matches!(*class, Class::Function | Class::UninstantiatedFunction)
}

/// Whether a declaration is a function without body, which is one in the body of its package.
fn wants_body(names: &Names, id: DeclId) -> bool
    ensures { result ≡ needs_body names.now id }
{
    is_written_function(&names.class_of(id)) && !names.note(id).is_instance
}

/// Whether one of these is such a function.
fn some_want_bodies(names: &Names, ids: &[DeclId]) -> bool
    ensures { result ≡ list_any (needs_body names.now) ids.now }
{
    for id in ids {
        if wants_body(names, *id) {
            return true;
        }
    }
    false
}

/// Whether a package declares such a function and its body hasn't ended.
pub(crate) fn lacks_body(names: &Names, id: DeclId) -> bool
    ensures { result ≡ has_no_body names.now id }
{
    some_want_bodies(names, names.parameters_of(id)) && !names.note(id).has_body
}

/// Whether the body of a function is tied to another unit than this one.
pub(crate) fn is_tied_elsewhere(names: &Names, id: DeclId, unit: u32) -> bool
    ensures { result ≡ is_tied_to_another id unit names.now }
{
    match names.note(id).tied {
        None => false,
        Some(other) => unit != other,
    }
}

/// Notes that a function is an instance.
fn note_as_instance(names: &mut Names, id: DeclId) -> Result<(), AllocError>
    ensures { OnOk result (names.new ≡ noted_as_instance id names.old) }
{
    let mut note = names.note(id);
    note.is_instance = true;
    names.put(id, note)
}

/// Notes that a function is an instance. In a package declaration its body ends with the package, or where that of the package begins.
pub(crate) fn note_instance(
    names: &mut Names,
    is_package: bool,
    id: DeclId,
) -> Result<(), AllocError>
    ensures { OnOk result (names.new ≡ with_instance is_package id names.old) }
{
    note_as_instance(names, id)?;
    if !is_package {
        note_body(names, id)?;
    }
    Ok(())
}
