//! Which names are names of signals, and which expressions move.

use std::alloc::{AllocError, Global};
use vd_declarations::{Class, DeclId};
use vd_forest::{Cursor, Opened};
use vd_forms::Form;
use vd_operations::tables::class_of;
use vd_port_modes::{Interfaces, is_signal_name, reached_by};
use vd_resolved::Resolved;

/// Whether the pieces of a name are those of the name of a signal.
pub(crate) fn names_signal(
    interfaces: &Interfaces<'_>,
    alloc: Global,
    pieces: &Cursor<'_, Resolved>,
) -> Result<bool, AllocError> {
    let name = reached_by(alloc, interfaces, pieces)?;
    Ok(is_signal_name(interfaces, &name))
}

/// Whether a declaration is that of an object whose value changes.
fn is_moving(interfaces: &Interfaces<'_>, number: Option<DeclId>) -> bool {
    let Some(number) = number else {
        return false;
    };
    matches!(
        class_of(interfaces.declarations(), number.number()),
        Class::Signal | Class::Variable | Class::Port | Class::Parameter | Class::LoopParameter
    )
}

/// Whether a piece of a name is an attribute.
fn is_attribute(form: Form) -> bool {
    matches!(form, Form::Attribute | Form::RangeAttribute)
}

/// Whether one of the pieces of a name is an attribute.
fn has_attribute(pieces: &Cursor<'_, Resolved>) -> bool {
    let mut rest = pieces.fork();
    while let Some(piece) = rest.open() {
        if is_attribute(piece.form.form) {
            return true;
        }
        rest = piece.next;
    }
    false
}

/// Whether a name, whose pieces these are, is that of an object whose value changes, and no attribute of it.
fn is_read(interfaces: &Interfaces<'_>, pieces: &Cursor<'_, Resolved>) -> bool {
    match pieces.form() {
        Some(first) => is_moving(interfaces, first.declaration) && !has_attribute(pieces),
        None => false,
    }
}

/// Whether a tree is a name of an object whose value changes.
fn moves_itself(interfaces: &Interfaces<'_>, tree: &Opened<'_, Resolved>) -> bool {
    match tree.form.form {
        Form::Name => is_read(interfaces, &tree.parts),
        _ => false,
    }
}

/// Whether some trees, or trees in them, name an object whose value changes. It looks no further than the first one, so that indexes in indexes in
/// indexes are looked at once.
pub(crate) fn name_moving(
    alloc: Global,
    interfaces: &Interfaces<'_>,
    trees: &Cursor<'_, Resolved>,
) -> Result<bool, AllocError> {
    let mut round: Vec<Cursor<'_, Resolved>> = Vec::new(alloc);
    round.push(trees.fork())?;
    // No text has so many nodes.
    for _ in 0..u64::MAX {
        let Some(last) = round.pop() else {
            break;
        };
        if let Some(tree) = last.open() {
            if moves_itself(interfaces, &tree) {
                return Ok(true);
            }
            round.push(tree.next)?;
            round.push(tree.parts)?;
        }
    }
    Ok(false)
}
