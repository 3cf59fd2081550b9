//! The declarations of signals that stand for the actuals of ports.

use std::alloc::{AllocError, Global};
use vd_bytes::Text;
use vd_declarations::{Class, DeclId, Declaration, Declarations, Made};
use vd_forest::{Cursor, Opened};
use vd_forms::Form;
use vd_resolved::Resolved;

/// What the first of some trees means.
fn first_meant(trees: &Cursor<'_, Resolved>) -> Option<DeclId> {
    match trees.form() {
        Some(form) => form.declaration,
        None => None,
    }
}

/// The port of an element of a map by name.
pub(crate) fn formal_of(element: &Opened<'_, Resolved>) -> Option<DeclId> {
    match element.form.form {
        Form::Association => first_meant(&element.parts.parts()),
        _ => None,
    }
}

/// The names of an instance and of a port, with a sign between them.
fn joined(alloc: Global, label: &[u8], sign: u8, port: &[u8]) -> Result<Text, AllocError> {
    let mut text = Vec::new(alloc);
    text.extend_from_slice(label)?;
    text.push(sign)?;
    text.extend_from_slice(port)?;
    Text::from_slice(alloc, text.as_slice())
}

/// The signal for the actual of a port of an instance, `label'port`, which is to be named `label_port`. It has the type of the port.
pub(crate) fn implicit_signal(
    alloc: Global,
    declarations: &[Declaration],
    label: u32,
    port: DeclId,
) -> Result<Option<Declaration>, AllocError> {
    let Some(instance) = declarations.get(label as usize) else {
        return Ok(None);
    };
    let Some(formal) = declarations.get(port.number() as usize) else {
        return Ok(None);
    };
    let label = instance.name.as_slice();
    let port = formal.name.as_slice();
    Ok(Some(Declaration {
        class: Class::Signal,
        name: joined(alloc, label, b'\'', port)?,
        mark: formal.mark,
        parameters: Declarations::of(Vec::new(alloc)),
        generics: Declarations::of(Vec::new(alloc)),
        inside: None,
        place: instance.place,
        made: Made::Implicit,
        wanted: joined(alloc, label, b'_', port)?,
    }))
}
