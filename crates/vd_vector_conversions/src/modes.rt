//! The modes of ports, and whether a text has STD_LOGIC_VECTOR.

use crate::facts::Mode;
use std::alloc::{AllocError, Global};
use vd_declarations::DeclId;
use vd_forest::Cursor;
use vd_forms::Form;
use vd_predefined::numbers::STD_LOGIC_VECTOR;
use vd_resolved::{Resolved, Tree};

/// Whether something is named, and it is STD_LOGIC_VECTOR.
fn is_logic_vector(declaration: &Option<DeclId>) -> bool {
    match declaration {
        Some(id) => id.number() == STD_LOGIC_VECTOR,
        None => false,
    }
}

/// Whether some node of a design names STD_LOGIC_VECTOR. Nothing else has this flavour where none does.
pub fn names_logic_vector(tree: &Tree) -> bool {
    let (store, count) = tree.cursor().stands();
    for older in 0..count {
        let head = store.node(older + 1);
        if is_logic_vector(&head.form.declaration) {
            return true;
        }
    }
    false
}

/// The mode that a form says.
fn mode_of(form: Option<Resolved>) -> Mode {
    match form {
        Some(node) => match node.form {
            Form::Out => Mode::Out,
            Form::InOut => Mode::InOut,
            _ => Mode::In,
        },
        None => Mode::In,
    }
}

/// Notes the mode of the ports of a declaration.
fn note_ports(modes: &mut [Mode], names: &Cursor<'_, Resolved>, mode: Mode) {
    let mut rest = names.fork();
    while let Some(name) = rest.open() {
        if let Some(id) = name.form.declaration {
            let number = id.number() as usize;
            if number < modes.len() {
                modes[number] = mode;
            }
        }
        rest = name.next;
    }
}

/// The modes of all ports, by their numbers.
pub fn modes_of(alloc: Global, tree: &Tree) -> Result<Vec<Mode>, AllocError> {
    let mut modes: Vec<Mode> = vec![in alloc; Mode::In; tree.declarations().len()]?;
    let (store, count) = tree.cursor().stands();
    for older in 0..count {
        let head = store.node(older + 1);
        if head.form.form == Form::PortDeclaration {
            let parts = store.cursor(head.parts);
            let mode = mode_of(parts.skip(2).form());
            note_ports(&mut modes, &parts.skip(1).parts(), mode);
        }
    }
    Ok(modes)
}
