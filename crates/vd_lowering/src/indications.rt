//! The subtype indications of ports, found once.

use std::alloc::{AllocError, Global};
use vd_declarations::{Class, Declaration};
use vd_forest::{Cursor, Opened};
use vd_forms::Form;
use vd_notes::Noted;
use vd_operations::tables::class_of;

/// The subtype indications of the ports of a design, by the number of the port.
#[derive(Drop)]
pub(crate) struct Indications<'a> {
    table: Vec<Option<Cursor<'a, Noted>>>,
}

impl<'a> Indications<'a> {
    /// No port is known yet, of so many declarations.
    fn new(alloc: Global, count: usize) -> Result<Indications<'a>, AllocError> {
        let mut table: Vec<Option<Cursor<'a, Noted>>> = Vec::with_capacity(alloc, count)?;
        for _ in 0..count {
            table.push(None)?;
        }
        Ok(Indications { table })
    }

    /// Ports with these names have this subtype.
    fn add(&mut self, names: &Cursor<'a, Noted>, indication: &Cursor<'a, Noted>) {
        let mut left = names.fork();
        while let Some(name) = left.open() {
            if let Some(number) = name.form.node.declaration {
                let at = number.number() as usize;
                if at < self.table.len() {
                    self.table[at] = Some(indication.fork());
                }
            }
            left = name.next;
        }
    }

    /// The subtype of the ports that a declaration with these parts declares.
    fn find(&mut self, parts: &Cursor<'a, Noted>) {
        self.add(&parts.skip(1).parts(), &parts.skip(3));
    }

    /// The subtype indications of the ports of these units.
    pub(crate) fn of(
        alloc: Global,
        count: usize,
        units: &Cursor<'a, Noted>,
    ) -> Result<Indications<'a>, AllocError> {
        let mut found = Indications::new(alloc, count)?;
        let (store, nodes) = units.stands();
        for older in 0..nodes {
            let head = store.node(older + 1);
            if matches!(head.form.node.form, Form::PortDeclaration) {
                found.find(&store.cursor(head.parts));
            }
        }
        Ok(found)
    }

    /// The tree of the subtype indication of a port.
    pub(crate) fn opened(&self, port: u32) -> Option<Opened<'a, Noted>> {
        match self.table.get(port as usize) {
            Some(Some(indication)) => indication.open(),
            _ => None,
        }
    }

    /// The subtype indication of a port.
    pub(crate) fn indication(&self, port: u32) -> Option<Cursor<'a, Noted>> {
        match self.table.get(port as usize) {
            Some(Some(indication)) => Some(indication.fork()),
            _ => None,
        }
    }
}

/// Whether a tree names a generic.
fn names_generic_itself(declarations: &[Declaration], tree: &Opened<'_, Noted>) -> bool {
    match tree.form.node.declaration {
        Some(number) => matches!(
            class_of(declarations, number.number()),
            Class::GenericConstant
        ),
        None => false,
    }
}

/// Whether one of some trees, or a tree in one, names a generic.
pub(crate) fn name_generics(
    alloc: Global,
    declarations: &[Declaration],
    trees: &Cursor<'_, Noted>,
) -> Result<bool, AllocError> {
    let mut round: Vec<Cursor<'_, Noted>> = Vec::new(alloc);
    round.push(trees.fork())?;
    // No text has so many nodes.
    for _ in 0..u64::MAX {
        let Some(last) = round.pop() else {
            break;
        };
        if let Some(tree) = last.open() {
            if names_generic_itself(declarations, &tree) {
                return Ok(true);
            }
            round.push(tree.next)?;
            round.push(tree.parts)?;
        }
    }
    Ok(false)
}
