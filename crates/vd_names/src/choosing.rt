//! The name that each declaration has in the text that is written.

use crate::chosen::Chosen;
use crate::naming::{Design, Naming, is_given_value, is_support, naming_of, wanted_of};
use crate::taken::Taken;
use std::alloc::{AllocError, Global};
use vd_declarations::Declaration;
use vd_notes::{Entry, Tables, declared_in};
use vd_resolved::Tree;

/// Names as they are given to one declaration after the other.
#[derive(Drop)]
struct Choosing<'a> {
    alloc: Global,
    design: Design<'a>,
    taken: Taken,
    /// By the number of a declaration: its name where it isn't the one with which it is declared, and whether it was come to.
    names: Vec<Option<Vec<u8>>>,
    done: Vec<bool>,
}

/// Takes the names of the literals and functions that are given.
fn take_given(taken: &mut Taken, declarations: &[Declaration]) -> Result<(), AllocError> {
    for declaration in declarations {
        if is_given_value(declaration) {
            taken.give(declaration.name.as_slice())?;
        }
    }
    Ok(())
}

/// Takes the name of a declaration that keeps it.
fn take_kept(taken: &mut Taken, design: &Design<'_>, entry: &Entry) -> Result<(), AllocError> {
    let Some(declaration) = design.declarations.get(entry.number as usize) else {
        return Ok(());
    };
    if is_support(design, entry.home) {
        return Ok(());
    }
    match naming_of(design, declaration, entry.home) {
        Naming::Kept => taken.keep(design, entry.home, declaration.name.as_slice()),
        _ => Ok(()),
    }
}

/// The names that are taken before any is given.
fn taken_first(alloc: Global, design: &Design<'_>, entries: &[Entry]) -> Result<Taken, AllocError> {
    let mut taken = Taken::new(alloc);
    take_given(&mut taken, design.declarations)?;
    for entry in entries {
        take_kept(&mut taken, design, entry)?;
    }
    Ok(taken)
}

/// No names for so many declarations.
fn no_names(alloc: Global, count: usize) -> Result<Vec<Option<Vec<u8>>>, AllocError> {
    let mut names = Vec::new(alloc);
    for _ in 0..count {
        names.push(None)?;
    }
    Ok(names)
}

impl<'a> Choosing<'a> {
    /// Whether a declaration is come to for the first time, which is so only once.
    fn is_first(&mut self, number: u32) -> bool {
        let place = number as usize;
        if place >= self.done.len() || self.done[place] {
            return false;
        }
        self.done[place] = true;
        true
    }

    /// Writes down the name of a declaration, where it isn't the one with which it is declared.
    fn note(&mut self, number: u32, declared: &[u8], name: Vec<u8>) {
        let place = number as usize;
        if place < self.names.len() && name.as_slice() != declared {
            self.names[place] = Some(name);
        }
    }

    /// Gives a declaration its name.
    fn choose_one(&mut self, entry: &Entry) -> Result<(), AllocError> {
        let design = self.design;
        let Some(declaration) = design.declarations.get(entry.number as usize) else {
            return Ok(());
        };
        if is_support(&design, entry.home) || !self.is_first(entry.number) {
            return Ok(());
        }
        let naming = naming_of(&design, declaration, entry.home);
        if matches!(naming, Naming::Kept) {
            return Ok(());
        }
        let wanted = wanted_of(declaration);
        let name = self.taken.name(&design, naming, entry.home, wanted)?;
        self.note(entry.number, declaration.name.as_slice(), name);
        Ok(())
    }
}

/// The names of all declarations of a design, one after the other in the order of the text. A declaration keeps its name where nothing of its unit has it
/// yet, what always keeps its name counting from the start, or, of a function, no other function; and it gets one with a number behind it otherwise.
pub fn choose(alloc: Global, tree: &Tree, tables: &Tables) -> Result<Chosen, AllocError> {
    let entries = declared_in(alloc, &tree.cursor(), None)?;
    let declarations = tree.declarations();
    let design = Design {
        declarations,
        tables,
    };
    let taken = taken_first(alloc, &design, entries.as_slice())?;
    let mut choosing = Choosing {
        alloc,
        design,
        taken,
        names: no_names(alloc, declarations.len())?,
        done: vec![in alloc; false; declarations.len()]?,
    };
    for entry in &entries {
        choosing.choose_one(entry)?;
    }
    Ok(Chosen {
        names: choosing.names,
    })
}
