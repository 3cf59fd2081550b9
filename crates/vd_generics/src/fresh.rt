//! New declarations for what bodies declare.

use crate::declared::Declared;
use crate::renaming::Renaming;
use crate::under::Under;
use std::alloc::{AllocError, Global};
use vd_declarations::{Class, Declaration};
use vd_forest::Cursor;
use vd_notes::made_in;
use vd_resolved::Resolved;

/// What gets a new declaration, in the order of their numbers.
#[derive(Drop)]
struct Fresh<'d, 'a> {
    declared: &'d Declared<'a>,
    originals: Vec<u32>,
}

impl<'d, 'a> Fresh<'d, 'a> {
    /// A new declaration for one, where nothing stands for it yet. The answer says whether that was so.
    fn add(&mut self, renaming: &mut Renaming, number: u32) -> Result<bool, AllocError> {
        if renaming.get(number).is_some() || self.declared.get(number).is_none() {
            return Ok(false);
        }
        let next = self.declared.next_number(self.originals.len())?;
        renaming.put(number, next)?;
        self.originals.push(number)?;
        Ok(true)
    }

    /// The same for an operator and its operands.
    fn add_operator(&mut self, renaming: &mut Renaming, operator: u32) -> Result<(), AllocError> {
        self.add(renaming, operator)?;
        let declared = self.declared;
        for operand in declared.parameters_of(operator) {
            self.add(renaming, operand.number())?;
        }
        Ok(())
    }

    /// The same for what stands behind a type, where it is one of the operators that the type brings with it. The answer says whether more of them may
    /// follow.
    fn add_behind(&mut self, renaming: &mut Renaming, number: u32) -> Result<bool, AllocError> {
        match self.declared.class_of(number) {
            Class::PredefinedOperator => {
                self.add_operator(renaming, number)?;
                Ok(true)
            }
            Class::EnumerationLiteral | Class::RecordElement | Class::Parameter => Ok(true),
            _ => Ok(false),
        }
    }

    /// The same for the operators that a type brings with it. They stand behind it, and nothing but literals, fields and operands stands between.
    fn add_operators(&mut self, renaming: &mut Renaming, mark: u32) -> Result<(), AllocError> {
        let mut number = mark;
        for _ in 0..u64::MAX {
            number = number.saturating_add(1);
            if !self.add_behind(renaming, number)? {
                break;
            }
        }
        Ok(())
    }

    /// The same for what a text makes.
    fn add_made(&mut self, renaming: &mut Renaming, number: u32) -> Result<(), AllocError> {
        let is_new = self.add(renaming, number)?;
        if is_new && self.declared.class_of(number).is_type() {
            self.add_operators(renaming, number)?;
        }
        Ok(())
    }

    /// The same for all that a text makes.
    fn add_all(&mut self, renaming: &mut Renaming, made: &[u32]) -> Result<(), AllocError> {
        for number in made {
            self.add_made(renaming, *number)?;
        }
        Ok(())
    }
}

/// The copy of a declaration.
fn copy_of(
    alloc: Global,
    declared: &Declared<'_>,
    renaming: &Renaming,
    original: u32,
) -> Result<Declaration, AllocError> {
    let under = Under { declared, renaming };
    match declared.get(original) {
        Some(declaration) => under.declaration(alloc, declaration),
        None => Err(AllocError),
    }
}

/// Declares the copies of some declarations behind all others.
fn declare_all(
    alloc: Global,
    declared: &mut Declared<'_>,
    renaming: &Renaming,
    originals: &[u32],
) -> Result<(), AllocError> {
    for original in originals {
        let copy = copy_of(alloc, declared, renaming, *original)?;
        declared.push(copy)?;
    }
    Ok(())
}

/// What gets a new declaration of that which a text makes.
fn originals_of(
    alloc: Global,
    declared: &Declared<'_>,
    renaming: &mut Renaming,
    text: &Cursor<'_, Resolved>,
) -> Result<Vec<u32>, AllocError> {
    let made = made_in(alloc, text)?;
    let mut fresh = Fresh {
        declared,
        originals: Vec::new(alloc),
    };
    fresh.add_all(renaming, made.as_slice())?;
    Ok(fresh.originals)
}

/// Declares anew what a text makes and for which nothing stands yet. Where it makes a type, the operators that the type brings with it come too.
pub(crate) fn freshen(
    alloc: Global,
    declared: &mut Declared<'_>,
    renaming: &mut Renaming,
    text: &Cursor<'_, Resolved>,
) -> Result<(), AllocError> {
    let originals = originals_of(alloc, declared, renaming, text)?;
    declare_all(alloc, declared, renaming, originals.as_slice())
}
