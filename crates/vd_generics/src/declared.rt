//! All declarations of a design that is being expanded.

use indexmap::IndexMap;
use std::alloc::{AllocError, Global};
use vd_declarations::{Class, DeclId, Declaration, TypeId};

/// The declarations of a design, those that are made behind them, and the operators that every type brings with it.
#[derive(Drop)]
pub(crate) struct Declared<'a> {
    given: &'a [Declaration],
    pub(crate) made: Vec<Declaration>,
    /// By the number of a type: its own "=", and its own "/=".
    equal: IndexMap<u32, u32>,
    unequal: IndexMap<u32, u32>,
}

/// The number of the declaration behind so many others.
fn number_behind(count: usize) -> Result<u32, AllocError> {
    match u32::try_from(count) {
        Ok(number) => Ok(number),
        Err(_) => Err(AllocError),
    }
}

/// The type of the first of some operands.
fn first_mark(declarations: &[Declaration], operands: &[DeclId]) -> Option<TypeId> {
    let first = operands.first()?;
    let operand = declarations.get(first.number() as usize)?;
    operand.mark
}

/// Puts down the operator of a type, unless it has one.
fn note(table: &mut IndexMap<u32, u32>, mark: TypeId, operator: u32) -> Result<(), AllocError> {
    if table.get(&mark.number()).is_none() {
        table.insert(mark.number(), operator)?;
    }
    Ok(())
}

impl<'a> Declared<'a> {
    /// The declarations of a design.
    pub(crate) fn of(alloc: Global, given: &'a [Declaration]) -> Result<Declared<'a>, AllocError> {
        let mut declared = Declared {
            given,
            made: Vec::new(alloc),
            equal: IndexMap::new(alloc),
            unequal: IndexMap::new(alloc),
        };
        declared.note_operators()?;
        Ok(declared)
    }

    /// Puts down the operators of all types.
    fn note_operators(&mut self) -> Result<(), AllocError> {
        let mut number = 0;
        for declaration in self.given {
            if declaration.class.is_predefined() {
                self.note_operator(declaration, number)?;
            }
            number = number_behind(number as usize + 1)?;
        }
        Ok(())
    }

    /// Puts down an operator, where it is one that even a type that is a generic has.
    fn note_operator(&mut self, operator: &Declaration, number: u32) -> Result<(), AllocError> {
        let Some(mark) = first_mark(self.given, operator.parameters.as_slice()) else {
            return Ok(());
        };
        match operator.name.as_slice() {
            b"\"=\"" => note(&mut self.equal, mark, number),
            b"\"/=\"" => note(&mut self.unequal, mark, number),
            _ => Ok(()),
        }
    }

    /// A declaration.
    pub(crate) fn get(&self, number: u32) -> Option<&Declaration> {
        let place = number as usize;
        match self.given.get(place) {
            Some(declaration) => Some(declaration),
            None => self.made.get(place.saturating_sub(self.given.len())),
        }
    }

    /// The class of a declaration. Where there is none, it is that of a label.
    pub(crate) fn class_of(&self, number: u32) -> Class {
        match self.get(number) {
            Some(declaration) => declaration.class,
            None => Class::Label,
        }
    }

    /// The type of a declaration.
    pub(crate) fn mark_of(&self, number: u32) -> Option<TypeId> {
        match self.get(number) {
            Some(declaration) => declaration.mark,
            None => None,
        }
    }

    /// The name of a declaration.
    pub(crate) fn name_of(&self, number: u32) -> &[u8] {
        match self.get(number) {
            Some(declaration) => declaration.name.as_slice(),
            None => &[],
        }
    }

    /// The parameters of a declaration.
    pub(crate) fn parameters_of(&self, number: u32) -> &[DeclId] {
        match self.get(number) {
            Some(declaration) => declaration.parameters.as_slice(),
            None => &[],
        }
    }

    /// The generics of a declaration.
    pub(crate) fn generics_of(&self, number: u32) -> &[DeclId] {
        match self.get(number) {
            Some(declaration) => declaration.generics.as_slice(),
            None => &[],
        }
    }

    /// The operator of a type that has the symbol of this one.
    pub(crate) fn operator_like(&self, operator: u32, mark: TypeId) -> Option<u32> {
        match self.name_of(operator) {
            b"\"=\"" => self.equal.get(&mark.number()).copied(),
            b"\"/=\"" => self.unequal.get(&mark.number()).copied(),
            _ => None,
        }
    }

    /// The number behind all declarations and so many more.
    pub(crate) fn next_number(&self, more: usize) -> Result<u32, AllocError> {
        let count = self.given.len().saturating_add(self.made.len());
        number_behind(count.saturating_add(more))
    }

    /// Puts a declaration behind all others.
    pub(crate) fn push(&mut self, declaration: Declaration) -> Result<(), AllocError> {
        self.made.push(declaration)?;
        Ok(())
    }

    /// Whether a number is that of a package or function with generics.
    pub(crate) fn is_template(&self, number: Option<u32>) -> bool {
        match number {
            Some(number) => matches!(
                self.class_of(number),
                Class::UninstantiatedPackage | Class::UninstantiatedFunction
            ),
            None => false,
        }
    }
}
