//! Declarations and what they are in the text that is written.

use crate::writer::Writer;
use vd_declarations::{Class, DeclId, TypeId};

/// Whether declarations of a class are libraries or units, in front of what they declare.
pub(crate) fn is_unit(class: Class) -> bool {
    matches!(
        class,
        Class::Library
            | Class::LibraryName { .. }
            | Class::Entity
            | Class::Architecture
            | Class::Package
            | Class::UninstantiatedPackage
            | Class::PackageInstance
    )
}

/// Whether two lists of operands have as many.
fn are_as_many(one: &[DeclId], other: &[DeclId]) -> bool {
    one.len() == other.len()
}

impl<'a> Writer<'a> {
    /// What kind of declaration it is. That of a number that isn't given out is a label.
    pub(crate) fn class_of(&self, number: u32) -> Class {
        match self.declaration(number) {
            Some(declaration) => declaration.class,
            None => Class::Label,
        }
    }

    /// The other declaration of a number, where it is written so far.
    pub(crate) fn linked(&self, number: u32) -> Option<DeclId> {
        match self.link.get(number as usize) {
            Some(other) => *other,
            None => None,
        }
    }

    /// The declaration of a number is written as another.
    pub(crate) fn put_link(&mut self, number: u32, other: DeclId) {
        let place = number as usize;
        if place < self.link.len() {
            self.link[place] = Some(other);
        }
    }

    /// The type that another declaration means as a mark.
    fn type_of_mark(&self, other: DeclId) -> Option<TypeId> {
        match self.names.class_of(other) {
            Class::Subtype { .. } => self.names.mark_of(other),
            _ => Some(TypeId::of(other.number())),
        }
    }

    /// The other type that a type or subtype of this number means.
    pub(crate) fn type_meant(&self, number: u32) -> Option<TypeId> {
        let other = self.linked(number)?;
        self.type_of_mark(other)
    }

    /// The other type of a type.
    pub(crate) fn linked_type(&self, mark: Option<TypeId>) -> Option<TypeId> {
        let mark = mark?;
        self.type_meant(mark.number())
    }

    /// The other type of a declaration: by the mark that it was given with, where it was.
    pub(crate) fn type_of(&self, number: u32) -> Option<TypeId> {
        if let Some(mark) = self.tables.mark(number) {
            return self.type_meant(mark);
        }
        let declaration = self.declaration(number)?;
        self.linked_type(declaration.mark)
    }

    /// Whether operands have these types, one by one.
    fn have_types(&self, operands: &[DeclId], others: &[DeclId]) -> bool {
        let mut left = operands.len().min(others.len());
        while left > 0 {
            left -= 1;
            let own = self.type_of(operands[left].number());
            if own.is_none() || own != self.names.mark_of(others[left]) {
                return false;
            }
        }
        true
    }

    /// Whether another function has the operands and the result of one that is given, or that a type brought with it.
    pub(crate) fn is_alike(&self, number: u32, other: DeclId) -> bool {
        let Some(declaration) = self.declaration(number) else {
            return false;
        };
        let operands = declaration.parameters.as_slice();
        let others = self.names.parameters_of(other);
        are_as_many(operands, others)
            && self.have_types(operands, others)
            && self.linked_type(declaration.mark) == self.names.mark_of(other)
    }

    /// Whether one of some other functions is alike.
    pub(crate) fn is_among(&self, number: u32, others: &[DeclId]) -> bool {
        for other in others {
            if self.is_alike(number, *other) {
                return true;
            }
        }
        false
    }
}
