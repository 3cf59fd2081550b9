//! Nodes and declarations of a copy.

use crate::declared::Declared;
use crate::renaming::Renaming;
use std::alloc::{AllocError, Global};
use vd_declarations::{Class, DeclId, Declaration, Declarations, TypeId};
use vd_noting::copied;
use vd_resolved::Resolved;

/// What the numbers of a text mean in an instance.
#[derive(Clone, Copy, Drop)]
pub(crate) struct Under<'d, 'a, 'r> {
    pub(crate) declared: &'d Declared<'a>,
    pub(crate) renaming: &'r Renaming,
}

impl<'d, 'a, 'r> Under<'d, 'a, 'r> {
    /// The declaration that stands for one, or else itself.
    pub(crate) fn number(&self, number: u32) -> u32 {
        match self.renaming.get(number) {
            Some(other) => other,
            None => number,
        }
    }

    /// The same for its handle.
    fn id(&self, id: DeclId) -> DeclId {
        DeclId::of(self.number(id.number()))
    }

    /// The type that stands for one. A type that is a generic is the type of its actual.
    pub(crate) fn mark(&self, mark: TypeId) -> TypeId {
        let number = self.number(mark.number());
        match self.declared.class_of(number) {
            Class::Subtype { .. } => match self.declared.mark_of(number) {
                Some(actual) => actual,
                None => TypeId::of(number),
            },
            _ => TypeId::of(number),
        }
    }

    /// The operator that stands for one for which nothing else is known to stand: where its operands are of a generic type, that of the actual.
    fn operator(&self, operator: u32) -> Option<u32> {
        let first = self.declared.parameters_of(operator).first()?;
        let operand = self.declared.mark_of(first.number())?;
        let mark = self.mark(operand);
        if mark.number() == operand.number() {
            return None;
        }
        self.declared.operator_like(operator, mark)
    }

    /// What stands for a declaration, where an operator of a generic type is that of the actual.
    fn standing(&self, number: u32) -> u32 {
        if let Some(other) = self.renaming.get(number) {
            return other;
        }
        if !self.declared.class_of(number).is_predefined() {
            return number;
        }
        match self.operator(number) {
            Some(operator) => operator,
            None => number,
        }
    }

    /// What a name means in the instance: a function that is a generic is its actual.
    pub(crate) fn meant(&self, id: DeclId) -> DeclId {
        let number = self.standing(id.number());
        match self.declared.class_of(number) {
            Class::ActualFunction { actual } => actual,
            _ => DeclId::of(number),
        }
    }

    /// A node of the copy.
    pub(crate) fn node(&self, node: &Resolved) -> Resolved {
        let declaration = match node.declaration {
            Some(id) => Some(self.meant(id)),
            None => None,
        };
        Resolved {
            form: node.form,
            declaration,
            mark: self.some_mark(node.mark),
            position: node.position,
        }
    }

    /// The type that stands for one, where there is one.
    fn some_mark(&self, mark: Option<TypeId>) -> Option<TypeId> {
        match mark {
            Some(mark) => Some(self.mark(mark)),
            None => None,
        }
    }

    /// The declarations that stand for some.
    fn numbers(&self, alloc: Global, ids: &[DeclId]) -> Result<Declarations, AllocError> {
        let mut numbers = Vec::new(alloc);
        for id in ids {
            numbers.push(self.id(*id))?;
        }
        Ok(Declarations::of(numbers))
    }

    /// The class of a declaration of the copy.
    fn class(&self, class: Class) -> Class {
        match class {
            Class::ArrayType {
                index,
                element,
                element_mark,
            } => Class::ArrayType {
                index: self.mark(index),
                element: self.mark(element),
                element_mark: self.id(element_mark),
            },
            Class::Subtype { mark } => Class::Subtype {
                mark: self.id(mark),
            },
            Class::ActualFunction { actual } => Class::ActualFunction {
                actual: self.meant(actual),
            },
            other => other,
        }
    }

    /// A declaration of the copy.
    pub(crate) fn declaration(
        &self,
        alloc: Global,
        original: &Declaration,
    ) -> Result<Declaration, AllocError> {
        let mut copy = copied(alloc, original)?;
        copy.class = self.class(original.class);
        copy.mark = self.some_mark(original.mark);
        copy.parameters = self.numbers(alloc, original.parameters.as_slice())?;
        copy.generics = self.numbers(alloc, original.generics.as_slice())?;
        Ok(copy)
    }
}
