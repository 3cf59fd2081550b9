//! What kinds of declarations copies are, and their types.

ghost use Rattle.std.specs.Prelude.{◌≡◌, IfOk};
ghost use Rattle.std.specs.Option.{unwrap_or};
ghost use Rattle.vd_naming.specs.Actuals.{actual_of, type_in};
ghost use Rattle.vd_naming.specs.Copies.{number_of_copy, type_of_copy, function_of_copy, class_of_generic, class_of_other, class_of_copy, made_of_copy};
ghost use Rattle.vd_name_instances.specs.Sources.{seen_copying};

use crate::copying::Copying;
use std::alloc::AllocError;
use vd_declarations::{Class, DeclId, Made, TypeId};
use vd_name_actuals::Known;

impl<'a> Copying<'a> {
    /// The actual of a generic, or the generic itself where it has none.
    fn actual_or_own(&self, id: DeclId) -> DeclId
        ensures { result ≡ unwrap_or (actual_of id (seen_copying self.now).actuals) id }
    {
        match self.generics.actual_of(id) {
            Some(actual) => actual,
            None => id,
        }
    }

    /// A type in the instance, where a generic type is the type of its actual.
    pub(crate) fn type_in(&self, mark: TypeId) -> Option<TypeId>
        ensures { result ≡ type_in (seen_copying self.now).known mark }
    {
        let known = Known {
            names: self.names,
            place: &self.place,
            stand_ins: &self.generics,
        };
        known.type_in(mark)
    }

    /// The number of the copy of a declaration. That of what isn't copied is its own.
    pub fn number_of_copy(&self, id: DeclId) -> Result<DeclId, AllocError>
        ensures { IfOk result (λ copy. copy ≡ number_of_copy (seen_copying self.now) id) }
    {
        self.offsets.number_of_copy(id)
    }

    /// The type of a generic type's actual, or else the generic itself.
    fn type_of_generic(&self, mark: TypeId) -> TypeId
        ensures { result ≡ unwrap_or (type_in (seen_copying self.now).known mark) mark }
    {
        match self.type_in(mark) {
            Some(own) => own,
            None => mark,
        }
    }

    /// The copy of a type, or the type that stands for it.
    pub fn type_of_copy(&self, mark: TypeId) -> Result<TypeId, AllocError>
        ensures { IfOk result (λ copy. copy ≡ type_of_copy (seen_copying self.now) mark) }
    {
        if self.is_own_generic(DeclId::of(mark.number())) {
            return Ok(self.type_of_generic(mark));
        }
        let copy = self.number_of_copy(DeclId::of(mark.number()))?;
        Ok(TypeId::of(copy.number()))
    }

    /// The copy of a function, or the function that stands for it.
    pub fn function_of_copy(&self, id: DeclId) -> Result<DeclId, AllocError>
        ensures { IfOk result (λ copy. copy ≡ function_of_copy (seen_copying self.now) id) }
    {
        if self.is_own_generic(id) {
            return Ok(self.actual_or_own(id));
        }
        let copy = self.number_of_copy(id)?;
        Ok(copy)
    }

    /// What a generic is in the instance: it stands for its actual.
    fn class_of_generic(&self, id: DeclId, original: &Class) -> Class
        ensures { result ≡ class_of_generic (seen_copying self.now) id original.now }
    {
        match *original {
            Class::GenericType => Class::Subtype {
                mark: self.actual_or_own(id),
            },
            Class::GenericFunction => Class::ActualFunction {
                actual: self.actual_or_own(id),
            },
            other => other,
        }
    }

    /// The copy of an array type.
    fn array_of_copy(
        &self,
        index: TypeId,
        element: TypeId,
        element_mark: DeclId,
    ) -> Result<Class, AllocError>
        ensures { IfOk result (λ copy. copy ≡ class_of_other (seen_copying self.now) (Class.ArrayType index element element_mark)) }
    {
        let index = self.type_of_copy(index)?;
        let element = self.type_of_copy(element)?;
        let element_mark = self.number_of_copy(element_mark)?;
        Ok(Class::ArrayType {
            index,
            element,
            element_mark,
        })
    }

    /// What another declaration is in the instance.
    fn class_of_other(&self, original: &Class) -> Result<Class, AllocError>
        ensures { IfOk result (λ copy. copy ≡ class_of_other (seen_copying self.now) original.now) }
    {
        match *original {
            Class::Function => Ok(Class::InstanceFunction),
            Class::ArrayType {
                index,
                element,
                element_mark,
            } => self.array_of_copy(index, element, element_mark),
            Class::Subtype { mark } => {
                let mark = self.number_of_copy(mark)?;
                Ok(Class::Subtype { mark })
            }
            Class::ActualFunction { actual } => {
                let actual = self.function_of_copy(actual)?;
                Ok(Class::ActualFunction { actual })
            }
            other => Ok(other),
        }
    }

    /// What a declaration is in the instance.
    pub fn class_of_copy(&self, id: DeclId, original: &Class) -> Result<Class, AllocError>
        ensures { IfOk result (λ copy. copy ≡ class_of_copy (seen_copying self.now) id original.now) }
    {
        if self.is_own_generic(id) {
            return Ok(self.class_of_generic(id, original));
        }
        let copy = self.class_of_other(original)?;
        Ok(copy)
    }

    /// How a copy came into the design.
    pub fn made_of_copy(&self, id: DeclId, original: &Made) -> Made
        ensures { result ≡ made_of_copy (seen_copying self.now) id original.now }
    {
        if self.is_own_generic(id) {
            return Made::Generic;
        }
        *original
    }
}
