//! What types are made of, and which are converted to one another.

ghost use Rattle.std.specs.Prelude.{◌≡◌, ◌<◌, ◌==◌, ℕ, Some, None, IfOk, OnOk, slice_index};
ghost use Rattle.std.specs.List.{list_all};
ghost use Rattle.vd_visible.specs.Sights.{sight_from, class_of};
ghost use Rattle.vd_visible.specs.Types.{is_some_type, is_discrete as discrete, is_scalar as scalar, index_of as index, element_of as element, type_named, type_meant, is_literal_of, has_character, followed, marks_agree, is_converted, sources};

use crate::surroundings::Surroundings;
use std::alloc::{AllocError, Global};
use vd_declarations::{Class, DeclId, TypeId};
use vd_predefined::numbers::{STD_LOGIC_VECTOR, STD_ULOGIC_VECTOR};
use vd_trees::Revision;

/// Whether there is a type and it is this one.
pub fn is_type(wanted: TypeId, found: Option<TypeId>) -> bool
    ensures { result ≡ is_some_type wanted found }
{
    match found {
        None => false,
        Some(found) => wanted == found,
    }
}

/// Whether a type of the class is discrete.
pub fn is_discrete(class: Class) -> bool
    ensures { result ≡ discrete class }
{
    matches!(class, Class::EnumerationType | Class::IntegerType)
}

/// Whether a type of the class is a scalar one.
pub fn is_scalar(class: Class) -> bool
    ensures { result ≡ scalar class }
{
    matches!(
        class,
        Class::EnumerationType | Class::IntegerType | Class::PhysicalType
    )
}

/// The type of the indexes of an array type.
pub fn index_of(class: Class) -> Option<TypeId>
    ensures { result ≡ index class }
{
    match class {
        Class::ArrayType { index, .. } => Some(index),
        _ => None,
    }
}

/// The type of the elements of an array type.
pub fn element_of(class: Class) -> Option<TypeId>
    ensures { result ≡ element class }
{
    match class {
        Class::ArrayType { element, .. } => Some(element),
        _ => None,
    }
}

/// The declaration of a type.
pub fn declaration_of(mark: TypeId) -> DeclId
    ensures { result ≡ mark }
{
    DeclId::of(mark.number())
}

impl<'a> Surroundings<'a> {
    /// The class of a type.
    pub fn class_of_type(&self, mark: TypeId) -> Class
        ensures { result ≡ class_of (sight_from self.now) mark }
    {
        self.class_of(declaration_of(mark))
    }

    /// The type that a mark means.
    pub fn type_meant(&self, id: DeclId) -> Option<TypeId>
        ensures { result ≡ type_meant (sight_from self.now) id }
    {
        let class = self.class_of(id);
        if let Class::Subtype { .. } = class {
            return self.mark_of(id);
        }
        if class.is_type() {
            Some(TypeId::of(id.number()))
        } else {
            None
        }
    }

    /// Whether it is a literal of the enumeration type.
    pub fn is_literal_of(&self, mark: TypeId, id: DeclId) -> bool
        ensures { result ≡ is_literal_of (sight_from self.now) mark id }
    {
        match self.class_of(id) {
            Class::EnumerationLiteral => is_type(mark, self.mark_of(id)),
            _ => false,
        }
    }

    /// The mark of elements, followed through subtypes.
    #[tactic(auto, using(crate::proofs::TypeLemmas::followed_step))]
    fn followed(&self, mark: DeclId) -> u32
        ensures { result ≡ followed (sight_from self.now) mark }
    {
        let mut at = mark.number();
        let mut left = at as u64 + 1;
        while left > 0 {
            if at == STD_LOGIC_VECTOR {
                return at;
            }
            let Class::Subtype { mark: next } = self.class_of(DeclId::of(at)) else {
                return at;
            };
            at = next.number();
            left -= 1;
        }
        at
    }

    /// Whether arrays of elements of this type and with these marks for them are alike.
    fn marks_agree(&self, element: TypeId, one: DeclId, other: DeclId) -> bool
        ensures { result ≡ marks_agree (sight_from self.now) element one other }
    {
        if self.revision() == Revision::V1993 || element.number() != STD_ULOGIC_VECTOR {
            return true;
        }
        self.followed(one) == self.followed(other)
    }

    /// Whether an array type is converted to an array type.
    fn is_converted(&self, from: TypeId, to: TypeId) -> bool
        ensures { result ≡ is_converted (sight_from self.now) (class_of (sight_from self.now) from) (class_of (sight_from self.now) to) }
    {
        let Class::ArrayType {
            index: from_index,
            element: from_element,
            element_mark: from_mark,
        } = self.class_of_type(from)
        else {
            return false;
        };
        let Class::ArrayType {
            index,
            element,
            element_mark,
        } = self.class_of_type(to)
        else {
            return false;
        };
        from_index == index
            && from_element == element
            && self.marks_agree(from_element, from_mark, element_mark)
    }

    /// The types from which a conversion to a type is legal.
    pub fn sources(&self, alloc: Global, mark: TypeId) -> Result<Vec<TypeId>, AllocError>
        ensures { IfOk result (λ found. found.items ≡ sources (sight_from self.now) mark) }
    {
        let class = self.class_of_type(mark);
        let mut found = Vec::new(alloc);
        if element_of(class).is_none() {
            found.push(mark)?;
            return Ok(found);
        }
        for from in self.types() {
            if self.is_converted(*from, mark) {
                found.push(*from)?;
            }
        }
        Ok(found)
    }
}
