//! Copies of declarations.

ghost use Rattle.std.specs.Prelude.{◌≡◌, None, IfOk, option_map, if◌then◌else◌};
ghost use Rattle.vd_naming.specs.Actuals.{type_in};
ghost use Rattle.vd_naming.specs.Copies.{region_of_copy, numbers_of_copies, type_of_copy, mark_of_copy, declaration_of_copy, is_own_generic};
ghost use Rattle.vd_name_instances.specs.Sources.{seen_copying};

use crate::copying::Copying;
use std::alloc::{AllocError, Global};
use vd_bytes::Text;
use vd_declarations::{Class, DeclId, Declaration, Declarations, RegionId, TypeId};

impl<'a> Copying<'a> {
    /// The copies of some declarations.
    pub fn numbers_of_copies(
        &self,
        alloc: Global,
        ids: &[DeclId],
    ) -> Result<Declarations, AllocError>
        ensures { IfOk result (λ copies. copies ≡ numbers_of_copies (seen_copying self.now) ids.now) }
    {
        let mut copies = Vec::new(alloc);
        for id in ids {
            copies.push(self.number_of_copy(*id)?)?;
        }
        Ok(Declarations::of(copies))
    }

    /// The copy of a region inside a declaration.
    pub(crate) fn region_inside_copy(
        &self,
        inside: Option<RegionId>,
    ) -> Result<Option<RegionId>, AllocError>
        ensures { IfOk result (λ copy. copy ≡ option_map (region_of_copy (seen_copying self.now)) inside) }
    {
        match inside {
            None => Ok(None),
            Some(region) => {
                let copy = self.offsets.region_of_copy(region)?;
                Ok(Some(copy))
            }
        }
    }

    /// The copy of the type of a declaration.
    pub(crate) fn copy_of_mark(&self, mark: Option<TypeId>) -> Result<Option<TypeId>, AllocError>
        ensures { IfOk result (λ copy. copy ≡ option_map (type_of_copy (seen_copying self.now)) mark) }
    {
        match mark {
            None => Ok(None),
            Some(mark) => {
                let copy = self.type_of_copy(mark)?;
                Ok(Some(copy))
            }
        }
    }

    /// The type of what stands for a generic type.
    fn mark_of_generic(&self, id: DeclId) -> Option<TypeId>
        ensures { result ≡ (if is_own_generic (seen_copying self.now) id then type_in (seen_copying self.now).known id else None) }
    {
        if self.is_own_generic(id) {
            self.type_in(TypeId::of(id.number()))
        } else {
            None
        }
    }

    /// The type of a copy.
    pub fn mark_of_copy(
        &self,
        id: DeclId,
        original: &Declaration,
    ) -> Result<Option<TypeId>, AllocError>
        ensures { IfOk result (λ copy. copy ≡ mark_of_copy (seen_copying self.now) id original.now) }
    {
        match original.class {
            Class::GenericType => Ok(self.mark_of_generic(id)),
            _ => self.copy_of_mark(original.mark),
        }
    }

    /// The copy of a declaration.
    pub fn declaration_of_copy(
        &self,
        alloc: Global,
        id: DeclId,
        original: &Declaration,
    ) -> Result<Declaration, AllocError>
        ensures { IfOk result (λ copy. copy ≡ declaration_of_copy (seen_copying self.now) id original.now) }
    {
        let class = self.class_of_copy(id, &original.class)?;
        let name = Text::from_slice(alloc, original.name.as_slice())?;
        let mark = self.mark_of_copy(id, original)?;
        let parameters = self.numbers_of_copies(alloc, original.parameters.as_slice())?;
        let generics = self.numbers_of_copies(alloc, original.generics.as_slice())?;
        let inside = self.region_inside_copy(original.inside)?;
        let wanted = Text::from_slice(alloc, original.wanted.as_slice())?;
        Ok(Declaration {
            class,
            name,
            mark,
            parameters,
            generics,
            inside,
            place: original.place,
            made: self.made_of_copy(id, &original.made),
            wanted,
        })
    }
}
