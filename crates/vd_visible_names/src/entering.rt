//! Declarations of the text that is written.

use crate::writer::Writer;
use std::alloc::AllocError;
use vd_bytes::Text;
use vd_declarations::{Class, DeclId, Declaration, Declarations, Made, RegionId, TypeId};

impl<'a> Writer<'a> {
    /// What is written as the declaration of a number: of this class and this other type.
    pub(crate) fn declared(
        &self,
        number: u32,
        class: Class,
        mark: Option<TypeId>,
    ) -> Result<Declaration, AllocError> {
        let place = match self.declaration(number) {
            Some(declaration) => declaration.place,
            None => crate::writer::NO_PLACE,
        };
        let name = Text::from_slice(self.alloc, self.name_of(number))?;
        let wanted = Text::from_slice(self.alloc, self.name_of(number))?;
        Ok(Declaration {
            class,
            name,
            mark,
            parameters: Declarations::of(Vec::new(self.alloc)),
            generics: Declarations::of(Vec::new(self.alloc)),
            inside: None,
            place,
            made: Made::Written,
            wanted,
        })
    }

    /// Enters what is written as the declaration of a number.
    pub(crate) fn enter(
        &mut self,
        number: u32,
        region: RegionId,
        declared: Declaration,
    ) -> Result<DeclId, AllocError> {
        let other = self.names.add(region, declared)?;
        self.put_link(number, other);
        self.note_used(number, region)?;
        Ok(other)
    }

    /// Enters what has no parameters and no region inside.
    pub(crate) fn enter_plain(
        &mut self,
        number: u32,
        region: RegionId,
        class: Class,
        mark: Option<TypeId>,
    ) -> Result<DeclId, AllocError> {
        let declared = self.declared(number, class, mark)?;
        self.enter(number, region, declared)
    }

    /// Enters a type, with the operators that it brings.
    pub(crate) fn enter_type(
        &mut self,
        number: u32,
        region: RegionId,
        declared: Declaration,
    ) -> Result<(), AllocError> {
        let class = declared.class;
        let other = self.enter(number, region, declared)?;
        self.names
            .bring_operators(region, TypeId::of(other.number()), class)
    }

    /// The other declarations of some, where they are written.
    pub(crate) fn linked_all(&self, ids: &[DeclId]) -> Result<Declarations, AllocError> {
        let mut others = Vec::new(self.alloc);
        for id in ids {
            if let Some(other) = self.linked(id.number()) {
                others.push(other)?;
            }
        }
        Ok(Declarations::of(others))
    }

    /// The other declarations of the parameters or elements of a number.
    pub(crate) fn linked_parameters(&self, number: u32) -> Result<Declarations, AllocError> {
        match self.declaration(number) {
            Some(declaration) => self.linked_all(declaration.parameters.as_slice()),
            None => Ok(Declarations::of(Vec::new(self.alloc))),
        }
    }

    /// The end of a region is reached.
    pub(crate) fn close(&mut self, region: RegionId) {
        if self.names.regions().is_region(region) {
            self.names.close(region);
        }
    }
}
