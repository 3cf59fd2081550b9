//! The actuals of an instance.

use indexmap::IndexMap;
use std::alloc::{AllocError, Global};
use vd_declarations::DeclId;
use vd_forest::{Cursor, Opened};
use vd_forms::Form;
use vd_notes::number_at;
use vd_resolved::Resolved;

/// The actuals of a generic map, by the numbers of the generics.
#[derive(Drop)]
pub(crate) struct Actuals<'t> {
    trees: Vec<Cursor<'t, Resolved>>,
    places: IndexMap<u32, usize>,
}

/// The generic that an element names in front of `=>`.
fn named(element: &Opened<'_, Resolved>) -> Option<u32> {
    let formal = element.parts.parts().open()?;
    number_at(&formal)
}

/// The generic at a place.
fn placed(generics: &[DeclId], place: usize) -> Option<u32> {
    let generic = generics.get(place)?;
    Some(generic.number())
}

impl<'t> Actuals<'t> {
    /// An actual of a generic.
    fn put(
        &mut self,
        generic: Option<u32>,
        actual: Cursor<'t, Resolved>,
    ) -> Result<(), AllocError> {
        if let Some(number) = generic {
            self.places.insert(number, self.trees.len())?;
            self.trees.push(actual)?;
        }
        Ok(())
    }

    /// An element of the map, which has a place.
    fn add(
        &mut self,
        element: &Opened<'t, Resolved>,
        trees: &Cursor<'t, Resolved>,
        generics: &[DeclId],
        place: usize,
    ) -> Result<(), AllocError> {
        match element.form.form {
            Form::Association => self.put(named(element), element.parts.skip(1)),
            _ => self.put(placed(generics, place), trees.fork()),
        }
    }

    /// The actuals of these elements, by name or by position.
    pub(crate) fn of(
        alloc: Global,
        elements: &Cursor<'t, Resolved>,
        generics: &[DeclId],
    ) -> Result<Actuals<'t>, AllocError> {
        let mut actuals = Actuals {
            trees: Vec::new(alloc),
            places: IndexMap::new(alloc),
        };
        let mut place: usize = 0;
        let mut left = elements.fork();
        while let Some(first) = left.open() {
            actuals.add(&first, &left, generics, place)?;
            place = place.saturating_add(1);
            left = first.next;
        }
        Ok(actuals)
    }

    /// The actual of a generic, where one is given. It is the first of some trees.
    pub(crate) fn get(&self, generic: u32) -> Option<&Cursor<'t, Resolved>> {
        let place = self.places.get(&generic).copied()?;
        let actual = self.trees.get(place)?;
        match actual.form() {
            Some(form) if form.form != Form::Open => Some(actual),
            _ => None,
        }
    }
}
