//! The place that each declaration has among those that are declared in one list with it.

use std::alloc::{AllocError, Global};
use vd_declarations::{DeclId, Declaration};

/// For each declaration, by its number, behind how many others it stands in a list of parameters, ports or generics. It is 0 where it stands in none.
#[derive(Debug, Drop)]
pub struct Places {
    places: Vec<u32>,
}

/// Notes the places of some declarations that stand in one list.
fn note(places: &mut Vec<u32>, list: &[DeclId]) {
    let mut next: u32 = 0;
    for id in list {
        if let Some(place) = places.get_mut(id.number() as usize) {
            *place = next;
        }
        next = next.saturating_add(1);
    }
}

impl Places {
    /// The places of these declarations.
    pub fn of(alloc: Global, declarations: &[Declaration]) -> Result<Places, AllocError> {
        let mut places = vec![in alloc; 0; declarations.len()]?;
        for declaration in declarations {
            note(&mut places, declaration.parameters.as_slice());
            note(&mut places, declaration.generics.as_slice());
        }
        Ok(Places { places })
    }

    /// The place of a declaration in its list.
    pub fn place(&self, id: DeclId) -> u32 {
        match self.places.get(id.number() as usize) {
            Some(place) => *place,
            None => 0,
        }
    }
}
