//! The names that the declarations of a design have got so far.

use crate::fresh::{FIRST, fresh_from};
use crate::naming::{Design, Naming, entity_of, is_entity};
use crate::used::Used;
use indexmap::{IndexMap, IndexSet};
use std::alloc::{AllocError, Global};
use vd_region_tables::Name;

/// A name in a unit.
#[derive(PartialEq, Eq, Hash, Drop)]
struct InUnit {
    /// The number of the unit and one more, or 0 in none.
    unit: u64,
    name: Vec<u8>,
}

/// A name for a unit.
fn in_unit(alloc: Global, unit: Option<u32>, name: &[u8]) -> Result<InUnit, AllocError> {
    let unit = match unit {
        Some(number) => number as u64 + 1,
        None => 0,
    };
    let name = Vec::from_slice(alloc, name)?;
    Ok(InUnit { unit, name })
}

/// A name alone.
fn name_of(alloc: Global, name: &[u8]) -> Result<Name, AllocError> {
    let bytes = Vec::from_slice(alloc, name)?;
    Ok(Name { bytes })
}

/// The names that are taken.
#[derive(Drop)]
pub(crate) struct Taken {
    alloc: Global,
    /// Those of each unit.
    units: IndexSet<InUnit>,
    /// Those that keep their names in the architectures of each entity.
    inside: IndexSet<InUnit>,
    /// Those of functions, and those of the literals and functions that are given.
    functions: Used,
    /// All that are given so far, or kept.
    design: Used,
    /// The last number that was put behind a name.
    last: IndexMap<Name, u32>,
}

impl Taken {
    /// None is.
    pub(crate) fn new(alloc: Global) -> Taken {
        Taken {
            alloc,
            units: IndexSet::new(alloc),
            inside: IndexSet::new(alloc),
            functions: Used::new(alloc),
            design: Used::new(alloc),
            last: IndexMap::new(alloc),
        }
    }

    /// A literal or function is given.
    pub(crate) fn give(&mut self, name: &[u8]) -> Result<(), AllocError> {
        self.functions.add(self.alloc, name)
    }

    /// A declaration of a unit keeps its name.
    pub(crate) fn keep(
        &mut self,
        design: &Design<'_>,
        unit: Option<u32>,
        name: &[u8],
    ) -> Result<(), AllocError> {
        let entity = entity_of(design, unit);
        if entity.is_some() {
            let key = in_unit(self.alloc, entity, name)?;
            self.inside.insert(key)?;
        }
        self.take(unit, name)
    }

    /// A declaration of a unit has a name.
    fn take(&mut self, unit: Option<u32>, name: &[u8]) -> Result<(), AllocError> {
        let key = in_unit(self.alloc, unit, name)?;
        self.units.insert(key)?;
        self.design.add(self.alloc, name)
    }

    /// Whether something of a unit has a name, or of the entity of an architecture; of an entity, what keeps its name in an architecture counts too.
    fn is_in_unit(
        &self,
        design: &Design<'_>,
        unit: Option<u32>,
        name: &[u8],
    ) -> Result<bool, AllocError> {
        let key = in_unit(self.alloc, unit, name)?;
        if self.units.contains(&key) {
            return Ok(true);
        }
        if is_entity(design, unit) {
            return Ok(self.inside.contains(&key));
        }
        let entity = entity_of(design, unit);
        if entity.is_none() {
            return Ok(false);
        }
        let key = in_unit(self.alloc, entity, name)?;
        Ok(self.units.contains(&key))
    }

    /// Whether a declaration of a unit may have a name.
    fn is_free(
        &self,
        design: &Design<'_>,
        naming: Naming,
        unit: Option<u32>,
        name: &[u8],
    ) -> Result<bool, AllocError> {
        let key = name_of(self.alloc, name)?;
        match naming {
            Naming::Alone => Ok(!self.design.has(&key)),
            Naming::OfFunction => {
                let is_taken = self.is_in_unit(design, unit, name)?;
                Ok(!is_taken && !self.functions.has(&key))
            }
            _ => {
                let is_taken = self.is_in_unit(design, unit, name)?;
                Ok(!is_taken)
            }
        }
    }

    /// The number from which on a name is sought that wants to be this one. Names are only ever taken, so those below stay so.
    fn first_for(&self, wanted: &Name) -> u32 {
        match self.last.get(wanted) {
            Some(last) => *last,
            None => FIRST,
        }
    }

    /// A name with a number behind it that nothing of the design has.
    fn numbered(&mut self, wanted: &[u8]) -> Result<Vec<u8>, AllocError> {
        let key = name_of(self.alloc, wanted)?;
        let first = self.first_for(&key);
        let made = fresh_from(self.alloc, &self.design, wanted, first)?;
        self.last.insert(key, made.number)?;
        Ok(made.name.bytes)
    }

    /// The name that a declaration of a unit wants, or that one with a number behind it.
    fn found(
        &mut self,
        design: &Design<'_>,
        naming: Naming,
        unit: Option<u32>,
        wanted: &[u8],
    ) -> Result<Vec<u8>, AllocError> {
        if self.is_free(design, naming, unit, wanted)? {
            return Vec::from_slice(self.alloc, wanted);
        }
        self.numbered(wanted)
    }

    /// Gives a declaration of a unit its name, by the one that it wants.
    pub(crate) fn name(
        &mut self,
        design: &Design<'_>,
        naming: Naming,
        unit: Option<u32>,
        wanted: &[u8],
    ) -> Result<Vec<u8>, AllocError> {
        let name = self.found(design, naming, unit, wanted)?;
        self.take(unit, name.as_slice())?;
        if matches!(naming, Naming::OfFunction) {
            self.functions.add(self.alloc, name.as_slice())?;
        }
        Ok(name)
    }
}
