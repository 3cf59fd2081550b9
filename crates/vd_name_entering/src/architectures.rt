//! The architectures of entities.

ghost use Rattle.std.specs.Prelude.{◌≡◌, ℕ, List, false, Some, None, OnOk, MatchOption, if◌then◌else◌};
ghost use Rattle.std.specs.Str.{bytes_eq};
ghost use Rattle.vd_region_tables.specs.declared.keys.Name.{Name};
ghost use Rattle.vd_naming.specs.Ports.{is_architecture_of};
ghost use Rattle.vd_name_entering.specs.Tables.{last_of};

use indexmap::IndexMap;
use std::alloc::{AllocError, Global};
use vd_forest::Cursor;
use vd_forms::Form;
use vd_region_tables::Name;

/// For the name of each entity the number of the last unit that is an architecture of it.
#[derive(Drop)]
pub(crate) struct Architectures {
    last: IndexMap<Name, u32>,
}

impl Architectures {
    /// No entity has one.
    pub(crate) fn new(alloc: Global) -> Architectures
        ensures { (key : Name) → last_of result key ≡ None }
    {
        Architectures {
            last: IndexMap::new(alloc),
        }
    }

    /// The last one of an entity.
    pub(crate) fn last(&self, key: &Name) -> Option<u32>
        ensures { result ≡ last_of self.now key.now }
    {
        self.last.get(key).copied()
    }

    /// One unit more, behind those that were added.
    pub(crate) fn add(
        &mut self,
        alloc: Global,
        number: u32,
        unit: &Cursor<'_, Form>,
    ) -> Result<(), AllocError>
        ensures { OnOk result ((key : Name) → last_of self.new key
            ≡ (if is_architecture_of key.bytes.items unit.now then Some number else last_of self.old key)) }
    {
        let Some(entity) = entity_of_architecture(unit) else {
            return Ok(());
        };
        let bytes = Vec::from_slice(alloc, entity)?;
        self.last.insert(Name { bytes }, number)?;
        Ok(())
    }
}

/// The name of the entity of a unit that is an architecture.
fn entity_of_architecture<'a>(unit: &Cursor<'a, Form>) -> Option<&'a [u8]>
    ensures { MatchOption result ((name : List ℕ) → is_architecture_of name unit.now ≡ false) (λ entity.
        (name : List ℕ) → is_architecture_of name unit.now ≡ bytes_eq entity.now name) }
{
    let first = unit.open()?;
    match first.form {
        Form::ArchitectureBody => Some(first.parts.next().text()),
        _ => None,
    }
}
