//! The units of a top among those of a design.

ghost use Rattle.std.specs.Prelude.{◌≡◌, Some, None, is_some, MatchOption};
ghost use Rattle.vd_first_elaboration.specs.Tops.{library_units, is_wanted, is_entity as is_entity_named, is_architecture as is_architecture_of, last_passing, top_units};
ghost use Rattle.vd_first_elaboration.specs.Elaboration.{elaboration};
ghost use Rattle.vd_first_runs.specs.Units.{own_units};

use crate::tops::Top;
use vd_bytes::Text;
use vd_first_trees::Form;
use vd_first_trees::form_tests::{is_architecture, is_entity};
use vd_forest::{Cursor, Opened};

/// The parts of an entity, and those of one of its architectures.
#[derive(Drop)]
pub struct Units<'a> {
    pub entity: Cursor<'a, Form>,
    pub architecture: Cursor<'a, Form>,
}

fn is_wanted(wanted: &Option<Text>, name: &[u8]) -> bool
    ensures { result ≡ is_wanted wanted.now name.now }
{
    match wanted {
        Some(wanted) => name == wanted.as_slice(),
        None => true,
    }
}

// Whether a unit is the entity of that name.
fn has_name(unit: &Opened<'_, Form>, name: &[u8]) -> bool
    ensures { result ≡ is_entity_named name.now unit.now.form unit.now.parts }
{
    is_entity(unit.form) && unit.parts.text() == name
}

// Whether a unit is an architecture that the top may have.
fn belongs(unit: &Opened<'_, Form>, top: &Top) -> bool
    ensures { result ≡ is_architecture_of top.now unit.now.form unit.now.parts }
{
    is_architecture(unit.form)
        && unit.parts.next().text() == top.entity.as_slice()
        && is_wanted(&top.architecture, unit.parts.text())
}

// The parts of the last entity of that name.
fn find_entity<'a>(units: &Cursor<'a, Form>, name: &[u8]) -> Option<Cursor<'a, Form>>
    ensures { result ≡ last_passing (is_entity_named name.now) None (library_units units.now) }
{
    let mut found = None;
    let mut left = units.fork();
    while let Some(first) = left.open() {
        if let Some(unit) = first.parts.next().open() {
            if has_name(&unit, name) {
                found = Some(unit.parts);
            }
        }
        left = first.next;
    }
    found
}

// The parts of the last architecture that the top may have.
fn find_architecture<'a>(units: &Cursor<'a, Form>, top: &Top) -> Option<Cursor<'a, Form>>
    ensures { result ≡ last_passing (is_architecture_of top.now) None (library_units units.now) }
{
    let mut found = None;
    let mut left = units.fork();
    while let Some(first) = left.open() {
        if let Some(unit) = first.parts.next().open() {
            if belongs(&unit, top) {
                found = Some(unit.parts);
            }
        }
        left = first.next;
    }
    found
}

/// The units of a top, where the design has them.
pub fn find_units<'a>(units: &Cursor<'a, Form>, top: &Top) -> Option<Units<'a>>
    ensures { MatchOption result (top_units units.now top.now ≡ None) (λ u. top_units units.now top.now ≡ Some (own_units u)) }
{
    let entity = find_entity(units, top.entity.as_slice())?;
    let architecture = find_architecture(units, top)?;
    Some(Units {
        entity,
        architecture,
    })
}

/// Whether a design has the units of a top.
pub fn has_units(units: &Cursor<'_, Form>, top: &Top) -> bool
    ensures { result ≡ is_some (elaboration units.now top.now) }
{
    find_units(units, top).is_some()
}
