//! The library units of a design.

ghost use Rattle.std.specs.Prelude.{◌≡◌, None};
ghost use Rattle.std.specs.Option.{option_copied};
ghost use Rattle.vd_tops.specs.Tops.{library_unit as unit_in, unit_at as unit_numbered, is_entity as entity_named, is_architecture as architecture_of, last_passing, generics_of, is_there as there, lacks_default as lacking, have_defaults as all_have};

use crate::forms::{is_absent, is_ahead, is_architecture, is_constant, is_entity, is_round};
use crate::names::{is_meant, is_wanted};
use vd_forest::Cursor;
use vd_forms::Form;
use vd_resolved::Resolved;

/// The library unit of a design unit that has these parts.
fn library_unit<'a>(parts: &Cursor<'a, Resolved>) -> Cursor<'a, Resolved>
    ensures { result ≡ unit_in parts.now }
{
    let mut left = parts.fork();
    while let Some(first) = left.open() {
        if is_ahead(first.form.form) {
            left = first.next;
        } else if is_round(first.form.form) {
            left = first.parts;
        } else {
            return left;
        }
    }
    left
}

/// The library unit of the design unit of that number.
fn unit_at<'a>(units: &Cursor<'a, Resolved>, number: u32) -> Cursor<'a, Resolved>
    ensures { result ≡ unit_numbered units.now number }
{
    library_unit(&units.skip(number).parts())
}

/// Whether it is the entity of that name.
fn has_name(unit: &Cursor<'_, Resolved>, entity: &[u8]) -> bool
    ensures { result ≡ entity_named entity.now unit.now }
{
    match unit.open() {
        None => false,
        Some(first) => is_entity(first.form.form) && is_meant(entity, first.parts.text()),
    }
}

/// Whether it is an architecture of that entity that is wanted.
fn belongs(unit: &Cursor<'_, Resolved>, entity: &[u8], architecture: Option<&[u8]>) -> bool
    ensures { result ≡ architecture_of (record { entity = entity.now; architecture = option_copied architecture.entry }) unit.now }
{
    match unit.open() {
        None => false,
        Some(first) => {
            is_architecture(first.form.form)
                && is_meant(entity, first.parts.next().text())
                && is_wanted(architecture, first.parts.text())
        }
    }
}

/// The number of the last entity of that name.
pub(crate) fn find_entity(units: &Cursor<'_, Resolved>, entity: &[u8]) -> Option<u32>
    ensures { result ≡ last_passing (entity_named entity.now) None 0 units.now }
{
    let (store, number) = units.stands();
    let mut found = None;
    let mut count = 0;
    let mut left = number;
    while left > 0 {
        let head = store.node(left);
        let unit = library_unit(&store.cursor(head.parts));
        if has_name(&unit, entity) {
            found = Some(count);
        }
        count += 1;
        left = head.next;
    }
    found
}

/// The number of the last architecture of that entity that is wanted.
pub(crate) fn find_architecture(
    units: &Cursor<'_, Resolved>,
    entity: &[u8],
    architecture: Option<&[u8]>,
) -> Option<u32>
    ensures { result ≡ last_passing (architecture_of (record { entity = entity.now; architecture = option_copied architecture.entry })) None 0 units.now }
{
    let (store, number) = units.stands();
    let mut found = None;
    let mut count = 0;
    let mut left = number;
    while left > 0 {
        let head = store.node(left);
        let unit = library_unit(&store.cursor(head.parts));
        if belongs(&unit, entity, architecture) {
            found = Some(count);
        }
        count += 1;
        left = head.next;
    }
    found
}

/// Whether something stands at the head that isn't `Absent`.
fn is_there(trees: &Cursor<'_, Resolved>) -> bool
    ensures { result ≡ there trees.now }
{
    match trees.open() {
        None => false,
        Some(first) => !is_absent(first.form.form),
    }
}

/// Whether a generic of this form and these parts is a constant without default.
fn lacks_default(form: Form, parts: &Cursor<'_, Resolved>) -> bool
    ensures { result ≡ lacking form parts.now }
{
    is_constant(form) && !is_there(&parts.next().next().next().next())
}

/// Whether each constant of some generics has a default.
fn all_have_defaults(generics: &Cursor<'_, Resolved>) -> bool
    ensures { result ≡ all_have generics.now }
{
    let mut left = generics.fork();
    while let Some(first) = left.open() {
        if lacks_default(first.form.form, &first.parts) {
            return false;
        }
        left = first.next;
    }
    true
}

/// Whether each generic constant of an entity has a default.
pub(crate) fn have_defaults(units: &Cursor<'_, Resolved>, entity: u32) -> bool
    ensures { result ≡ all_have (generics_of (unit_numbered units.now entity)) }
{
    let unit = unit_at(units, entity);
    all_have_defaults(&unit.parts().next().parts())
}
