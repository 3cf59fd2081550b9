//! Parts of what names stand for. (IEEE 1076, names: selected, indexed and slice names.)

ghost use Rattle.std.specs.Prelude.{◌≡◌, ◌≤◌, ◌&&◌, ℕ, IfOk, List, Option, false, is_some, length, true};
ghost use Rattle.vd_composites.specs.Composites.{Value as AnyValue};
ghost use Rattle.vd_composites.specs.declared.ranges.Bounds.{Bounds as Range};
ghost use Rattle.vd_environments.specs.Environments.{Env, Signals, Static, or_senseless};
ghost use Rattle.vd_environments.specs.Got.{Got, is_got};
ghost use Rattle.vd_forest.specs.Store.{at};
ghost use Rattle.vd_value_rules.specs.Indicated.{indicated_in, static_of};
ghost use Rattle.vd_static_names.specs.Jumps.{AreJumps};
ghost use Rattle.vd_meaning.specs.Names.{Named, bounds_of_subtype, element_of_subtype, stepped, to_element, to_field, to_slice};
ghost use Rattle.vd_static_values.specs.Entries.{IsFound};
ghost use Rattle.vd_static_values.specs.Names.{IsName, number_in};
ghost use Rattle.vd_static_names.specs.Known.{IsWithin};
ghost use Rattle.vd_static_names.specs.Parts.{IsField, bounds_within, known_part, slice_in as slice_of_name};
ghost use Rattle.vd_values.specs.declared.scalar.Scalar.{Scalar};

use crate::FieldTable;
use crate::fields::{field_in_table, field_of, is_tree};
use crate::subtypes::{element_of, is_array, number_of, sliced};
use std::alloc::AllocError;
use vd_composites::Bounds;
use vd_forest::Store;
use vd_static_values::{KnownName, NameSubtype, Ranging};
use vd_value_rules::array_facts::array_bounds;
use vd_value_rules::{IndicatedForm, StaticSort};

/// The subtype of a part, and its bounds.
#[derive(Clone, Copy)]
pub(crate) struct Part {
    pub(crate) subtype: NameSubtype,
    pub(crate) has_subtype: bool,
    pub(crate) shape: Option<Bounds>,
}

/// A part of a name, behind a step that is so static.
fn part_of(name: &KnownName, known: StaticSort, is_local: bool, part: Part) -> KnownName
    ensures { result ≡ known_part name.now known is_local part }
{
    KnownName {
        value: None,
        known: StaticSort {
            is_local: false,
            is_global: name.known.is_global && known.is_global,
        },
        subtype: part.subtype,
        has_subtype: part.has_subtype,
        shape: part.shape,
        is_object: name.is_object,
        local_slices: name.local_slices && is_local,
        is_mark: false,
        range: Ranging::NoRange,
        callee: None,
        is_signal: name.is_signal,
        is_whole: name.is_signal && (name.is_whole && known.is_static()),
    }
}

/// A part whose subtype has a number, where the whole has such a part.
fn stored_part(
    subtypes: &Store<IndicatedForm>,
    name: &KnownName,
    number: u32,
    is_there: bool,
) -> Part
    requires { number ≤ length subtypes.now }
    ensures subtype { result.subtype ≡ NameSubtype.Stored number }
    ensures has { result.has_subtype ≡ (name.now.has_subtype && is_there) }
    ensures shape { name.now.has_subtype ≡ true → or_senseless result.shape ≡ bounds_of_subtype (indicated_in (at subtypes.now number)).subtype }
    ensures no_shape { name.now.has_subtype ≡ false → result.shape ≡ None }
{
    let shape = if name.has_subtype {
        array_bounds(&subtypes.cursor(number))
    } else {
        None
    };
    Part {
        subtype: NameSubtype::Stored(number),
        has_subtype: name.has_subtype && is_there,
        shape,
    }
}

/// The field of a record whose subtype has this number, if it has such a field.
fn with_field(name: &KnownName, subtypes: &Store<IndicatedForm>, found: u32) -> KnownName
    requires { found ≤ length subtypes.now }
    ensures within { IsWithin subtypes.now result }
    ensures named { (e : Env) (m : Option ℕ) (p : Named) (number : ℕ) → IsName subtypes.now e name.now p → IsField subtypes.now number name.now.subtype found
        → IsName subtypes.now e result (stepped (to_field number) m p) }
{
    let is_there = is_tree(subtypes, found);
    let part = stored_part(subtypes, name, found, is_there);
    part_of(name, StaticSort::always(), true, part)
}

/// The field of a record with a number, from 0. It takes as many steps as fields stand before it; `field_by_table` takes fewer.
pub fn field(name: KnownName, subtypes: &Store<IndicatedForm>, number: u32) -> KnownName
    requires { IsWithin subtypes.now name }
    ensures within { IsWithin subtypes.now result }
    ensures named { (e : Env) (m : Option ℕ) (p : Named) → IsName subtypes.now e name p → IsName subtypes.now e result (stepped (to_field number) m p) }
{
    let found = field_of(subtypes, name.subtype, number);
    with_field(&name, subtypes, found)
}

/// The same in as many steps as the number of fields has digits, and over all calls with a table one step for each tree of the store.
pub fn field_by_table(
    name: KnownName,
    subtypes: &Store<IndicatedForm>,
    fields: &mut FieldTable,
    number: u32,
) -> Result<KnownName, AllocError>
    requires within { IsWithin subtypes.now name }
    requires fields { AreJumps fields.old.jumps.items subtypes.now }
    ensures within { IfOk result (IsWithin subtypes.now) }
    ensures named { (e : Env) (m : Option ℕ) (p : Named) → IsName subtypes.now e name p → IfOk result (λ x. IsName subtypes.now e x (stepped (to_field number) m p)) }
    ensures fields { AreJumps fields.new.jumps.items subtypes.now }
{
    let found = field_in_table(subtypes, fields, name.subtype, number)?;
    Ok(with_field(&name, subtypes, found))
}

/// The element of an array, by an index that is so static.
pub fn element(name: KnownName, subtypes: &Store<IndicatedForm>, known: StaticSort) -> KnownName
    requires { IsWithin subtypes.now name }
    ensures within { IsWithin subtypes.now result }
    ensures named { (e : Env) (m : Option ℕ) (p : Named) (index : Env → Got (AnyValue Scalar)) (kn : Env → Static) (inner : Env → Got (List Signals)) →
        IsName subtypes.now e name p → static_of known ≡ kn e → IsName subtypes.now e result (stepped (to_element index kn inner) m p) }
{
    let of = number_of(name.subtype);
    let found = element_of(subtypes, of);
    let is_there = is_array(subtypes, of);
    let part = stored_part(subtypes, &name, found, is_there);
    part_of(&name, known, true, part)
}

/// The bounds of a slice, which go in the direction of the whole. One that isn't null lies within it.
fn slice_shape(shape: Option<Bounds>, range: Option<Bounds>) -> Option<Bounds>
    ensures { (whole own : Got Range) → IsFound shape whole → IsFound range own → IsFound result (bounds_within whole own) }
{
    let whole = shape?;
    let range = range?;
    if whole.takes_slice(range) {
        Some(range)
    } else {
        None
    }
}

/// The subtype of a slice.
fn slice_in(subtype: NameSubtype, range: Option<Bounds>, known: StaticSort) -> NameSubtype
    ensures { result ≡ slice_of_name subtype range known }
{
    match subtype {
        NameSubtype::Stored(of) => NameSubtype::Slice {
            of,
            bounds: range,
            known,
        },
        NameSubtype::Slice {
            of,
            known: before,
            ..
        } => NameSubtype::Slice {
            of,
            bounds: range,
            known: sliced(known, before),
        },
    }
}

/// What is known of the subtype of a slice.
fn slice_part(
    subtypes: &Store<IndicatedForm>,
    name: &KnownName,
    range: Option<Bounds>,
    known: StaticSort,
) -> Part
    requires { IsWithin subtypes.now name.now }
    ensures subtype { result.subtype ≡ slice_of_name name.now.subtype range known }
    ensures has { result.has_subtype
        ≡ (name.now.has_subtype && (is_some range && is_got (element_of_subtype (indicated_in (at subtypes.now (number_in name.now.subtype))).subtype))) }
    ensures shape { name.now.has_subtype ≡ true → (whole own : Got Range) → IsFound name.now.shape whole → IsFound range own
        → IsFound result.shape (bounds_within whole own) }
    ensures no_shape { name.now.has_subtype ≡ false → result.shape ≡ None }
{
    let has_range = range.is_some() && is_array(subtypes, number_of(name.subtype));
    let shape = if name.has_subtype {
        slice_shape(name.shape, range)
    } else {
        None
    };
    Part {
        subtype: slice_in(name.subtype, range, known),
        has_subtype: name.has_subtype && has_range,
        shape,
    }
}

/// A slice of an array, by a range that is so static.
pub fn slice(
    name: KnownName,
    subtypes: &Store<IndicatedForm>,
    range: Option<Bounds>,
    known: StaticSort,
) -> KnownName
    requires { IsWithin subtypes.now name }
    ensures within { IsWithin subtypes.now result }
    ensures named { (e : Env) (m : Option ℕ) (p : Named) (rng : Env → Got Range) (kn : Env → Static) (inner : Env → Got (List Signals)) →
        IsName subtypes.now e name p → static_of known ≡ kn e → ((kn e).is_local ≡ true → IsFound range (rng e))
        → IsName subtypes.now e result (stepped (to_slice rng kn inner) m p) }
{
    let part = slice_part(subtypes, &name, range, known);
    part_of(&name, known, known.is_local, part)
}
