//! What the subtypes of names have, and the subtypes of their parts.

ghost use Rattle.std.specs.Prelude.{◌≡◌, ◌≤◌, IfOk, length};
ghost use Rattle.vd_composites.specs.Scalars.{whole_range as all_values};
ghost use Rattle.vd_environments.specs.Environments.{or_senseless};
ghost use Rattle.vd_forest.specs.Store.{at};
ghost use Rattle.vd_value_rules.specs.Indicated.{element_indicated, field_indicated, indicated_in, static_of};
ghost use Rattle.vd_static_names.specs.Jumps.{AreJumps};
ghost use Rattle.vd_value_rules.specs.Made.{slice_of};
ghost use Rattle.vd_meaning.specs.Names.{bounds_of_subtype};
ghost use Rattle.vd_known_lengths.specs.Extents.{IsSubtype, values_taken};
ghost use Rattle.vd_static_values.specs.Names.{bounds_or_later as known_or_later, indicated_by, number_in};
ghost use Rattle.vd_value_rules.specs.Choices.{is_array as is_an_array, taken_by, taken_by_elements};
ghost use Rattle.vd_value_rules.specs.Lengths.{static_length as length_known};

use std::alloc::AllocError;
use vd_composites::{Bounds, ScalarSubtype, ScalarType};
use vd_forest::Store;
use vd_static_names::FieldTable;
use vd_static_names::subtypes::{number_of, own_bounds, scalar_of};
use vd_static_values::NameSubtype;
use vd_value_rules::array_facts::array_bounds;
use vd_value_rules::{IndicatedForm, StaticSort};

/// Whether the subtype with a number is of arrays.
fn is_array_at(subtypes: &Store<IndicatedForm>, number: u32) -> bool
    requires { number ≤ length subtypes.now }
    ensures { result ≡ is_an_array (indicated_in (at subtypes.now number)).subtype }
{
    match subtypes.head(number) {
        Some(head) => matches!(
            head.form,
            IndicatedForm::Unbounded { .. } | IndicatedForm::Bounded { .. }
        ),
        None => false,
    }
}

/// Whether it is of arrays.
#[tactic(auto, using(crate::proofs::SubtypeLemmas::array_by_number))]
pub(crate) fn is_array(subtypes: &Store<IndicatedForm>, subtype: NameSubtype) -> bool
    requires { number_in subtype ≤ length subtypes.now }
    ensures { result ≡ is_an_array (indicated_by subtypes.now subtype).subtype }
{
    is_array_at(subtypes, number_of(subtype))
}

/// The bounds of a slice whose range is known, and else null ones.
fn bounds_or_later(bounds: Option<Bounds>) -> Bounds
    ensures { result ≡ known_or_later bounds }
{
    match bounds {
        Some(bounds) => bounds,
        None => Bounds {
            left: 1,
            right: 0,
            down: false,
        },
    }
}

/// The bounds of an array that has some.
fn bounds_of(subtypes: &Store<IndicatedForm>, subtype: NameSubtype) -> Option<Bounds>
    requires { number_in subtype ≤ length subtypes.now }
    ensures { or_senseless result ≡ bounds_of_subtype (indicated_by subtypes.now subtype).subtype }
{
    match subtype {
        NameSubtype::Stored(number) => array_bounds(&subtypes.cursor(number)),
        NameSubtype::Slice { of, bounds, .. } => {
            if is_array_at(subtypes, of) {
                Some(bounds_or_later(bounds))
            } else {
                None
            }
        }
    }
}

/// How many elements an array has, where its bounds are locally static.
pub(crate) fn static_length(subtypes: &Store<IndicatedForm>, subtype: NameSubtype) -> Option<u128>
    requires { number_in subtype ≤ length subtypes.now }
    ensures { length_known (indicated_by subtypes.now subtype) ≡ result }
{
    if !own_bounds(subtypes, subtype).is_local {
        return None;
    }
    let bounds = bounds_of(subtypes, subtype)?;
    Some(bounds.length())
}

// ---- parts

/// The subtype of the elements of the arrays of the subtype with a number.
fn element_at(subtypes: &Store<IndicatedForm>, number: u32) -> u32
    requires { number ≤ length subtypes.now }
    ensures within { result ≤ length subtypes.now }
    ensures is { indicated_in (at subtypes.now result) ≡ element_indicated (indicated_in (at subtypes.now number)) }
{
    let Some(head) = subtypes.head(number) else {
        return 0;
    };
    match head.form {
        IndicatedForm::Unbounded { .. } => head.parts,
        IndicatedForm::Bounded { .. } => head.parts,
        _ => 0,
    }
}

/// The subtype of the elements.
pub(crate) fn element_of(subtypes: &Store<IndicatedForm>, subtype: NameSubtype) -> NameSubtype
    requires { number_in subtype ≤ length subtypes.now }
    ensures { IsSubtype subtypes.now result (element_indicated (indicated_by subtypes.now subtype)) }
{
    NameSubtype::Stored(element_at(subtypes, number_of(subtype)))
}

/// The subtype of a record's field, by its number from 0.
pub(crate) fn field_of(
    subtypes: &Store<IndicatedForm>,
    fields: &mut FieldTable,
    subtype: NameSubtype,
    number: u32,
) -> Result<NameSubtype, AllocError>
    requires within { number_in subtype ≤ length subtypes.now }
    requires fields { AreJumps fields.old.jumps.items subtypes.now }
    ensures is { IfOk result (λ x. IsSubtype subtypes.now x (field_indicated number (indicated_by subtypes.now subtype))) }
    ensures fields { AreJumps fields.new.jumps.items subtypes.now }
{
    match subtype {
        NameSubtype::Stored(of) => {
            let found = fields.field(subtypes, of, number)?;
            Ok(NameSubtype::Stored(found))
        }
        NameSubtype::Slice { .. } => Ok(NameSubtype::Stored(0)),
    }
}

/// The subtype of a slice. One of a slice is one of the same array.
pub(crate) fn sliced(
    subtypes: &Store<IndicatedForm>,
    subtype: NameSubtype,
    bounds: Option<Bounds>,
    known: StaticSort,
) -> NameSubtype
    requires { number_in subtype ≤ length subtypes.now }
    ensures { IsSubtype subtypes.now result (slice_of (known_or_later bounds) (static_of known) (indicated_by subtypes.now subtype)) }
{
    match subtype {
        NameSubtype::Stored(of) => NameSubtype::Slice { of, bounds, known },
        NameSubtype::Slice {
            of,
            known: before,
            ..
        } => NameSubtype::Slice {
            of,
            bounds,
            known: StaticSort {
                is_local: known.is_local,
                is_global: known.is_global && before.is_global,
            },
        },
    }
}

// ---- the values that choices must take

/// The range of all values of a type.
fn whole_range(of_type: ScalarType) -> Bounds
    ensures { result ≡ all_values of_type }
{
    let (left, right) = match of_type {
        ScalarType::Integers => (-2_147_483_647, 2_147_483_647),
        ScalarType::Enumeration(count) => (0, i64::from(count) - 1),
        ScalarType::Times => (0, i64::MAX),
    };
    Bounds {
        left,
        right,
        down: false,
    }
}

/// The values of a scalar subtype that choices must take.
fn values_of(subtype: Option<ScalarSubtype>, is_static: bool) -> Bounds
    ensures { result ≡ values_taken subtype is_static }
{
    match subtype {
        Some(subtype) if is_static => subtype.range,
        Some(subtype) => whole_range(subtype.of_type),
        None => bounds_or_later(None),
    }
}

/// The values that choices must take, where it is scalar.
pub(crate) fn taken(subtypes: &Store<IndicatedForm>, subtype: NameSubtype) -> Bounds
    requires { number_in subtype ≤ length subtypes.now }
    ensures { taken_by (indicated_by subtypes.now subtype) ≡ result }
{
    values_of(
        scalar_of(subtypes, subtype),
        own_bounds(subtypes, subtype).is_local,
    )
}

/// The values that each element of choices must take, where it is an array.
pub(crate) fn taken_elements(subtypes: &Store<IndicatedForm>, subtype: NameSubtype) -> Bounds
    requires { number_in subtype ≤ length subtypes.now }
    ensures { taken_by_elements (indicated_by subtypes.now subtype) ≡ result }
{
    if is_array(subtypes, subtype) {
        taken(subtypes, element_of(subtypes, subtype))
    } else {
        values_of(scalar_of(subtypes, subtype), false)
    }
}
