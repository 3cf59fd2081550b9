//! What the subtype of a name has.

ghost use Rattle.std.specs.Prelude.{◌≡◌, ◌≤◌, ◌&&◌, List, length, true};
ghost use Rattle.vd_environments.specs.Environments.{or_senseless, own_bounds as bounds_made};
ghost use Rattle.vd_environments.specs.Got.{is_got};
ghost use Rattle.vd_forest.specs.Forest.{Forest};
ghost use Rattle.vd_forest.specs.Store.{at};
ghost use Rattle.vd_value_rules.specs.Indicated.{element_indicated, indicated_in, static_of};
ghost use Rattle.vd_value_rules.specs.declared.forms.IndicatedForm.{IndicatedForm as Form};
ghost use Rattle.vd_meaning.specs.Names.{element_of_subtype, range_of_subtype, scalars_of};
ghost use Rattle.vd_static_values.specs.Entries.{IsFound};
ghost use Rattle.vd_static_values.specs.Names.{indicated_by, number_in};

use vd_composites::{Bounds, ScalarSubtype};
use vd_forest::{Cursor, Store};
use vd_static_values::NameSubtype;
use vd_value_rules::subtypes::{own_bounds as stored_bounds, scalar};
use vd_value_rules::{IndicatedForm, StaticSort};

/// The number of the subtype, or of that of which it is a slice.
pub fn number_of(subtype: NameSubtype) -> u32
    ensures { result ≡ number_in subtype }
{
    match subtype {
        NameSubtype::Stored(number) => number,
        NameSubtype::Slice { of, .. } => of,
    }
}

/// Whether the subtype is of arrays.
pub(crate) fn is_array(subtypes: &Store<IndicatedForm>, number: u32) -> bool
    requires { number ≤ length subtypes.now }
    ensures { result ≡ is_got (element_of_subtype (indicated_in (at subtypes.now number)).subtype) }
{
    match subtypes.head(number) {
        Some(head) => matches!(
            head.form,
            IndicatedForm::Unbounded { .. } | IndicatedForm::Bounded { .. }
        ),
        None => false,
    }
}

/// The subtype of the elements of an array.
pub(crate) fn element_of(subtypes: &Store<IndicatedForm>, number: u32) -> u32
    requires { number ≤ length subtypes.now }
    ensures within { result ≤ length subtypes.now }
    ensures is { indicated_in (at subtypes.now result) ≡ element_indicated (indicated_in (at subtypes.now number)) }
{
    let Some(head) = subtypes.head(number) else {
        return 0;
    };
    match head.form {
        IndicatedForm::Unbounded { .. } => head.parts,
        IndicatedForm::Bounded { .. } => head.parts,
        _ => 0,
    }
}

/// How static the bounds of a slice are: in elaboration they are known only where those of the whole are.
pub(crate) fn sliced(known: StaticSort, whole: StaticSort) -> StaticSort
    ensures { result ≡ record { is_local = known.is_local; is_global = known.is_global && whole.is_global } }
{
    StaticSort {
        is_local: known.is_local,
        is_global: known.is_global && whole.is_global,
    }
}

/// How static its own bounds or its range are.
pub fn own_bounds(subtypes: &Store<IndicatedForm>, subtype: NameSubtype) -> StaticSort
    requires { number_in subtype ≤ length subtypes.now }
    ensures { static_of result ≡ bounds_made (indicated_by subtypes.now subtype).make }
{
    match subtype {
        NameSubtype::Stored(number) => stored_bounds(&subtypes.cursor(number)),
        NameSubtype::Slice { of, known, .. } => {
            if is_array(subtypes, of) {
                sliced(known, stored_bounds(&subtypes.cursor(of)))
            } else {
                StaticSort::never()
            }
        }
    }
}

/// The scalar subtype that it is.
pub fn scalar_of(subtypes: &Store<IndicatedForm>, subtype: NameSubtype) -> Option<ScalarSubtype>
    requires { number_in subtype ≤ length subtypes.now }
    ensures { or_senseless result ≡ scalars_of (indicated_by subtypes.now subtype).subtype }
{
    match subtype {
        NameSubtype::Stored(number) => scalar(&subtypes.cursor(number)),
        NameSubtype::Slice { of, .. } => {
            if is_array(subtypes, of) {
                None
            } else {
                // a slice of what is no array has no subtype
                scalar(&subtypes.cursor(0))
            }
        }
    }
}

/// The number of the subtype, where it is one of scalars. A slice has none.
pub fn scalar_number(subtype: NameSubtype) -> u32
    ensures within { (subtypes : List (Forest Form)) → number_in subtype ≤ length subtypes → result ≤ length subtypes }
    ensures is { (subtypes : List (Forest Form)) → is_got (scalars_of (indicated_by subtypes subtype).subtype) ≡ true
        → indicated_in (at subtypes result) ≡ indicated_by subtypes subtype }
{
    match subtype {
        NameSubtype::Stored(number) => number,
        NameSubtype::Slice { .. } => 0,
    }
}

/// The range of a scalar subtype.
#[tactic(auto, using(crate::proofs::FirstLemmas::range_in))]
pub(crate) fn range_of(subtype: &Cursor<'_, IndicatedForm>) -> Option<Bounds>
    ensures { IsFound result (range_of_subtype (indicated_in subtype.now).subtype) }
{
    let subtype = scalar(subtype)?;
    Some(subtype.range)
}
