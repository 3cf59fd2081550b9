//! Ranges within the subtype of a name. (IEEE 1076, discrete ranges.)

ghost use Rattle.std.specs.Prelude.{◌≡◌, ◌≤◌, length};
ghost use Rattle.vd_composites.specs.Subtypes.{constrained};
ghost use Rattle.vd_environments.specs.Environments.{Env};
ghost use Rattle.vd_environments.specs.Got.{got, is_got};
ghost use Rattle.vd_value_rules.specs.Indicated.{indicated_in, static_of};
ghost use Rattle.vd_meaning.specs.Names.{Named, name_bounds as bounds_of_name};
ghost use Rattle.vd_static_values.specs.Names.{IsName, indicated_by, number_in};
ghost use Rattle.vd_static_names.specs.Known.{IsWithin};
ghost use Rattle.vd_static_nodes.specs.Ranges.{whole_range};

use vd_composites::Bounds;
use vd_forest::{Cursor, Store};
use vd_static_names::subtypes::{own_bounds, scalar_of};
use vd_static_values::{KnownName, NameSubtype};
use vd_value_rules::array_facts::index;
use vd_value_rules::subtypes::{has_bounds, scalar};
use vd_value_rules::{IndicatedForm, StaticSort};

/// The range that a constraint of a subtype must lie within: that of a scalar subtype, or of the index of an array of any bounds.
fn stored_whole(subtype: &Cursor<'_, IndicatedForm>) -> Option<Bounds>
    ensures { result ≡ whole_range (indicated_in subtype.now).subtype }
{
    if let Some(scalar) = scalar(subtype) {
        return Some(scalar.range);
    }
    if has_bounds(subtype) {
        return None;
    }
    let index = index(subtype)?;
    Some(index.range)
}

/// The same of the subtype of a name. A slice has bounds.
fn whole_of(subtypes: &Store<IndicatedForm>, subtype: NameSubtype) -> Option<Bounds>
    requires { number_in subtype ≤ length subtypes.now }
    ensures { result ≡ whole_range (indicated_by subtypes.now subtype).subtype }
{
    match subtype {
        NameSubtype::Stored(number) => stored_whole(&subtypes.cursor(number)),
        NameSubtype::Slice { .. } => {
            let scalar = scalar_of(subtypes, subtype)?;
            Some(scalar.range)
        }
    }
}

/// Whether a range fits within the subtype of a name.
pub(crate) fn fits(subtypes: &Store<IndicatedForm>, subtype: NameSubtype, range: Bounds) -> bool
    requires { number_in subtype ≤ length subtypes.now }
    ensures { result ≡ is_got (got (constrained (indicated_by subtypes.now subtype).subtype range)) }
{
    match whole_of(subtypes, subtype) {
        Some(whole) => whole.covers(range),
        None => false,
    }
}

/// How static the bounds of an object, a type or a part of one are.
pub(crate) fn name_bounds(subtypes: &Store<IndicatedForm>, name: &KnownName) -> StaticSort
    requires { IsWithin subtypes.now name.now }
    ensures { (e : Env) (p : Named) → IsName subtypes.now e name.now p → static_of result ≡ bounds_of_name p e }
{
    let own = own_bounds(subtypes, name.subtype);
    StaticSort {
        is_local: own.is_local && name.local_slices,
        is_global: own.is_global,
    }
}
