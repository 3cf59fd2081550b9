//! Scalar and record types. (IEEE 1076, types.)

ghost use Rattle.std.specs.Prelude.{◌≡◌, ◌≤◌, IfOk, OnErr, length};
ghost use Rattle.vd_composites.specs.declared.scalars.ScalarType.TheVariants.{Enumeration};
ghost use Rattle.vd_forest.specs.Store.{Extends, at};
ghost use Rattle.vd_value_rules.specs.Indicated.{fields_in, static_of, texts_in};
ghost use Rattle.vd_value_rules.specs.Made.{Indicates, scalar_indicated};
ghost use Rattle.vd_meaning.specs.Declarations.{enumeration as enumeration_of, record_type as type_of_records, whole};

use crate::nodes::add_node;
use crate::{IndicatedForm, StaticSort};
use std::alloc::AllocError;
use vd_composites::{Bounds, ScalarSubtype, ScalarType};
use vd_forest::{Cursor, Store};

/// A scalar subtype, with the literals of its type.
pub fn scalar_subtype(
    store: &mut Store<IndicatedForm>,
    subtype: ScalarSubtype,
    literals: u32,
    is_resolved: bool,
    range: StaticSort,
) -> Result<u32, AllocError>
    requires { literals ≤ length store.old }
    ensures indicates { IfOk result (λ number. Indicates store.new number
        (scalar_indicated subtype (texts_in (at store.old literals)) is_resolved (static_of range))) }
    ensures extends { Extends store.old store.new }
    ensures unchanged { OnErr result (store.new ≡ store.old) }
{
    let form = IndicatedForm::Scalar {
        subtype,
        is_resolved,
        range,
    };
    add_node(store, form, literals)
}

/// How many literals there are.
fn count(literals: &Cursor<'_, IndicatedForm>) -> Result<u32, AllocError>
    ensures { IfOk result (λ n. n ≡ length (texts_in literals.now)) }
{
    let mut left = literals.fork();
    let mut total: u32 = 0;
    while let Some(first) = left.open() {
        let Some(more) = total.checked_add(1) else {
            return Err(AllocError);
        };
        total = more;
        left = first.next;
    }
    Ok(total)
}

/// The scalar subtype of all values of an enumeration type.
fn whole_enumeration(count: u32) -> ScalarSubtype
    ensures { result ≡ whole (Enumeration count) }
{
    ScalarSubtype {
        of_type: ScalarType::Enumeration(count),
        range: Bounds {
            left: 0,
            right: i64::from(count) - 1,
            down: false,
        },
    }
}

/// An enumeration type of some literals.
pub fn enumeration(store: &mut Store<IndicatedForm>, literals: u32) -> Result<u32, AllocError>
    requires { literals ≤ length store.old }
    ensures indicates { IfOk result (λ number. Indicates store.new number (enumeration_of (texts_in (at store.old literals)))) }
    ensures extends { Extends store.old store.new }
    ensures unchanged { OnErr result (store.new ≡ store.old) }
{
    let total = count(&store.cursor(literals))?;
    let subtype = whole_enumeration(total);
    scalar_subtype(store, subtype, literals, false, StaticSort::always())
}

/// A record type of some fields.
pub fn record_type(store: &mut Store<IndicatedForm>, fields: u32) -> Result<u32, AllocError>
    requires { fields ≤ length store.old }
    ensures indicates { IfOk result (λ number. Indicates store.new number (type_of_records (fields_in (at store.old fields)))) }
    ensures extends { Extends store.old store.new }
    ensures unchanged { OnErr result (store.new ≡ store.old) }
{
    add_node(store, IndicatedForm::Record, fields)
}
