//! Indexes of array types. (IEEE 1076, array types)

ghost use Rattle.std.specs.Prelude.{◌≡◌, ◌≤◌, ◌∷◌, List, length};
ghost use Rattle.std.specs.List.{All};
ghost use Rattle.vd_composites.specs.declared.ranges.Bounds.{Bounds as AnyBounds};
ghost use Rattle.vd_environments.specs.Environments.{Env, Indicated, Static, literals_of};
ghost use Rattle.vd_environments.specs.Got.{Got};
ghost use Rattle.vd_forest.specs.Forest.{Forest};
ghost use Rattle.vd_forest.specs.Store.{at};
ghost use Rattle.vd_value_rules.specs.Indicated.{indicated_in, texts_in};
ghost use Rattle.vd_value_rules.specs.declared.forms.IndicatedForm.{IndicatedForm as Form};
ghost use Rattle.vd_value_rules.specs.Found.{found};
ghost use Rattle.vd_value_rules.specs.Made.{later_array};
ghost use Rattle.vd_known_designs.specs.Designs.{IsReady, Knows};
ghost use Rattle.vd_known_forms.specs.Arrays.{IsIndex, IsIndexWithin, array_by, ranged};
ghost use Rattle.vd_meaning.specs.Facets.{Meaning, nth};
ghost use Rattle.vd_meaning.specs.Names.{scalars_of};
ghost use Rattle.vd_static_values.specs.Entries.{IsFound};
ghost use Rattle.vd_static_values.specs.Names.{IsName};
ghost use Rattle.vd_static_values.specs.Nodes.{AreNodes};
ghost use Rattle.vd_static_values.specs.Senses.{IsSense};
ghost use Rattle.vd_static_names.specs.Known.{IsWithin};
ghost use Rattle.vd_static_parts.specs.Made.{IsSound};
ghost use Rattle.vd_value_rules.specs.Designs.{Design};
ghost use Rattle.vd_value_rules.specs.Knowledge.{Known, any_bounds, array_defined, array_or_later, own_range};

use vd_composites::{Bounds, ScalarSubtype};
use vd_forest::{Cursor, Store};
use vd_known_designs::KnownDesign;
use vd_known_indications::indications::early_range;
use vd_static_names::subtypes::{scalar_number, scalar_of};
use vd_static_values::{KnownName, Node, Sense};
use vd_value_rules::subtypes::scalar;
use vd_value_rules::{IndicatedForm, StaticSort};

/// The index of an array type.
#[derive(Clone, Copy)]
pub(crate) enum Index {
    /// Of any bounds, by the number of its subtype, which is scalar.
    OfAnyBounds(u32),
    /// With a range, where that is locally static and doesn't stop, and with the literals of its type by their number.
    WithRange {
        range: Option<ScalarSubtype>,
        literals: u32,
    },
}

/// The index of an array type, and how static it is.
#[derive(Clone, Copy)]
pub(crate) struct ArrayIndex {
    pub(crate) index: Index,
    pub(crate) known: StaticSort,
}

/// An index whose bounds are known later.
fn known_later() -> Index
    ensures within { (subtypes : List (Forest Form)) → IsIndexWithin subtypes result }
    ensures is { (subtypes : List (Forest Form)) (known : Static) (element : Indicated) → array_by subtypes result known element ≡ later_array known element }
{
    Index::WithRange {
        range: None,
        literals: 0,
    }
}

/// The literals of a scalar subtype, by their number.
fn literals_number(subtypes: &Store<IndicatedForm>, number: u32) -> u32
    requires { number ≤ length subtypes.now }
    ensures within { result ≤ length subtypes.now }
    ensures texts { texts_in (at subtypes.now result) ≡ literals_of (indicated_in (at subtypes.now number)).make }
{
    let Some(head) = subtypes.head(number) else {
        return 0;
    };
    match head.form {
        IndicatedForm::Scalar { .. } => head.parts,
        _ => 0,
    }
}

/// The type of a subtype with a range of its own, where both are there.
fn with_range(subtype: &Cursor<'_, IndicatedForm>, range: Option<Bounds>) -> Option<ScalarSubtype>
    ensures { (r : Got AnyBounds) → range ≡ found r → IsFound result (ranged (scalars_of (indicated_in subtype.now).subtype) r) }
{
    let subtype = scalar(subtype)?;
    let range = range?;
    Some(ScalarSubtype {
        of_type: subtype.of_type,
        range,
    })
}

/// An index with a range.
fn of_range(design: &KnownDesign<'_, '_>, sense: &Sense<'_>) -> Index
    requires ready { IsReady design.now }
    ensures within { IsIndexWithin design.now.table.subtypes result }
    ensures is { (d : Design) (k : Known) (ks : List Known) (m : Meaning) (element : Indicated) → Knows d design.now (k ∷ ks)
        → IsSense design.now.table.subtypes k.env sense.now m
        → array_by design.now.table.subtypes result (m.known k.env) element ≡ array_or_later (own_range m k.env element) (m.known k.env) element }
{
    let Some(mark) = sense.mark else {
        return known_later();
    };
    let number = design.table.own(mark.number());
    let subtypes = design.table.subtypes.store();
    let range = with_range(&subtypes.cursor(number), early_range(sense));
    Index::WithRange {
        range,
        literals: literals_number(subtypes, number),
    }
}

/// An index of any bounds, by the name of its subtype.
fn of_any_bounds(subtypes: &Store<IndicatedForm>, name: &KnownName) -> Index
    requires within { IsWithin subtypes.now name.now }
    ensures within { IsIndexWithin subtypes.now result }
    ensures is { (e : Env) (m : Meaning) (known : Static) (element : Indicated) → IsName subtypes.now e name.now m.name
        → array_by subtypes.now result known element ≡ array_or_later (any_bounds m e element) known element }
{
    if !name.local_slices || !name.has_subtype {
        return known_later();
    }
    match scalar_of(subtypes, name.subtype) {
        Some(_) => Index::OfAnyBounds(scalar_number(name.subtype)),
        None => known_later(),
    }
}

/// The index that a node stands for.
fn index_in(design: &KnownDesign<'_, '_>, sense: &Sense<'_>) -> ArrayIndex
    requires ready { IsReady design.now }
    requires within { IsWithin design.now.table.subtypes sense.now.name }
    ensures within { IsIndexWithin design.now.table.subtypes result.index }
    ensures is { (d : Design) (k : Known) (ks : List Known) (m : Meaning) → Knows d design.now (k ∷ ks)
        → IsSense design.now.table.subtypes k.env sense.now m → IsIndex design.now.table.subtypes result m k.env }
{
    let index = if sense.is_open {
        of_any_bounds(design.table.subtypes.store(), &sense.name)
    } else {
        of_range(design, sense)
    };
    ArrayIndex {
        index,
        known: sense.known,
    }
}

/// The index of an array type with these parts.
pub(crate) fn index_of(design: &KnownDesign<'_, '_>, parts: &[Node<'_>]) -> ArrayIndex
    requires ready { IsReady design.now }
    requires sound { All (IsSound design.now.table.subtypes) parts.now }
    ensures within { IsIndexWithin design.now.table.subtypes result.index }
    ensures is { (d : Design) (k : Known) (ks : List Known) (ms : List Meaning) → Knows d design.now (k ∷ ks)
        → AreNodes design.now.table.subtypes k.env parts.now ms → IsIndex design.now.table.subtypes result (nth 0 ms) k.env }
{
    match parts.get(0) {
        Some(part) => index_in(design, &part.sense),
        None => ArrayIndex {
            index: known_later(),
            known: StaticSort::never(),
        },
    }
}
