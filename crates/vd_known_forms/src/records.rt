//! Record types. (IEEE 1076, record types)

ghost use Rattle.std.specs.Prelude.{◌≡◌, ◌≤◌, ◌∷◌, [], IfOk, List, OnOk, false, length, true};
ghost use Rattle.vd_environments.specs.Environments.{Field};
ghost use Rattle.vd_forest.specs.Store.{Extends, at};
ghost use Rattle.vd_value_rules.specs.Indicated.{fields_in};
ghost use Rattle.vd_value_rules.specs.Made.{Indicates};
ghost use Rattle.vd_known_designs.specs.Designs.{AreIndicated, IsReady, Knows};
ghost use Rattle.vd_known_forms.specs.Fields.{AreFields, in_front};
ghost use Rattle.vd_meaning.specs.Declarations.{fields_named, record_type};
ghost use Rattle.vd_value_rules.specs.Designs.{Design};
ghost use Rattle.vd_value_rules.specs.Knowledge.{Known, fields_defined, indicated, meaning_at, parts_at};

use crate::lists::add_fields;
use crate::texts::texts_of_first;
use std::alloc::{AllocError, Global};
use vd_forest::Cursor;
use vd_known_designs::{KnownDesign, SubtypeTables, TwoSubtypes};
use vd_known_indications::indicated_twice;
use vd_resolved::Resolved;

/// The fields of an element in front of others, the last one first.
#[tactic(auto, using(vd_forest::proofs::StoreLemmas::growing))]
fn add_element(
    design: &mut KnownDesign<'_, '_>,
    alloc: Global,
    element: &Cursor<'_, Resolved>,
    behind: TwoSubtypes,
) -> Result<TwoSubtypes, AllocError>
    requires ready { IsReady design.old }
    requires own_in { behind.own ≤ length design.old.table.subtypes }
    requires choosing_in { behind.choosing ≤ length design.old.table.subtypes }
    ensures fields { (d : Design) (k : Known) (ks : List Known) → Knows d design.old (k ∷ ks) → let names = (meaning_at d 0 element.now).texts in
        IfOk result (λ x. AreFields design.new.table.subtypes x
        (in_front (fields_named names (indicated d false k (parts_at 1 element.now))) (fields_in (at design.old.table.subtypes behind.own)))
        (in_front (fields_named names (indicated d true k (parts_at 1 element.now))) (fields_in (at design.old.table.subtypes behind.choosing)))) }
    ensures knows { (d : Design) (ks : List Known) → Knows d design.old ks → OnOk result (Knows d design.new ks) }
    ensures extends { OnOk result (Extends design.old.table.subtypes design.new.table.subtypes) }
{
    let names = texts_of_first(alloc, element)?;
    let subtype = indicated_twice(design, alloc, &element.skip(1).parts())?;
    let subtypes = &mut design.table.subtypes;
    let own = add_fields(subtypes, &names, subtype.own, behind.own)?;
    let choosing = add_fields(subtypes, &names, subtype.choosing, behind.choosing)?;
    Ok(TwoSubtypes { own, choosing })
}

/// The fields of some elements, the last one first.
#[tactic(auto, using(vd_forest::proofs::StoreLemmas::growing))]
fn all_fields(
    design: &mut KnownDesign<'_, '_>,
    alloc: Global,
    elements: &Cursor<'_, Resolved>,
) -> Result<TwoSubtypes, AllocError>
    requires ready { IsReady design.old }
    ensures fields { (d : Design) (k : Known) (ks : List Known) → Knows d design.old (k ∷ ks) → IfOk result (λ x. AreFields design.new.table.subtypes x
        (in_front (fields_defined d false k elements.now) []) (in_front (fields_defined d true k elements.now) [])) }
    ensures knows { (d : Design) (ks : List Known) → Knows d design.old ks → OnOk result (Knows d design.new ks) }
    ensures extends { OnOk result (Extends design.old.table.subtypes design.new.table.subtypes) }
{
    let mut fields = TwoSubtypes {
        own: 0,
        choosing: 0,
    };
    let mut rest = elements.fork();
    while let Some(first) = rest.open() {
        fields = add_element(design, alloc, &first.parts, fields)?;
        rest = first.next;
    }
    Ok(fields)
}

/// The record type of fields that are listed with the last one first.
#[tactic(auto, using(vd_forest::proofs::StoreLemmas::growing))]
fn type_of_fields(subtypes: &mut SubtypeTables, fields: u32) -> Result<u32, AllocError>
    requires { fields ≤ length subtypes.old }
    ensures indicates { (fs : List Field) → fields_in (at subtypes.old fields) ≡ in_front fs [] → IfOk result (λ number. Indicates subtypes.new number (record_type fs)) }
    ensures extends { Extends subtypes.old subtypes.new }
{
    let listed = subtypes.turned(fields)?;
    subtypes.record_type(listed)
}

/// The type of these elements.
#[tactic(auto, using(vd_forest::proofs::StoreLemmas::growing))]
pub(crate) fn record_defined(
    design: &mut KnownDesign<'_, '_>,
    alloc: Global,
    elements: &Cursor<'_, Resolved>,
) -> Result<TwoSubtypes, AllocError>
    requires ready { IsReady design.old }
    ensures indicated { (d : Design) (k : Known) (ks : List Known) → Knows d design.old (k ∷ ks) → IfOk result (λ x. AreIndicated design.new.table.subtypes x (record {
      own = record_type (fields_defined d false k elements.now);
      choosing = record_type (fields_defined d true k elements.now);
    })) }
    ensures knows { (d : Design) (ks : List Known) → Knows d design.old ks → OnOk result (Knows d design.new ks) }
    ensures extends { OnOk result (Extends design.old.table.subtypes design.new.table.subtypes) }
{
    let fields = all_fields(design, alloc, elements)?;
    let subtypes = &mut design.table.subtypes;
    let own = type_of_fields(subtypes, fields.own)?;
    let choosing = type_of_fields(subtypes, fields.choosing)?;
    Ok(TwoSubtypes { own, choosing })
}
