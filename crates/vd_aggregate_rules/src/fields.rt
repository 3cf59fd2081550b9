//! Aggregates of records: elements by their positions.

ghost use Rattle.indexmap.specs.IndexSet.{contains};
ghost use Rattle.std.specs.Prelude.{◌≡◌, ◌++◌, ◌∷◌, IfOk, List, OnOk, map, nat_eq, suc, ℕ};
ghost use Rattle.vd_aggregate_rules.specs.Fields.{field_given, fields_broken};
ghost use Rattle.vd_known_designs.specs.Designs.{IsReady, Knows};
ghost use Rattle.vd_walks.specs.Least.{least_of};
ghost use Rattle.vd_meaning.specs.Facets.{nth};
ghost use Rattle.vd_meaning.specs.Meanings.{meanings};
ghost use Rattle.vd_value_rules.specs.Aggregates.{FieldGiven, fields_given as given_fields, fields_of_choices, fields_of_form, is_given_at, record_broken, record_leaves_out};
ghost use Rattle.vd_value_rules.specs.Designs.{Design};
ghost use Rattle.vd_value_rules.specs.Knowledge.{Known};

use crate::elements::{has_others, is_left_out};
use indexmap::IndexSet;
use std::alloc::{AllocError, Global};
use vd_bytes::{Place, Refused};
use vd_forest::{Cursor, Opened};
use vd_forms::Form;
use vd_known_designs::KnownDesign;
use vd_known_indications::node;
use vd_resolved::Resolved;
use vd_value_rules::refused_if;
use vd_walks::lesser;

/// An element that is given, by its position, and where.
#[derive(Clone, Copy)]
pub struct Field {
    pub position: u64,
    pub place: Place,
}

/// The position of the element that the first of some choices names.
fn position_of(
    design: &mut KnownDesign<'_, '_>,
    alloc: Global,
    choices: &Cursor<'_, Resolved>,
) -> Result<u64, AllocError>
    requires ready { IsReady design.old }
    ensures position { (d : Design) (k : Known) (ks : List Known) → Knows d design.old (k ∷ ks)
        → IfOk result (λ n. n ≡ (nth 0 (meanings d.table choices.now)).position) }
    ensures knows { (d : Design) (ks : List Known) → Knows d design.old ks → Knows d design.new ks }
{
    let node = node(design, alloc, choices)?;
    Ok(u64::from(node.sense.position))
}

/// The elements that some choices name.
fn choice_fields(
    design: &mut KnownDesign<'_, '_>,
    alloc: Global,
    choices: &Cursor<'_, Resolved>,
    fields: &mut Vec<Field>,
) -> Result<(), AllocError>
    requires ready { IsReady design.old }
    ensures fields { (d : Design) (k : Known) (ks : List Known) → Knows d design.old (k ∷ ks)
        → OnOk result (map field_given fields.new.items ≡ map field_given fields.old.items ++ fields_of_choices d choices.now) }
    ensures knows { (d : Design) (ks : List Known) → Knows d design.old ks → OnOk result (Knows d design.new ks) }
{
    let mut rest = choices.fork();
    while let Some(first) = rest.open() {
        let position = position_of(design, alloc, &rest)?;
        fields.push(Field {
            position,
            place: first.place,
        })?;
        rest = first.next;
    }
    Ok(())
}

/// The elements that an element of an aggregate stands for, with so many elements in front of it.
fn element_fields(
    design: &mut KnownDesign<'_, '_>,
    alloc: Global,
    before: u64,
    element: &Opened<'_, Resolved>,
    fields: &mut Vec<Field>,
) -> Result<(), AllocError>
    requires ready { IsReady design.old }
    ensures fields { (d : Design) (k : Known) (ks : List Known) → Knows d design.old (k ∷ ks)
        → OnOk result (map field_given fields.new.items
        ≡ map field_given fields.old.items ++ fields_of_form element.now.form.form d before element.now.place element.now.parts) }
    ensures knows { (d : Design) (ks : List Known) → Knows d design.old ks → OnOk result (Knows d design.new ks) }
{
    match element.form.form {
        Form::Association => choice_fields(design, alloc, &element.parts.parts(), fields),
        Form::OthersAssociation => Ok(()),
        _ => {
            fields.push(Field {
                position: before,
                place: element.place,
            })?;
            Ok(())
        }
    }
}

/// The elements that an aggregate gives, in order.
fn fields_given(
    design: &mut KnownDesign<'_, '_>,
    alloc: Global,
    elements: &Cursor<'_, Resolved>,
) -> Result<Vec<Field>, AllocError>
    requires ready { IsReady design.old }
    ensures fields { (d : Design) (k : Known) (ks : List Known) → Knows d design.old (k ∷ ks)
        → IfOk result (λ xs. map field_given xs.items ≡ given_fields d 0 elements.now) }
    ensures knows { (d : Design) (ks : List Known) → Knows d design.old ks → OnOk result (Knows d design.new ks) }
{
    let mut fields = Vec::new(alloc);
    let mut before = 0;
    let mut rest = elements.fork();
    while let Some(first) = rest.open() {
        element_fields(design, alloc, before, &first, &mut fields)?;
        before = after(before)?;
        rest = first.next;
    }
    Ok(fields)
}

/// One element more. So many never stand in memory that the sum doesn't fit.
fn after(before: u64) -> Result<u64, AllocError>
    ensures { IfOk result (λ next. next ≡ suc before) }
{
    match before.checked_add(1) {
        Some(next) => Ok(next),
        None => Err(AllocError),
    }
}

/// Whether one of the first so many elements isn't given.
fn is_one_missing(seen: &IndexSet<u64>, count: usize) -> bool
    ensures { (fs : List FieldGiven) → ((k : ℕ) → contains nat_eq seen.now k ≡ is_given_at k fs) → result ≡ record_leaves_out count fs }
{
    let mut left = count;
    while left > 0 {
        left -= 1;
        if !seen.contains(&(left as u64)) {
            return true;
        }
    }
    false
}

/// The first refusal of elements of a record that has so many, perhaps with `others`.
fn refused_fields(
    alloc: Global,
    fields: &[Field],
    has_others: bool,
    count: usize,
    place: Place,
) -> Result<Option<Refused>, AllocError>
    ensures { IfOk result (λ found. found ≡ least_of (fields_broken count place has_others (map field_given fields.now))) }
{
    let mut seen = IndexSet::new(alloc);
    let mut found = None;
    for field in fields {
        let is_new = seen.insert(field.position)?;
        let refused = refused_if(!is_new, field.place, 404);
        found = lesser(found, refused);
    }
    let is_missing = is_one_missing(&seen, count);
    let missing = refused_if(is_left_out(has_others, is_missing), place, 403);
    Ok(lesser(found, missing))
}

/// The first refusal of an aggregate of a record with so many elements.
pub(crate) fn refused_record(
    design: &mut KnownDesign<'_, '_>,
    alloc: Global,
    count: usize,
    place: Place,
    elements: &Cursor<'_, Resolved>,
) -> Result<Option<Refused>, AllocError>
    requires ready { IsReady design.old }
    ensures refused { (d : Design) (k : Known) (ks : List Known) → Knows d design.old (k ∷ ks)
        → IfOk result (λ found. found ≡ least_of (record_broken d count place elements.now)) }
    ensures knows { (d : Design) (ks : List Known) → Knows d design.old ks → OnOk result (Knows d design.new ks) }
{
    let fields = fields_given(design, alloc, elements)?;
    refused_fields(alloc, &fields, has_others(elements), count, place)
}
