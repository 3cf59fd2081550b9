//! Aggregates: their choices are locally static, none is given twice, none is left out, and `others` has bounds.

ghost use Rattle.std.specs.Prelude.{◌≡◌, ◌∷◌, IfOk, List, OnOk};
ghost use Rattle.vd_known_designs.specs.Designs.{IsReady, Knows};
ghost use Rattle.vd_known_indications.specs.Places.{Finds};
ghost use Rattle.vd_walks.specs.Least.{least_of};
ghost use Rattle.vd_port_modes.specs.Source.{design_in};
ghost use Rattle.vd_value_rules.specs.Groups.{aggregates};
ghost use Rattle.vd_value_rules.specs.Aggregates.{aggregate_broken, broken_aggregate, is_record_class, unless_one};
ghost use Rattle.vd_value_rules.specs.Designs.{Design, class_of as class_in};
ghost use Rattle.vd_value_rules.specs.Knowledge.{Known};
ghost use Rattle.vd_value_rules.specs.Standings.{State, is_bounded as gives_bounds, is_bounded_object, standing};
ghost use Rattle.vd_meaning.specs.Names.{number_or};

use crate::arrays::refused_array;
use crate::elements::is_one_element;
use crate::fields::refused_record;
use std::alloc::{AllocError, Global};
use vd_bytes::{Place, Refused};
use vd_declarations::{Class, DeclId, TypeId};
use vd_forest::{Cursor, Opened};
use vd_forms::Form;
use vd_known_designs::KnownDesign;
use vd_known_indications::Surroundings;
use vd_operations::tables::{class_of, parameters_of};
use vd_port_modes::Interfaces;
use vd_resolved::Resolved;
use vd_static_parts::numbers::number_or;
use vd_value_rules::Firsts;
use vd_value_rules::subtypes::has_bounds;

/// Whether what a declaration stands for has bounds.
fn has_bounded_subtype(design: &KnownDesign<'_, '_>, declaration: Option<DeclId>) -> bool
    requires ready { IsReady design.now }
    ensures { (d : Design) (k : Known) (ks : List Known) → Knows d design.now (k ∷ ks) → result ≡ is_bounded_object k.env (number_or declaration) }
{
    let own = design.table.own(number_or(declaration));
    has_bounds(&design.table.subtypes.store().cursor(own))
}

/// Whether a type is one of records.
fn is_record(design: &KnownDesign<'_, '_>, mark: TypeId) -> bool
    ensures { (d : Design) (ks : List Known) → Knows d design.now ks → result ≡ is_record_class (class_in d mark) }
{
    matches!(
        class_of(design.declarations, mark.number()),
        Class::RecordType
    )
}

/// The first refusal of an aggregate of a type.
fn refused_of_type(
    design: &mut KnownDesign<'_, '_>,
    alloc: Global,
    mark: Option<TypeId>,
    is_bounded: bool,
    place: Place,
    elements: &Cursor<'_, Resolved>,
) -> Result<Option<Refused>, AllocError>
    requires ready { IsReady design.old }
    ensures refused { (d : Design) (k : Known) (ks : List Known) → Knows d design.old (k ∷ ks)
        → IfOk result (λ found. found ≡ least_of (aggregate_broken d k.env mark is_bounded place elements.now)) }
    ensures knows { (d : Design) (ks : List Known) → Knows d design.old ks → OnOk result (Knows d design.new ks) }
{
    let Some(mark) = mark else {
        return Ok(None);
    };
    if is_record(design, mark) {
        let count = parameters_of(design.declarations, mark.number()).len();
        refused_record(design, alloc, count, place, elements)
    } else {
        refused_array(design, alloc, is_bounded, place, elements)
    }
}

/// The first refusal of what stands in brackets, which is no aggregate where it is one expression.
fn refused_brackets(
    design: &mut KnownDesign<'_, '_>,
    alloc: Global,
    mark: Option<TypeId>,
    is_bounded: bool,
    place: Place,
    elements: &Cursor<'_, Resolved>,
) -> Result<Option<Refused>, AllocError>
    requires ready { IsReady design.old }
    ensures refused { (d : Design) (k : Known) (ks : List Known) → Knows d design.old (k ∷ ks)
        → IfOk result (λ found. found ≡ least_of (unless_one d elements.now (aggregate_broken d k.env mark is_bounded place elements.now))) }
    ensures knows { (d : Design) (ks : List Known) → Knows d design.old ks → OnOk result (Knows d design.new ks) }
{
    if is_one_element(elements) {
        return Ok(None);
    }
    refused_of_type(design, alloc, mark, is_bounded, place, elements)
}

/// The first refusal of a node.
fn refused_aggregate(
    design: &mut KnownDesign<'_, '_>,
    alloc: Global,
    around: &Surroundings,
    node: &Opened<'_, Resolved>,
) -> Result<Option<Refused>, AllocError>
    requires ready { IsReady design.old }
    ensures refused { (d : Design) (s : State) (ks : List Known) → Knows d design.old (s.known ∷ ks) → gives_bounds (standing s) ≡ around.now.is_bounded
        → IfOk result (λ found. found ≡ least_of (broken_aggregate d s node.now.form node.now.place node.now.parts)) }
    ensures knows { (d : Design) (ks : List Known) → Knows d design.old ks → OnOk result (Knows d design.new ks) }
{
    let mark = node.form.mark;
    match node.form.form {
        Form::Aggregate => {
            refused_brackets(
                design,
                alloc,
                mark,
                around.is_bounded,
                node.place,
                &node.parts,
            )
        }
        Form::Qualification => {
            let is_bounded = has_bounded_subtype(design, node.form.declaration);
            refused_brackets(design, alloc, mark, is_bounded, node.place, &node.parts)
        }
        _ => Ok(None),
    }
}

/// The first refusals of a node.
pub fn aggregate_refusals(
    design: &mut KnownDesign<'_, '_>,
    interfaces: &Interfaces<'_>,
    alloc: Global,
    around: &Surroundings,
    node: &Opened<'_, Resolved>,
) -> Result<Firsts, AllocError>
    requires ready { IsReady design.old }
    ensures finds { Finds aggregates (design_in interfaces.now) design.old around.now node.now result }
    ensures knows { (d : Design) (ks : List Known) → Knows d design.old ks → OnOk result (Knows d design.new ks) }
{
    let of_rules = refused_aggregate(design, alloc, around, node)?;
    Ok(Firsts {
        of_names: None,
        of_rules,
    })
}
