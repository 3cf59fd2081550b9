//! The actuals of generics that are types. (IEEE 1076-2019, interface type declarations; generic map aspects)

ghost use Rattle.std.specs.Prelude.{◌≡◌, ◌∷◌, IfOk, List, OnOk, Some, ℕ, nat_eq};
ghost use Rattle.std.specs.HashMap.{get};
ghost use Rattle.vd_meaning.specs.Elaborations.{copied};
ghost use Rattle.vd_known_designs.specs.Designs.{IsReady, Knows};
ghost use Rattle.vd_known_indications.specs.Places.{Finds};
ghost use Rattle.vd_walks.specs.Least.{least_of};
ghost use Rattle.vd_meaning.specs.Names.{number_or};
ghost use Rattle.vd_port_modes.specs.Source.{design_in};
ghost use Rattle.vd_value_rules.specs.Groups.{types};
ghost use Rattle.vd_value_rules.specs.Designs.{Design};
ghost use Rattle.vd_value_rules.specs.Knowledge.{Known};
ghost use Rattle.vd_value_rules.specs.Standings.{is_bounded_object};
ghost use Rattle.vd_value_rules.specs.Types.{base_of as base_in, copy_of as copy_in, is_refused_type as type_is_refused, is_type_generic as is_class_of_types, may_be_actual as actual_may_be, type_actuals as actuals_refused, types_broken, types_of_instance};

use crate::copies::copies_of;
use crate::elements::{first_number, formal_of_element, further_numbers, place_of_actual};
use std::alloc::{AllocError, Global};
use std::collections::HashMap;
use vd_bytes::Refused;
use vd_declarations::{Class, DeclId};
use vd_forest::{Cursor, Opened};
use vd_forms::Form;
use vd_known_designs::KnownDesign;
use vd_known_generics::{actual_mark, generics_of};
use vd_known_indications::Surroundings;
use vd_operations::{class_of, declaration_of, mark_of, number_made};
use vd_port_modes::Interfaces;
use vd_resolved::Resolved;
use vd_trees::Revision;
use vd_value_rules::subtypes::has_bounds;
use vd_value_rules::{Firsts, nothing_refused, refused_if};
use vd_walks::lesser;

/// Whether declarations of a class are types that are generics.
fn is_type_generic(class: Class) -> bool
    ensures { result ≡ is_class_of_types class }
{
    matches!(class, Class::GenericType)
}

/// The type of a type or subtype.
fn base_of(design: &KnownDesign<'_, '_>, number: u32) -> u32
    ensures { (d : Design) (ks : List Known) → Knows d design.now ks → result ≡ base_in d number }
{
    match mark_of(design.declarations, number) {
        Some(mark) => mark.number(),
        None => number,
    }
}

/// Whether a subtype is no array of any bounds.
fn is_bounded(design: &KnownDesign<'_, '_>, number: u32) -> bool
    requires ready { IsReady design.now }
    ensures { (d : Design) (k : Known) (ks : List Known) → Knows d design.now (k ∷ ks) → result ≡ is_bounded_object k.env number }
{
    let own = design.table.own(number);
    has_bounds(&design.table.subtypes.store().cursor(own))
}

/// Whether a type or subtype may be the actual of a type.
fn may_be_actual(design: &KnownDesign<'_, '_>, number: u32) -> bool
    requires ready { IsReady design.now }
    ensures { (d : Design) (k : Known) (ks : List Known) → Knows d design.now (k ∷ ks) → result ≡ actual_may_be d k.env number }
{
    let base = base_of(design, number);
    let is_bounded = is_bounded(design, number);
    is_bounded && !is_type_generic(class_of(design.declarations, base))
}

/// Whether a formal is a type and may not have the actual for which the instance declares a copy.
fn is_refused_by(design: &KnownDesign<'_, '_>, formal: DeclId, copy: u32) -> bool
    requires ready { IsReady design.now }
    ensures { (d : Design) (k : Known) (ks : List Known) → Knows d design.now (k ∷ ks) → result ≡ type_is_refused d k.env (Some formal) (Some copy) }
{
    let mark = actual_mark(design.declarations, DeclId::of(copy));
    let may_be = may_be_actual(design, mark.number());
    is_type_generic(class_of(design.declarations, formal.number())) && !may_be
}

/// The same for a copy that may not be there.
fn is_refused_of(design: &KnownDesign<'_, '_>, formal: DeclId, copy: Option<u32>) -> bool
    requires ready { IsReady design.now }
    ensures { (d : Design) (k : Known) (ks : List Known) → Knows d design.now (k ∷ ks) → result ≡ type_is_refused d k.env (Some formal) copy }
{
    match copy {
        Some(copy) => is_refused_by(design, formal, copy),
        None => false,
    }
}

/// The same for a formal that may not be there.
fn is_refused_type(design: &KnownDesign<'_, '_>, formal: Option<DeclId>, copy: Option<u32>) -> bool
    requires ready { IsReady design.now }
    ensures { (d : Design) (k : Known) (ks : List Known) → Knows d design.now (k ∷ ks) → result ≡ type_is_refused d k.env formal copy }
{
    match formal {
        Some(formal) => is_refused_of(design, formal, copy),
        None => false,
    }
}

/// What the instance declares for a formal.
fn copy_of(copies: &HashMap<u32, u32>, formal: &Option<DeclId>) -> Option<u32>
    ensures { (cs : List (ℕ × ℕ)) → ((n : ℕ) → get nat_eq copies.now n ≡ copied cs n) → result ≡ copy_in cs formal.now }
{
    match formal {
        Some(formal) => copies.get(&formal.number()).copied(),
        None => None,
    }
}

/// The first actual of a type that isn't allowed.
fn type_actuals(
    design: &KnownDesign<'_, '_>,
    copies: &HashMap<u32, u32>,
    generics: &[DeclId],
    elements: &Cursor<'_, Resolved>,
) -> Option<Refused>
    requires ready { IsReady design.now }
    ensures { (d : Design) (k : Known) (ks : List Known) (cs : List (ℕ × ℕ)) → Knows d design.now (k ∷ ks)
        → ((n : ℕ) → get nat_eq copies.now n ≡ copied cs n) → result ≡ least_of (actuals_refused d k.env cs generics.now elements.now) }
{
    let mut found = None;
    let mut left = generics;
    let mut rest = elements.fork();
    while let Some(first) = rest.open() {
        let formal = formal_of_element(&rest, first_number(left));
        let copy = copy_of(copies, &formal);
        let is_refused = is_refused_type(design, formal, copy);
        found = lesser(found, refused_if(is_refused, place_of_actual(&first), 415));
        left = further_numbers(left);
        rest = first.next;
    }
    found
}

/// The first actual of a type that isn't allowed in an instance.
fn instance_refused(
    design: &KnownDesign<'_, '_>,
    alloc: Global,
    generic: DeclId,
    instance: DeclId,
    elements: &Cursor<'_, Resolved>,
) -> Result<Option<Refused>, AllocError>
    requires ready { IsReady design.now }
    ensures { (d : Design) (k : Known) (ks : List Known) → Knows d design.now (k ∷ ks)
        → IfOk result (λ found. found ≡ least_of (types_of_instance d k.env generic instance elements.now)) }
{
    let generics = generics_of(design.declarations, generic);
    let copies = copies_of(alloc, generics, generics_of(design.declarations, instance))?;
    Ok(type_actuals(design, &copies, generics, elements))
}

/// The number of a declaration; 0 where there is none.
fn number_or_none(declaration: Option<DeclId>) -> DeclId
    ensures { result ≡ number_or declaration }
{
    match declaration {
        Some(number) => number,
        None => DeclId::of(0),
    }
}

/// The first actual of a type that isn't allowed in a node that is an instance.
fn types_refused(
    design: &KnownDesign<'_, '_>,
    alloc: Global,
    node: &Opened<'_, Resolved>,
) -> Result<Option<Refused>, AllocError>
    requires ready { IsReady design.now }
    ensures { (d : Design) (k : Known) (ks : List Known) → Knows d design.now (k ∷ ks)
        → IfOk result (λ found. found ≡ least_of (types_broken node.now.form.form d k.env node.now.form node.now.parts)) }
{
    match node.form.form {
        Form::PackageInstantiation => {
            let generic = number_or_none(declaration_of(&node.parts.skip(1)));
            let instance = number_made(&node.form, &node.parts);
            let elements = node.parts.skip(2).parts();
            instance_refused(design, alloc, generic, instance, &elements)
        }
        Form::FunctionInstantiation => {
            let generic = number_or_none(declaration_of(&node.parts.skip(2)));
            let instance = number_made(&node.form, &node.parts.skip(1));
            let elements = node.parts.skip(3).parts();
            instance_refused(design, alloc, generic, instance, &elements)
        }
        _ => Ok(None),
    }
}

/// The first refusals of a node.
pub fn type_refusals(
    design: &mut KnownDesign<'_, '_>,
    interfaces: &Interfaces<'_>,
    alloc: Global,
    _around: &Surroundings,
    node: &Opened<'_, Resolved>,
) -> Result<Firsts, AllocError>
    requires ready { IsReady design.old }
    ensures finds { Finds types (design_in interfaces.now) design.old _around.now node.now result }
    ensures knows { (d : Design) (ks : List Known) → Knows d design.old ks → OnOk result (Knows d design.new ks) }
{
    match interfaces.revision() {
        Revision::V1993 => Ok(nothing_refused()),
        Revision::V2019 => {
            let of_rules = types_refused(design, alloc, node)?;
            Ok(Firsts {
                of_names: None,
                of_rules,
            })
        }
    }
}
