//! What must be known in elaboration, and the names of sensitivity lists. (IEEE 1076, generate statements; interface declarations; package
//! instantiation declarations; sensitivity lists)

ghost use Rattle.std.specs.Prelude.{◌≡◌, ◌∷◌, IfOk, List, OnOk};
ghost use Rattle.vd_environments.specs.Environments.{is_static as known_in_elaboration};
ghost use Rattle.vd_forms.specs.declared.form.Form.TheVariants.{PackageInstantiation};
ghost use Rattle.vd_value_rules.specs.Indicated.{static_of};
ghost use Rattle.vd_known_designs.specs.Designs.{IsReady, Knows};
ghost use Rattle.vd_known_indications.specs.Places.{Finds};
ghost use Rattle.vd_walks.specs.Least.{least_of};
ghost use Rattle.vd_meaning.specs.Facets.{nth};
ghost use Rattle.vd_meaning.specs.Meanings.{meanings};
ghost use Rattle.vd_meaning.specs.Tables.{table};
ghost use Rattle.vd_trees.specs.declared.revision.Revision.{Revision};
ghost use Rattle.vd_port_modes.specs.Source.{design_in};
ghost use Rattle.vd_value_rules.specs.Groups.{static_expressions};
ghost use Rattle.vd_value_rules.specs.Designs.{Design};
ghost use Rattle.vd_value_rules.specs.Knowledge.{Known};
ghost use Rattle.vd_value_rules.specs.Standings.{generics_of as generics_in};
ghost use Rattle.vd_value_rules.specs.StaticNames.{is_later_actual, is_static_signal as is_signal_and_whole, is_of_constant as is_constant_in, later_actuals_of, meaning_of_actual, not_global as part_not_global, not_global_if_there as part_not_global_if_there, not_static_signals, sensitivity_broken, static_broken};

use crate::elements::{
    first_number, formal_of_element, further_numbers, place_at, place_of_actual,
};
use std::alloc::{AllocError, Global};
use vd_bytes::Refused;
use vd_declarations::{Class, DeclId, Declaration};
use vd_forest::{Cursor, Opened};
use vd_forms::Form;
use vd_known_designs::KnownDesign;
use vd_known_indications::{Surroundings, node};
use vd_operations::{class_of, declaration_of, is_present};
use vd_port_modes::Interfaces;
use vd_resolved::Resolved;
use vd_value_rules::{Firsts, StaticSort, refused_if};
use vd_walks::lesser;

/// Whether something is known in elaboration.
fn is_static(known: StaticSort) -> bool
    ensures { result ≡ known_in_elaboration (static_of known) }
{
    known.is_local || known.is_global
}

/// The part with a number, if it isn't known in elaboration.
fn not_global(
    design: &mut KnownDesign<'_, '_>,
    alloc: Global,
    number: u32,
    parts: &Cursor<'_, Resolved>,
) -> Result<Option<Refused>, AllocError>
    requires ready { IsReady design.old }
    ensures finds { (d : Design) (k : Known) (ks : List Known) → Knows d design.old (k ∷ ks)
        → IfOk result (λ found. found ≡ least_of (part_not_global d k.env number parts.now)) }
    ensures knows { (d : Design) (ks : List Known) → Knows d design.old ks → Knows d design.new ks }
{
    let part = node(design, alloc, &parts.skip(number))?;
    let is_later = !is_static(part.sense.known);
    Ok(refused_if(is_later, place_at(number, parts), 406))
}

/// The same, where the part is there.
fn not_global_if_there(
    design: &mut KnownDesign<'_, '_>,
    alloc: Global,
    number: u32,
    parts: &Cursor<'_, Resolved>,
) -> Result<Option<Refused>, AllocError>
    requires ready { IsReady design.old }
    ensures finds { (d : Design) (k : Known) (ks : List Known) → Knows d design.old (k ∷ ks)
        → IfOk result (λ found. found ≡ least_of (part_not_global_if_there d k.env number parts.now)) }
    ensures knows { (d : Design) (ks : List Known) → Knows d design.old ks → Knows d design.new ks }
{
    if !is_present(&parts.skip(number)) {
        return Ok(None);
    }
    not_global(design, alloc, number, parts)
}

// ---- generics of instances of packages

/// Whether a formal is a constant.
fn is_of_constant(design: &KnownDesign<'_, '_>, formal: Option<DeclId>) -> bool
    ensures { (d : Design) (ks : List Known) → Knows d design.now ks → result ≡ is_constant_in d formal }
{
    match formal {
        Some(named) => matches!(
            class_of(design.declarations, named.number()),
            Class::GenericConstant
        ),
        None => false,
    }
}

/// The actual of an element: what stands behind `=>`, or the element.
fn actual_of<'a>(
    element: &Cursor<'a, Resolved>,
    first: &Opened<'a, Resolved>,
) -> Cursor<'a, Resolved>
    ensures { (d : Design) → nth 0 (meanings d.table result)
        ≡ meaning_of_actual first.now.form.form d first.now.parts (nth 0 (meanings d.table element.now)) }
{
    match first.form.form {
        Form::Association => first.parts.skip(1),
        _ => element.fork(),
    }
}

/// Whether an actual is an expression for a constant that isn't known in elaboration.
fn later_actual(
    design: &mut KnownDesign<'_, '_>,
    alloc: Global,
    actual: &Cursor<'_, Resolved>,
    formal: Option<DeclId>,
) -> Result<bool, AllocError>
    requires ready { IsReady design.old }
    ensures is { (d : Design) (k : Known) (ks : List Known) → Knows d design.old (k ∷ ks)
        → IfOk result (λ b. b ≡ is_later_actual d k.env (nth 0 (meanings d.table actual.now)) formal) }
    ensures knows { (d : Design) (ks : List Known) → Knows d design.old ks → Knows d design.new ks }
{
    if !is_of_constant(design, formal) {
        return Ok(false);
    }
    let actual = node(design, alloc, actual)?;
    let is_known = is_static(actual.sense.known);
    Ok(!actual.sense.is_open && !is_known)
}

/// The first of the elements of a map for these generics whose actual isn't known in elaboration.
fn later_actuals(
    design: &mut KnownDesign<'_, '_>,
    alloc: Global,
    generics: &[DeclId],
    elements: &Cursor<'_, Resolved>,
) -> Result<Option<Refused>, AllocError>
    requires ready { IsReady design.old }
    ensures finds { (d : Design) (k : Known) (ks : List Known) → Knows d design.old (k ∷ ks)
        → IfOk result (λ found. found ≡ least_of (later_actuals_of d k.env generics.now elements.now)) }
    ensures knows { (d : Design) (ks : List Known) → Knows d design.old ks → OnOk result (Knows d design.new ks) }
{
    let mut found = None;
    let mut left = generics;
    let mut rest = elements.fork();
    while let Some(first) = rest.open() {
        let formal = formal_of_element(&rest, first_number(left));
        let is_later = later_actual(design, alloc, &actual_of(&rest, &first), formal)?;
        found = lesser(found, refused_if(is_later, place_of_actual(&first), 406));
        left = further_numbers(left);
        rest = first.next;
    }
    Ok(found)
}

/// The generics of a declaration, if there is one.
fn generics_of<'d>(declarations: &'d [Declaration], id: Option<DeclId>) -> &'d [DeclId]
    ensures { (d : Design) (revision : Revision) → d.table ≡ table revision declarations.now → result.now ≡ generics_in d id }
{
    let Some(id) = id else {
        return &[];
    };
    match declarations.get(id.number() as usize) {
        Some(declaration) => declaration.generics.as_slice(),
        None => &[],
    }
}

/// The first actual of an instance of a package that isn't known in elaboration.
fn package_actuals(
    design: &mut KnownDesign<'_, '_>,
    alloc: Global,
    parts: &Cursor<'_, Resolved>,
) -> Result<Option<Refused>, AllocError>
    requires ready { IsReady design.old }
    ensures finds { (d : Design) (k : Known) (ks : List Known) → Knows d design.old (k ∷ ks)
        → IfOk result (λ found. found ≡ least_of (static_broken PackageInstantiation d k.env parts.now)) }
    ensures knows { (d : Design) (ks : List Known) → Knows d design.old ks → OnOk result (Knows d design.new ks) }
{
    let generics = generics_of(design.declarations, declaration_of(&parts.skip(1)));
    let elements = parts.skip(2).parts();
    later_actuals(design, alloc, generics, &elements)
}

/// What a node has that isn't known in elaboration, where it must be.
fn static_refused(
    design: &mut KnownDesign<'_, '_>,
    alloc: Global,
    form: Form,
    parts: &Cursor<'_, Resolved>,
) -> Result<Option<Refused>, AllocError>
    requires ready { IsReady design.old }
    ensures finds { (d : Design) (k : Known) (ks : List Known) → Knows d design.old (k ∷ ks)
        → IfOk result (λ found. found ≡ least_of (static_broken form d k.env parts.now)) }
    ensures knows { (d : Design) (ks : List Known) → Knows d design.old ks → OnOk result (Knows d design.new ks) }
{
    match form {
        Form::IfGenerate | Form::ElsifGenerate | Form::CaseGenerate => {
            not_global(design, alloc, 0, parts)
        }
        Form::ForGenerate => not_global(design, alloc, 1, parts),
        Form::PortDeclaration => not_global_if_there(design, alloc, 4, parts),
        Form::PackageInstantiation => package_actuals(design, alloc, parts),
        _ => Ok(None),
    }
}

// ---- sensitivity lists

/// Whether the first tree is the name of a signal whose longest static prefix is the whole name.
fn is_static_signal(
    design: &mut KnownDesign<'_, '_>,
    alloc: Global,
    name: &Cursor<'_, Resolved>,
) -> Result<bool, AllocError>
    requires ready { IsReady design.old }
    ensures is { (d : Design) (k : Known) (ks : List Known) → Knows d design.old (k ∷ ks)
        → IfOk result (λ b. b ≡ is_signal_and_whole k.env (nth 0 (meanings d.table name.now))) }
    ensures knows { (d : Design) (ks : List Known) → Knows d design.old ks → Knows d design.new ks }
{
    let node = node(design, alloc, name)?;
    let found = &node.sense.name;
    Ok(found.is_signal && found.is_whole)
}

/// The first of some names that isn't.
fn listed_signals(
    design: &mut KnownDesign<'_, '_>,
    alloc: Global,
    names: &Cursor<'_, Resolved>,
) -> Result<Option<Refused>, AllocError>
    requires ready { IsReady design.old }
    ensures finds { (d : Design) (k : Known) (ks : List Known) → Knows d design.old (k ∷ ks)
        → IfOk result (λ found. found ≡ least_of (not_static_signals d k.env names.now)) }
    ensures knows { (d : Design) (ks : List Known) → Knows d design.old ks → OnOk result (Knows d design.new ks) }
{
    let mut found = None;
    let mut rest = names.fork();
    while let Some(first) = rest.open() {
        let is_static = is_static_signal(design, alloc, &rest)?;
        found = lesser(found, refused_if(!is_static, first.place, 407));
        rest = first.next;
    }
    Ok(found)
}

/// The first name of a sensitivity list that isn't that of a signal by a static prefix.
fn sensitivity_refused(
    design: &mut KnownDesign<'_, '_>,
    alloc: Global,
    form: Form,
    parts: &Cursor<'_, Resolved>,
) -> Result<Option<Refused>, AllocError>
    requires ready { IsReady design.old }
    ensures finds { (d : Design) (k : Known) (ks : List Known) → Knows d design.old (k ∷ ks)
        → IfOk result (λ found. found ≡ least_of (sensitivity_broken form d k.env parts.now)) }
    ensures knows { (d : Design) (ks : List Known) → Knows d design.old ks → OnOk result (Knows d design.new ks) }
{
    match form {
        Form::SensitivityList => listed_signals(design, alloc, parts),
        _ => Ok(None),
    }
}

/// The first refusals of a node.
pub fn static_refusals(
    design: &mut KnownDesign<'_, '_>,
    _interfaces: &Interfaces<'_>,
    alloc: Global,
    _around: &Surroundings,
    node: &Opened<'_, Resolved>,
) -> Result<Firsts, AllocError>
    requires ready { IsReady design.old }
    ensures finds { Finds static_expressions (design_in _interfaces.now) design.old _around.now node.now result }
    ensures knows { (d : Design) (ks : List Known) → Knows d design.old ks → OnOk result (Knows d design.new ks) }
{
    let form = node.form.form;
    let of_parts = static_refused(design, alloc, form, &node.parts)?;
    let of_signals = sensitivity_refused(design, alloc, form, &node.parts)?;
    Ok(Firsts {
        of_names: None,
        of_rules: lesser(of_parts, of_signals),
    })
}
