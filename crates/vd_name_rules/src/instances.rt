//! Instances that find a refused operator for a generic.

ghost use Rattle.std.specs.Prelude.{◌≡◌, ◌&&◌, ℕ, IfOk, Some, is_some, List, not};
ghost use Rattle.vd_meaning.specs.Brackets.{or_else};
ghost use Rattle.vd_meaning.specs.Facets.{nth, MapElement};
ghost use Rattle.vd_meaning.specs.Generics.{element_for};
ghost use Rattle.vd_meaning.specs.Meanings.{meanings};
ghost use Rattle.vd_meaning.specs.Tables.{table};
ghost use Rattle.vd_name_rules.specs.Designs.{design};
ghost use Rattle.vd_name_rules.specs.Elements.{has};
ghost use Rattle.vd_trees.specs.declared.revision.Revision.TheVariants.{V2019};
ghost use Rattle.vd_value_rules.specs.Operators.{any_found as some_found, finds_refused as refused_is_found, instance_finds as instance_finds_refused, names_refused};

use crate::elements::{Elements, elements_in};
use crate::operators::Operators;
use std::alloc::{AllocError, Global};
use vd_declarations::DeclId;
use vd_forest::{Cursor, Opened};
use vd_forms::Form;
use vd_operations::declaration_of;
use vd_resolved::Resolved;

/// Whether a generic has a refused operator in an instance, for which the map has nothing.
fn is_found(
    operators: &Operators<'_>,
    elements: &Elements,
    place: usize,
    generic: DeclId,
    copy: DeclId,
) -> bool
    ensures { result ≡ (not (has elements.now place generic) && names_refused (table V2019 operators.now.declarations.now) (Some copy)) }
{
    !elements.has(place, generic) && operators.are_named(Some(copy))
}

/// Whether one of some generics has a refused operator in an instance, for which the map has nothing.
fn any_found(
    operators: &Operators<'_>,
    generics: &[DeclId],
    copies: &[DeclId],
    elements: &Elements,
) -> bool
    ensures { (xs : List MapElement) → ((k g : ℕ) → has elements.now k g ≡ is_some (element_for k g xs))
        → result ≡ some_found (table V2019 operators.now.declarations.now) 0 generics.now copies.now xs }
{
    for at in 0..generics.len().min(copies.len()) {
        let generic = generics[at];
        let copy = copies[at];
        if is_found(operators, elements, at, generic, copy) {
            return true;
        }
    }
    false
}

/// Whether an instance of something with generics finds a refused operator, by its map.
fn finds_refused(
    alloc: Global,
    operators: &Operators<'_>,
    generic: Option<DeclId>,
    instance: Option<DeclId>,
    map: &Cursor<'_, Resolved>,
) -> Result<bool, AllocError>
    ensures { IfOk result (λ found. found ≡ refused_is_found (design operators.now.declarations.now) generic instance
        (nth 0 (meanings (table V2019 operators.now.declarations.now) map.now)).elements) }
{
    let elements = elements_in(alloc, map)?;
    let generics = operators.generics_of(generic);
    let copies = operators.generics_of(instance);
    Ok(any_found(operators, generics, copies, &elements))
}

/// Whether a node is an instance that finds a refused operator.
pub(crate) fn instance_finds(
    alloc: Global,
    operators: &Operators<'_>,
    node: &Opened<'_, Resolved>,
) -> Result<bool, AllocError>
    ensures { IfOk result (λ found. found
        ≡ instance_finds_refused node.now.form.form (design operators.now.declarations.now) node.now.form node.now.parts) }
{
    let own = node.form.declaration;
    match node.form.form {
        Form::PackageInstantiation => {
            let generic = declaration_of(&node.parts.skip(1));
            let instance = own.or(declaration_of(&node.parts));
            finds_refused(alloc, operators, generic, instance, &node.parts.skip(2))
        }
        Form::FunctionInstantiation => {
            let generic = declaration_of(&node.parts.skip(2));
            let instance = own.or(declaration_of(&node.parts.skip(1)));
            finds_refused(alloc, operators, generic, instance, &node.parts.skip(3))
        }
        _ => Ok(false),
    }
}
