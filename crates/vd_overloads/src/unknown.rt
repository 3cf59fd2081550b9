//! Choices that name nothing.

ghost use Rattle.std.specs.Prelude.{◌≡◌, IfOk, Some};
ghost use Rattle.std.specs.Option.{option_copied};
ghost use Rattle.vd_visible.specs.Sights.{sight_from};
ghost use Rattle.vd_overloads.specs.Environment.{names_declaration as declaration_named, names_element, names_nothing, choices_in as choices_under, down_from as down_under, are_choices as choices_are, first_unknown};

use crate::around::Around;
use std::alloc::{AllocError, Global};
use vd_bytes::Place;
use vd_declarations::Class;
use vd_forest::{Cursor, Opened};
use vd_forms::Form;
use vd_visible::Surroundings;
use vd_visible::kinds::{Kind, kind_of};
use vd_visible::lists::simple_name;
use vd_walks::{Finding, find_first};

/// Looks for choices that name nothing at a place.
#[derive(Drop)]
struct Choices<'a> {
    place: &'a Surroundings<'a>,
}

impl<'a> Finding<Form, Around, Place> for Choices<'a> {
    ghost use Rattle.vd_visible.specs.Sights.{sight_from};
    ghost use Rattle.vd_overloads.specs.Environment.{unknown_finder};

    ghost finder = { λ choices. unknown_finder (sight_from choices.place.now) };

    fn answer(
        &self,
        alloc: Global,
        state: &Around,
        node: &Opened<'_, Form>,
    ) -> Result<Option<Place>, AllocError> {
        if are_choices(*state)
            && names_nothing(alloc, self.place, simple_name(node.form, &node.parts))?
        {
            return Ok(Some(node.place));
        }
        Ok(None)
    }

    fn down(
        &self,
        _alloc: Global,
        state: &Around,
        node: &Opened<'_, Form>,
    ) -> Result<Around, AllocError> {
        Ok(down_from(*state, node.form))
    }

    fn along(
        &self,
        _alloc: Global,
        state: &Around,
        _node: &Opened<'_, Form>,
    ) -> Result<Around, AllocError> {
        Ok(*state)
    }
}

/// The place of the first choice that names nothing.
pub fn first_unknown(
    alloc: Global,
    place: &Surroundings<'_>,
    tree: &Cursor<'_, Form>,
) -> Result<Option<Place>, AllocError>
    ensures { IfOk result (λ found. found ≡ first_unknown (sight_from place.now) tree.now) }
{
    find_first(alloc, tree, Around::Anything, &Choices { place })
}

/// What the choices of an association are.
fn choices_in(around: Around) -> Around
    ensures { result ≡ choices_under around }
{
    match around {
        Around::Arguments => Around::Anything,
        Around::Choices | Around::Anything => Around::Choices,
    }
}

/// What stands round the parts of a node.
fn down_from(around: Around, form: Form) -> Around
    ensures { result ≡ down_under around form }
{
    match kind_of(form) {
        Kind::Arguments => Around::Arguments,
        Kind::Association => around,
        Kind::AssociationChoices => choices_in(around),
        _ => Around::Anything,
    }
}

/// Whether a tree is a choice of an aggregate.
fn are_choices(around: Around) -> bool
    ensures { result ≡ choices_are around }
{
    matches!(around, Around::Choices)
}

/// Whether a name means a declaration that is no library.
fn names_declaration(
    alloc: Global,
    place: &Surroundings<'_>,
    name: &[u8],
) -> Result<bool, AllocError>
    ensures { IfOk result (λ found. found ≡ declaration_named (sight_from place.now) name.now) }
{
    let found = place.visible(alloc, name)?;
    for id in &found {
        if !matches!(place.class_of(*id), Class::Library) {
            return Ok(true);
        }
    }
    Ok(false)
}

/// Whether a choice is a name that means nothing.
fn names_nothing(
    alloc: Global,
    place: &Surroundings<'_>,
    name: Option<&[u8]>,
) -> Result<bool, AllocError>
    ensures { IfOk result (λ found. found ≡ names_nothing (sight_from place.now) (option_copied name.entry)) }
{
    let Some(name) = name else {
        return Ok(false);
    };
    if names_declaration(alloc, place, name)? {
        return Ok(false);
    }
    let element = names_element(alloc, place, name)?;
    Ok(!element)
}

/// Whether a record type has an element of this name.
fn names_element(alloc: Global, place: &Surroundings<'_>, name: &[u8]) -> Result<bool, AllocError>
    ensures { IfOk result (λ found. found ≡ names_element (sight_from place.now) name.now) }
{
    for mark in place.types() {
        if !place.elements_named(alloc, *mark, name)?.is_empty() {
            return Ok(true);
        }
    }
    Ok(false)
}
