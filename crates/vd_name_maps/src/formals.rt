//! The generic that an element is for: by its name, or by its place, which is in front of all names.

ghost use Rattle.std.specs.Prelude.{◌≡◌, ◌≤◌, ℕ, List, Some, drop, length, IfOk};
ghost use Rattle.vd_naming.specs.Units.{first_of};
ghost use Rattle.vd_name_maps.specs.Named.{is_named as stands_named};
ghost use Rattle.vd_naming.specs.Associations.{designator as name_in_front, only_designator as only_name, formal_name, generic_named as named_generic, generic_for as generic_of, left_behind as left_after, once as not_again, with_given as given_too};

use crate::given::Given;
use std::alloc::{AllocError, Global};
use vd_declarations::DeclId;
use vd_forest::{Cursor, Opened};
use vd_forms::Form;
use vd_name_entering::{found_inside, region_inside};
use vd_name_rows::{Names, Sort};
use vd_visible::lists::simple_name;
use vd_ways::names::symbol_name;

/// The generic of this name that something with generics has.
fn generic_called(
    alloc: Global,
    names: &Names,
    owner: DeclId,
    name: &[u8],
) -> Result<Option<DeclId>, AllocError>
    ensures { IfOk result (λ found. found ≡ named_generic names.now owner (Some name.now)) }
{
    let inside = region_inside(names, Some(owner));
    found_inside(alloc, names, inside, Sort::Generic, name)
}

/// The generic that a name in front of `=>` means.
fn generic_named(
    alloc: Global,
    names: &Names,
    owner: DeclId,
    front: &Opened<'_, Form>,
) -> Result<Option<DeclId>, AllocError>
    ensures { IfOk result (λ found. found ≡ named_generic names.now owner (name_in_front front.now.form front.now.text.now front.now.parts)) }
{
    if let Form::Quoted = front.form {
        let name = symbol_name(alloc, front.text)?;
        let found = generic_called(alloc, names, owner, &name)?;
        return Ok(found);
    }
    match simple_name(front.form, &front.parts) {
        Some(name) => generic_called(alloc, names, owner, name),
        None => Ok(None),
    }
}

/// The generic that an association is for, whose first part has what stands in front.
fn formal(
    alloc: Global,
    names: &Names,
    owner: DeclId,
    parts: &Cursor<'_, Form>,
) -> Result<Option<DeclId>, AllocError>
    ensures { IfOk result (λ found. found ≡ named_generic names.now owner (formal_name parts.now)) }
{
    let Some(front) = parts.parts().open() else {
        return Ok(None);
    };
    match front.next.form() {
        Some(_) => Ok(None),
        None => generic_named(alloc, names, owner, &front),
    }
}

/// The generic that an element is for, where this one is the next for a place.
pub(crate) fn generic_for(
    alloc: Global,
    names: &Names,
    owner: DeclId,
    next: Option<DeclId>,
    node: &Opened<'_, Form>,
) -> Result<Option<DeclId>, AllocError>
    ensures { IfOk result (λ found. (left : List ℕ) → next ≡ first_of left → found ≡ generic_of names.now owner left node.now.form node.now.parts) }
{
    match node.form {
        Form::Association => formal(alloc, names, owner, &node.parts),
        Form::OthersAssociation => Ok(None),
        _ => Ok(next),
    }
}

/// The first of the generics that are left for places.
pub(crate) fn first_left(generics: &[DeclId], next: usize) -> Option<DeclId>
    ensures { result ≡ first_of (drop next generics.now) }
{
    generics.get(next).copied()
}

/// Whether none stands for a place behind an element.
fn is_named(form: Form) -> bool
    ensures { result ≡ stands_named form }
{
    matches!(form, Form::Association | Form::OthersAssociation)
}

/// Where the generics begin that are left for places behind an element.
#[tactic(auto, using(crate::proofs::LeftLemmas::named_leaves_none, crate::proofs::LeftLemmas::placed_leaves_others, crate::proofs::LeftLemmas::none_stays_none))]
pub(crate) fn left_behind(form: Form, generics: &[DeclId], next: usize) -> usize
    requires { next ≤ length generics.now }
    ensures within { result ≤ length generics.now }
    ensures left { drop result generics.now ≡ left_after form (drop next generics.now) }
{
    if is_named(form) {
        generics.len()
    } else if next < generics.len() {
        next + 1
    } else {
        next
    }
}

/// A generic that has no element so far.
pub(crate) fn once(given: &Given, generic: &Option<DeclId>) -> Option<DeclId>
    ensures { result ≡ not_again given.now generic.now }
{
    match generic {
        None => None,
        Some(id) => { if given.has(*id) { None } else { Some(*id) } }
    }
}

/// The generics that have an element, with another one.
pub(crate) fn with_given(given: Given, generic: &Option<DeclId>) -> Result<Given, AllocError>
    ensures { IfOk result (λ made. made ≡ given_too generic.now given) }
{
    match generic {
        None => Ok(given),
        Some(id) => given.add(*id),
    }
}
