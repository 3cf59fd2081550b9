//! What selected names mean.

ghost use Rattle.std.specs.Prelude.{◌≡◌, IfOk, MatchOption};
ghost use Rattle.std.specs.Option.{option_copied};
ghost use Rattle.vd_forest.specs.Forest.{nothing, more};
ghost use Rattle.vd_visible.specs.Kinds.{kind_of as kind_at, role_of as role_at};
ghost use Rattle.vd_visible.specs.Sights.{sight_from, class_of};
ghost use Rattle.vd_refusals.specs.Seen.{missing_in as absent_in};
ghost use Rattle.vd_ways.specs.Ways.{selected_name, selection_name};
ghost use Rattle.vd_naming.specs.Selected.{Means, Breaks, some_or as some_meant, selected_of, selected_under, meant_behind as behind_meant};
ghost use Rattle.vd_naming.specs.Paths.{path_meant as meant_by_path, prefix_pieces, one_that as only_that, rule_of as rule_by, refused_path as path_refused};
ghost use Rattle.vd_naming.specs.Fits.{fits};
ghost use Rattle.vd_naming.specs.Kept.{declarations_of, broken_by};

use crate::fit::Fit;
use std::alloc::{AllocError, Global};
use std::marker::Model;
use vd_bytes::{Place, Refused};
use vd_declarations::{Class, DeclId};
use vd_forest::{Cursor, Opened};
use vd_forms::Form;
use vd_name_rows::Names;
use vd_visible::Surroundings;
use vd_visible::kinds::{Kind, kind_of};
use vd_visible::roles::{Role, role_of};
use vd_ways::names::symbol_name;
use vd_ways::values::letter_name;

/// What a selected name means: some declarations, or the rule that it breaks.
#[derive(Drop)]
pub struct Meant {
    // They count where no rule is broken.
    declarations: Vec<DeclId>,
    rule: Option<u16>,
}

impl Model for Meant {
    ghost use Rattle.vd_naming.specs.Selected as selected;
    ghost use Rattle.vd_naming.specs.Kept.{kept};

    ghost Value = { selected.Meant };

    ghost view = { λ a. kept a.rule a.declarations.items };
}

impl Meant {
    /// It means these.
    pub fn means(declarations: Vec<DeclId>) -> Meant
        ensures { result ≡ Means declarations.items }
    {
        Meant {
            declarations,
            rule: None,
        }
    }

    /// It breaks this rule.
    pub fn breaks(alloc: Global, rule: u16) -> Meant
        ensures { result ≡ Breaks rule }
    {
        Meant {
            declarations: Vec::new(alloc),
            rule: Some(rule),
        }
    }

    /// The declarations that it means, none where it breaks a rule.
    pub fn declarations(&self) -> &[DeclId]
        ensures { result.now ≡ declarations_of self.now }
    {
        if self.rule.is_some() {
            return &[];
        }
        self.declarations.as_slice()
    }

    /// The rule that it breaks.
    pub fn rule(&self) -> Option<u16>
        ensures { result ≡ broken_by self.now }
    {
        self.rule
    }
}

/// Some declarations, or this rule where there are none.
pub fn some_or(rule: u16, ids: Vec<DeclId>) -> Meant
    ensures { result ≡ some_meant rule ids.items }
{
    let rule = if ids.is_empty() { Some(rule) } else { None };
    Meant {
        declarations: ids,
        rule,
    }
}

/// The rule that is broken where a unit has no such declaration.
fn missing_in(class: Class) -> u16
    ensures { result ≡ absent_in class }
{
    match class {
        Class::Library => 302,
        _ => 303,
    }
}

/// What stands behind a declaration.
fn selected_behind(
    alloc: Global,
    place: &Surroundings<'_>,
    id: DeclId,
    name: &[u8],
) -> Result<Meant, AllocError>
    ensures { IfOk result (λ m. m ≡ selected_of (role_at (class_of (sight_from place.now) id)) (sight_from place.now) id name.now) }
{
    match role_of(place.class_of(id)) {
        Role::Unit => {
            let selected = place.selected(alloc, id, name)?;
            Ok(some_or(missing_in(place.class_of(id)), selected))
        }
        _ => Ok(Meant::breaks(alloc, 307)),
    }
}

/// What stands behind some declarations.
fn selected_behind_all(
    alloc: Global,
    place: &Surroundings<'_>,
    ids: &[DeclId],
    name: Option<&[u8]>,
) -> Result<Meant, AllocError>
    ensures { IfOk result (λ m. m ≡ selected_under (sight_from place.now) ids.now (option_copied name.entry)) }
{
    let Some(name) = name else {
        return Ok(Meant::breaks(alloc, 303));
    };
    match ids {
        [id] => selected_behind(alloc, place, *id, name),
        _ => Ok(Meant::breaks(alloc, 307)),
    }
}

/// What a name means behind another. `all` is no name.
pub fn meant_behind(
    alloc: Global,
    place: &Surroundings<'_>,
    meant: &Meant,
    name: Option<&[u8]>,
) -> Result<Meant, AllocError>
    ensures { IfOk result (λ m. m ≡ behind_meant (sight_from place.now) meant.now (option_copied name.entry)) }
{
    match meant.rule() {
        Some(rule) => Ok(Meant::breaks(alloc, rule)),
        None => selected_behind_all(alloc, place, meant.declarations(), name),
    }
}

/// What a piece means behind another name: an identifier, a character literal or an operator symbol. Any other form is no name.
pub fn meant_by_text(
    alloc: Global,
    place: &Surroundings<'_>,
    meant: &Meant,
    form: Form,
    text: &[u8],
) -> Result<Meant, AllocError>
    ensures { IfOk result (λ m. m ≡ behind_meant (sight_from place.now) meant.now (selected_name (kind_at form) text.now)) }
{
    match kind_of(form) {
        Kind::Identifier => meant_behind(alloc, place, meant, Some(text)),
        Kind::Letter => {
            let name = letter_name(alloc, text)?;
            meant_behind(alloc, place, meant, Some(&name))
        }
        Kind::Quoted => {
            let name = symbol_name(alloc, text)?;
            meant_behind(alloc, place, meant, Some(&name))
        }
        _ => meant_behind(alloc, place, meant, None),
    }
}

/// What a name means behind a point.
pub fn meant_by_selection(
    alloc: Global,
    place: &Surroundings<'_>,
    meant: &Meant,
    parts: &Cursor<'_, Form>,
) -> Result<Meant, AllocError>
    ensures { IfOk result (λ m. m ≡ behind_meant (sight_from place.now) meant.now (selection_name parts.now)) }
{
    match parts.open() {
        Some(first) => meant_by_text(alloc, place, meant, first.form, first.text),
        None => meant_behind(alloc, place, meant, None),
    }
}

/// What is visible under a name.
pub fn visible_meant(
    alloc: Global,
    place: &Surroundings<'_>,
    name: &[u8],
) -> Result<Meant, AllocError>
    ensures { IfOk result (λ m. m ≡ some_meant 303 ((sight_from place.now).visible name.now)) }
{
    let visible = place.visible(alloc, name)?;
    Ok(some_or(303, visible))
}

/// What a selected name means, given by its pieces.
pub fn path_meant(
    alloc: Global,
    place: &Surroundings<'_>,
    pieces: &Cursor<'_, Form>,
) -> Result<Meant, AllocError>
    ensures { IfOk result (λ m. m ≡ meant_by_path (sight_from place.now) pieces.now) }
{
    let Some(head) = pieces.open() else {
        return Ok(Meant::breaks(alloc, 303));
    };
    let mut meant = visible_meant(alloc, place, head.text)?;
    let mut rest = head.next;
    while let Some(first) = rest.open() {
        meant = meant_by_text(alloc, place, &meant, first.form, first.text)?;
        rest = first.next;
    }
    Ok(meant)
}

/// The first piece, where another one stands behind it.
pub(crate) fn before_last<'a>(pieces: &Cursor<'a, Form>) -> Option<Opened<'a, Form>>
    ensures { MatchOption result (prefix_pieces pieces.now ≡ nothing) (λ first.
        prefix_pieces pieces.now ≡ more first.form first.text.now first.place first.parts (prefix_pieces first.next)) }
{
    let first = pieces.open()?;
    if first.next.open().is_none() {
        return None;
    }
    Some(first)
}

/// What a selected name means without its last piece.
pub fn prefix_meant(
    alloc: Global,
    place: &Surroundings<'_>,
    pieces: &Cursor<'_, Form>,
) -> Result<Meant, AllocError>
    ensures { IfOk result (λ m. m ≡ meant_by_path (sight_from place.now) (prefix_pieces pieces.now)) }
{
    let Some(head) = before_last(pieces) else {
        return Ok(Meant::breaks(alloc, 303));
    };
    let mut meant = visible_meant(alloc, place, head.text)?;
    let mut rest = head.next;
    while let Some(first) = before_last(&rest) {
        meant = meant_by_text(alloc, place, &meant, first.form, first.text)?;
        rest = first.next;
    }
    Ok(meant)
}

/// The one declaration that a name means, where it is what it has to be.
pub fn one_that(names: &Names, place: &Surroundings<'_>, fit: Fit, meant: &Meant) -> Option<DeclId>
    ensures { result ≡ only_that (fits fit (sight_from place.now) names.now) meant.now }
{
    match meant.declarations() {
        [id] => {
            if fit.has(names, place, *id) {
                Some(*id)
            } else {
                None
            }
        }
        _ => None,
    }
}

/// The rule that a name breaks that doesn't mean what it has to.
pub fn rule_of(meant: &Meant) -> u16
    ensures { result ≡ rule_by meant.now }
{
    match meant.rule() {
        Some(rule) => rule,
        None => 307,
    }
}

/// What is refused of a name, where nothing is found that it has to mean.
pub fn refused_path(found: Option<DeclId>, meant: &Meant, at: Place) -> Option<Refused>
    ensures { result ≡ path_refused found meant.now at }
{
    match found {
        Some(_) => None,
        None => Some(Refused {
            place: at,
            rule: rule_of(meant),
        }),
    }
}
