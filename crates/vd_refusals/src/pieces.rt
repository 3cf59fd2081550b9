//! What the pieces of a name are, by what is visible alone.

ghost use Rattle.std.specs.Prelude.{◌≡◌, ◌||◌, IfOk, option_map};
ghost use Rattle.vd_visible.specs.Kinds.{kind_of as kind_at, role_of as role_at};
ghost use Rattle.vd_visible.specs.Sights.{sight_from, class_of, mark_of};
ghost use Rattle.vd_ways.specs.Ways.{selection_name as name_selected};
ghost use Rattle.vd_refusals.specs.Seen.{value_seen as seen_value, mark_seen as seen_mark, other_seen as seen_other, role_seen, first_seen, head_seen, element_seen, missing_in as absent_in, declared_seen, selected_seen, selection_seen, is_reverse as reverse, is_range_piece as range_piece, has_range_piece as range_pieces, path_step, path_from, path_seen, is_mark_seen as seen_as_mark, is_range_name, is_range_form, is_range_at, part_seen as seen_part, bracket_seen, attribute_gives as given_by, attribute_seen as seen_attribute, qualification_seen as seen_qualification, piece_seen, pieces_seen, name_seen};

use crate::seen::Seen;
use std::alloc::{AllocError, Global};
use vd_declarations::{Class, DeclId, TypeId};
use vd_forest::Cursor;
use vd_forms::Form;
use vd_visible::Surroundings;
use vd_visible::attributes::{Attribute, attribute_named};
use vd_visible::kinds::{Kind, kind_of};
use vd_visible::roles::{Role, role_of};
use vd_visible::types::element_of;
use vd_ways::names::symbol_name;
use vd_ways::suffixes::selection_name;

/// A value, where its type is known.
fn value_seen(mark: Option<TypeId>, signal: bool) -> Seen
    ensures { result ≡ seen_value mark signal }
{
    match mark {
        None => Seen::Unknown,
        Some(mark) => Seen::Valued { mark, signal },
    }
}

/// A mark, where its type is known.
fn mark_seen(mark: Option<TypeId>) -> Seen
    ensures { result ≡ seen_mark mark }
{
    match mark {
        None => Seen::Unknown,
        Some(mark) => Seen::Mark(mark),
    }
}

/// What can't stand in an expression.
fn other_seen(class: Class) -> Seen
    ensures { result ≡ seen_other class }
{
    if class.is_overloadable() {
        Seen::Unknown
    } else {
        Seen::Broken(307)
    }
}

/// A declaration.
fn role_seen(at: &Surroundings<'_>, id: DeclId) -> Seen
    ensures { result ≡ role_seen (role_at (class_of (sight_from at.now) id)) (sight_from at.now) id }
{
    match role_of(at.class_of(id)) {
        Role::Unit => Seen::Unit(id),
        Role::Object => value_seen(at.mark_of(id), false),
        Role::Signal => value_seen(at.mark_of(id), true),
        Role::Literal | Role::Function => Seen::Unknown,
        Role::Mark => mark_seen(at.type_meant(id)),
        Role::Other => other_seen(at.class_of(id)),
    }
}

/// The first of some declarations.
fn first_seen(at: &Surroundings<'_>, ids: &[DeclId]) -> Seen
    ensures { result ≡ first_seen (sight_from at.now) ids.now }
{
    match ids.first() {
        None => Seen::Broken(303),
        Some(id) => role_seen(at, *id),
    }
}

/// What is visible under a name.
fn visible_seen(at: &Surroundings<'_>, alloc: Global, name: &[u8]) -> Result<Seen, AllocError>
    ensures { IfOk result (λ seen. seen ≡ first_seen (sight_from at.now) ((sight_from at.now).visible name.now)) }
{
    let visible = at.visible(alloc, name)?;
    Ok(first_seen(at, &visible))
}

/// The first piece of a name.
pub fn head_seen(
    at: &Surroundings<'_>,
    alloc: Global,
    kind: Kind,
    text: &[u8],
) -> Result<Seen, AllocError>
    ensures { IfOk result (λ seen. seen ≡ head_seen kind (sight_from at.now) text.now) }
{
    match kind {
        Kind::Identifier => visible_seen(at, alloc, text),
        Kind::Quoted => {
            let name = symbol_name(alloc, text)?;
            visible_seen(at, alloc, &name)
        }
        _ => Ok(Seen::Unknown),
    }
}

/// The first of some elements of a record.
fn element_seen(at: &Surroundings<'_>, ids: &[DeclId], signal: bool) -> Seen
    ensures { result ≡ element_seen (sight_from at.now) ids.now signal }
{
    match ids.first() {
        None => Seen::Broken(303),
        Some(id) => value_seen(at.mark_of(*id), signal),
    }
}

/// The rule that is broken where a unit has no such declaration.
fn missing_in(class: Class) -> u16
    ensures { result ≡ absent_in class }
{
    match class {
        Class::Library => 302,
        _ => 303,
    }
}

/// The first of what is selected of a unit.
fn declared_seen(at: &Surroundings<'_>, unit: Class, ids: &[DeclId]) -> Seen
    ensures { result ≡ declared_seen (sight_from at.now) unit ids.now }
{
    if ids.is_empty() {
        Seen::Broken(missing_in(unit))
    } else {
        first_seen(at, ids)
    }
}

/// What a name behind a point is.
fn selected_seen(
    at: &Surroundings<'_>,
    alloc: Global,
    prefix: &Seen,
    name: &[u8],
) -> Result<Seen, AllocError>
    ensures { IfOk result (λ seen. seen ≡ selected_seen prefix.now (sight_from at.now) name.now) }
{
    match prefix {
        Seen::Unit(unit) => {
            let selected = at.selected(alloc, *unit, name)?;
            Ok(declared_seen(at, at.class_of(*unit), &selected))
        }
        Seen::Mark(_) => Ok(Seen::Broken(307)),
        Seen::Valued { mark, signal } => {
            let elements = at.elements_named(alloc, *mark, name)?;
            Ok(element_seen(at, &elements, *signal))
        }
        Seen::Ranged | Seen::Awaiting | Seen::Unknown => Ok(Seen::Unknown),
        Seen::Broken(rule) => Ok(Seen::Broken(*rule)),
    }
}

/// What a selection makes of a name.
fn selection_seen(
    at: &Surroundings<'_>,
    alloc: Global,
    prefix: &Seen,
    parts: &Cursor<'_, Form>,
) -> Result<Seen, AllocError>
    ensures { IfOk result (λ seen. seen ≡ selection_seen prefix.now (sight_from at.now) (name_selected parts.now)) }
{
    if let Seen::Broken(rule) = prefix {
        return Ok(Seen::Broken(*rule));
    }
    let Some(name) = selection_name(alloc, parts)? else {
        return Ok(Seen::Broken(303));
    };
    selected_seen(at, alloc, prefix, &name)
}

/// Whether a piece makes a range.
fn is_range_piece(kind: Kind, parts: &Cursor<'_, Form>) -> bool
    ensures { result ≡ range_piece kind parts.now }
{
    match kind {
        Kind::RangeAttribute => true,
        Kind::Attribute => matches!(attribute_named(parts.text()), Attribute::ReverseRange),
        _ => false,
    }
}

/// Whether some piece makes a range.
fn has_range_piece(pieces: &Cursor<'_, Form>) -> bool
    ensures { result ≡ range_pieces pieces.now }
{
    let mut rest = pieces.fork();
    while let Some(first) = rest.open() {
        if is_range_piece(kind_of(first.form), &first.parts) {
            return true;
        }
        rest = first.next;
    }
    false
}

/// What a piece makes of a name of points alone.
fn path_step(
    at: &Surroundings<'_>,
    alloc: Global,
    kind: Kind,
    prefix: &Seen,
    parts: &Cursor<'_, Form>,
) -> Result<Seen, AllocError>
    ensures { IfOk result (λ seen. seen ≡ path_step kind (sight_from at.now) prefix.now parts.now) }
{
    match kind {
        Kind::Selection => selection_seen(at, alloc, prefix, parts),
        _ => Ok(Seen::Unknown),
    }
}

/// What a name of points alone is.
pub fn path_seen(
    at: &Surroundings<'_>,
    alloc: Global,
    pieces: &Cursor<'_, Form>,
) -> Result<Seen, AllocError>
    ensures { IfOk result (λ seen. seen ≡ path_seen (sight_from at.now) pieces.now) }
{
    let Some(head) = pieces.open() else {
        return Ok(Seen::Unknown);
    };
    let mut seen = head_seen(at, alloc, kind_of(head.form), head.text)?;
    let mut rest = head.next;
    while let Some(first) = rest.open() {
        seen = path_step(at, alloc, kind_of(first.form), &seen, &first.parts)?;
        rest = first.next;
    }
    Ok(seen)
}

/// Whether a name is a range or a mark.
fn is_range_name(
    at: &Surroundings<'_>,
    alloc: Global,
    pieces: &Cursor<'_, Form>,
) -> Result<bool, AllocError>
    ensures { IfOk result (λ is. is ≡ is_range_name (sight_from at.now) pieces.now) }
{
    if has_range_piece(pieces) {
        return Ok(true);
    }
    let seen = path_seen(at, alloc, pieces)?;
    Ok(matches!(seen, Seen::Mark(_)))
}

/// Whether the first of some elements is a range or a mark.
fn is_range_at(
    at: &Surroundings<'_>,
    alloc: Global,
    elements: &Cursor<'_, Form>,
) -> Result<bool, AllocError>
    ensures { IfOk result (λ is. is ≡ is_range_at (sight_from at.now) elements.now) }
{
    let Some(first) = elements.open() else {
        return Ok(false);
    };
    match kind_of(first.form) {
        Kind::Bounds => Ok(true),
        Kind::Name => is_range_name(at, alloc, &first.parts),
        _ => Ok(false),
    }
}

/// An element or a slice of an array.
fn part_seen(range: bool, element: Option<TypeId>, array: TypeId, signal: bool) -> Seen
    ensures { result ≡ seen_part range element array signal }
{
    let Some(element) = element else {
        return Seen::Unknown;
    };
    let mark = if range { array } else { element };
    Seen::Valued { mark, signal }
}

/// What brackets make of a name.
fn bracket_seen(
    at: &Surroundings<'_>,
    alloc: Global,
    prefix: &Seen,
    parts: &Cursor<'_, Form>,
) -> Result<Seen, AllocError>
    ensures { IfOk result (λ seen. seen ≡ bracket_seen prefix.now (sight_from at.now) parts.now) }
{
    match prefix {
        Seen::Unit(_) => Ok(Seen::Broken(307)),
        Seen::Mark(mark) => Ok(Seen::Valued {
            mark: *mark,
            signal: false,
        }),
        Seen::Valued { mark, signal } => {
            let range = is_range_at(at, alloc, parts)?;
            let element = element_of(at.class_of_type(*mark));
            Ok(part_seen(range, element, *mark, *signal))
        }
        Seen::Ranged | Seen::Awaiting | Seen::Unknown => Ok(Seen::Unknown),
        Seen::Broken(rule) => Ok(Seen::Broken(*rule)),
    }
}

/// What an attribute gives.
fn attribute_gives(attribute: Attribute) -> Seen
    ensures { result ≡ given_by attribute }
{
    match attribute {
        Attribute::ReverseRange => Seen::Ranged,
        Attribute::Position | Attribute::ValueAt | Attribute::Neighbour | Attribute::Image =>
            Seen::Awaiting,
        _ => Seen::Unknown,
    }
}

/// What an attribute makes of a name.
fn attribute_seen(prefix: &Seen, attribute: Attribute) -> Seen
    ensures { result ≡ seen_attribute prefix.now attribute }
{
    match prefix {
        Seen::Broken(rule) => Seen::Broken(*rule),
        _ => attribute_gives(attribute),
    }
}

/// What a qualification makes of a name.
fn qualification_seen(prefix: &Seen) -> Seen
    ensures { result ≡ seen_qualification prefix.now }
{
    match prefix {
        Seen::Mark(mark) => Seen::Valued {
            mark: *mark,
            signal: false,
        },
        Seen::Broken(rule) => Seen::Broken(*rule),
        _ => Seen::Broken(307),
    }
}

/// What a suffix makes of a name.
pub fn piece_seen(
    at: &Surroundings<'_>,
    alloc: Global,
    kind: Kind,
    prefix: &Seen,
    parts: &Cursor<'_, Form>,
) -> Result<Seen, AllocError>
    ensures { IfOk result (λ seen. seen ≡ piece_seen kind (sight_from at.now) prefix.now parts.now) }
{
    match kind {
        Kind::Selection => selection_seen(at, alloc, prefix, parts),
        Kind::Arguments => bracket_seen(at, alloc, prefix, parts),
        Kind::Attribute => Ok(attribute_seen(prefix, attribute_named(parts.text()))),
        Kind::RangeAttribute => Ok(attribute_seen(prefix, Attribute::ReverseRange)),
        Kind::Qualification => Ok(qualification_seen(prefix)),
        _ => Ok(*prefix),
    }
}

/// What the whole of a name is.
pub fn name_seen(
    at: &Surroundings<'_>,
    alloc: Global,
    pieces: &Cursor<'_, Form>,
) -> Result<Seen, AllocError>
    ensures { IfOk result (λ seen. seen ≡ name_seen (sight_from at.now) pieces.now) }
{
    let Some(head) = pieces.open() else {
        return Ok(Seen::Unknown);
    };
    let mut seen = head_seen(at, alloc, kind_of(head.form), head.text)?;
    let mut rest = head.next;
    while let Some(first) = rest.open() {
        seen = piece_seen(at, alloc, kind_of(first.form), &seen, &first.parts)?;
        rest = first.next;
    }
    Ok(seen)
}
