//! What an actual means that is the name of a function, or an operator symbol.

ghost use Rattle.std.specs.Prelude.{◌≡◌, Some, IfOk};
ghost use Rattle.vd_visible.specs.Sights.{sight_from};
ghost use Rattle.vd_naming.specs.Selected.{some_or};
ghost use Rattle.vd_ways.specs.Ways.{symbol_name as name_of_symbol};
ghost use Rattle.vd_naming.specs.Actuals.{are_selections as all_selections, head_meant as meant_by_head, behind_meant as meant_behind_pieces, name_meant as meant_by_name, actual_meant as meant_by_actual, declarations_meant as meant_declarations};

use std::alloc::{AllocError, Global};
use vd_declarations::DeclId;
use vd_forest::Cursor;
use vd_forms::Form;
use vd_naming::{Meant, meant_by_selection, visible_meant};
use vd_visible::Surroundings;
use vd_ways::names::symbol_name;

/// Whether all pieces stand behind points.
fn are_selections(pieces: &Cursor<'_, Form>) -> bool
    ensures { result ≡ all_selections pieces.now }
{
    let mut left = pieces.fork();
    while let Some(form) = left.form() {
        if !matches!(form, Form::Selection) {
            return false;
        }
        left = left.next();
    }
    true
}

/// What the first piece means.
pub(crate) fn head_meant(
    alloc: Global,
    place: &Surroundings<'_>,
    pieces: &Cursor<'_, Form>,
) -> Result<Meant, AllocError>
    ensures { IfOk result (λ m. m ≡ meant_by_head (sight_from place.now) pieces.now) }
{
    match pieces.open() {
        None => Ok(Meant::breaks(alloc, 303)),
        Some(head) => visible_meant(alloc, place, head.text),
    }
}

/// What the pieces behind something mean.
fn behind_meant(
    alloc: Global,
    place: &Surroundings<'_>,
    head: Meant,
    pieces: &Cursor<'_, Form>,
) -> Result<Meant, AllocError>
    ensures { IfOk result (λ m. m ≡ meant_behind_pieces (sight_from place.now) head pieces.now) }
{
    let mut meant = head;
    let mut left = pieces.fork();
    while let Some(piece) = left.open() {
        meant = meant_by_selection(alloc, place, &meant, &piece.parts)?;
        left = piece.next;
    }
    Ok(meant)
}

/// What a name of points alone means. Nothing is known of another one.
fn name_meant(
    alloc: Global,
    place: &Surroundings<'_>,
    pieces: &Cursor<'_, Form>,
) -> Result<Option<Meant>, AllocError>
    ensures { IfOk result (λ m. m ≡ meant_by_name (sight_from place.now) pieces.now) }
{
    let rest = pieces.next();
    if !are_selections(&rest) {
        return Ok(None);
    }
    let head = head_meant(alloc, place, pieces)?;
    let meant = behind_meant(alloc, place, head, &rest)?;
    Ok(Some(meant))
}

/// What is visible under an operator symbol.
fn symbol_meant(
    alloc: Global,
    place: &Surroundings<'_>,
    text: &[u8],
) -> Result<Option<Meant>, AllocError>
    ensures { IfOk result (λ m. m ≡ Some (some_or 303 ((sight_from place.now).visible (name_of_symbol text.now)))) }
{
    let name = symbol_name(alloc, text)?;
    let meant = visible_meant(alloc, place, &name)?;
    Ok(Some(meant))
}

/// What an actual means that is a name of points alone, or an operator symbol. Nothing is known of another one.
pub fn actual_meant(
    alloc: Global,
    place: &Surroundings<'_>,
    actual: &Cursor<'_, Form>,
) -> Result<Option<Meant>, AllocError>
    ensures { IfOk result (λ m. m ≡ meant_by_actual (sight_from place.now) actual.now) }
{
    let Some(first) = actual.open() else {
        return Ok(None);
    };
    match first.form {
        Form::Quoted => symbol_meant(alloc, place, first.text),
        Form::Name => name_meant(alloc, place, &first.parts),
        _ => Ok(None),
    }
}

/// The declarations that are meant, none where a rule is broken or nothing is known.
pub fn declarations_meant(meant: &Option<Meant>) -> &[DeclId]
    ensures { result.now ≡ meant_declarations meant.now }
{
    match meant {
        Some(meant) => meant.declarations(),
        None => &[],
    }
}
