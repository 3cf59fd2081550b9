//! Trees of actuals that are functions: the last piece has the function.

ghost use Rattle.std.specs.Prelude.{◌≡◌, ◌≤◌, true, IfOk, Some, None, length};
ghost use Rattle.vd_forest.specs.Forest.{nothing, more};
ghost use Rattle.vd_forest.specs.Store.{at, Holds, Extends};
ghost use Rattle.vd_visible.specs.Sights.{sight_from};
ghost use Rattle.vd_naming.specs.Expressions.{resolved, unresolved as with_nothing_named};
ghost use Rattle.vd_naming.specs.Paths.{one_that as only_that};
ghost use Rattle.vd_naming.specs.Actuals.{pieces_named as pieces_with, function_named as name_with};
ghost use Rattle.vd_name_actuals.specs.Pieces.{named_at};

use crate::meaning::head_meant;
use std::alloc::{AllocError, Global};
use vd_declarations::DeclId;
use vd_forest::{Cursor, Opened, Store};
use vd_forms::Form;
use vd_name_entering::add_node;
use vd_naming::{Meant, meant_by_selection, unresolved};
use vd_resolved::Resolved;
use vd_visible::Surroundings;

/// The one declaration that is meant.
fn one_meant(meant: &Meant) -> Option<DeclId>
    ensures { result ≡ only_that (λ j. true) meant.now }
{
    match meant.declarations() {
        [id] => Some(*id),
        _ => None,
    }
}

/// What a piece names, where these are behind it: the function at the last one, and else what is meant.
fn piece_named(function: DeclId, meant: &Meant, rest: &Cursor<'_, Form>) -> Option<DeclId>
    ensures { result ≡ named_at function meant.now rest.now }
{
    match rest.form() {
        None => Some(function),
        Some(_) => one_meant(meant),
    }
}

/// A piece with what it names, in front of others.
#[tactic(auto, using(vd_forest::proofs::StoreLemmas::growing))]
fn add_piece(
    alloc: Global,
    piece: &Opened<'_, Form>,
    named: Option<DeclId>,
    rest: u32,
    out: &mut Store<Resolved>,
) -> Result<u32, AllocError>
    requires { rest ≤ length out.old }
    ensures holds { IfOk result (λ number. Holds out.new number
        (more (resolved piece.now.form named None) piece.now.text.now piece.now.place (with_nothing_named piece.now.parts) (at out.old rest))) }
    ensures extends { Extends out.old out.new }
{
    let parts = unresolved(alloc, &piece.parts, out)?;
    let node = Resolved {
        form: piece.form,
        declaration: named,
        mark: None,
        position: 0,
    };
    let made = out.add(node, piece.text, piece.place, parts, rest)?;
    Ok(made)
}

/// The pieces of a name of points alone that means a function, where its first piece means `head`.
#[tactic(auto, using(vd_forest::proofs::StoreLemmas::extends_trans))]
fn pieces_named(
    alloc: Global,
    place: &Surroundings<'_>,
    function: DeclId,
    head: Meant,
    pieces: &Cursor<'_, Form>,
    out: &mut Store<Resolved>,
) -> Result<u32, AllocError>
    ensures holds { IfOk result (λ number. Holds out.new number (pieces_with (sight_from place.now) function head pieces.now)) }
    ensures extends { Extends out.old out.new }
{
    let mut meant = head;
    let mut made = 0;
    let mut left = pieces.fork();
    while let Some(piece) = left.open() {
        let named = piece_named(function, &meant, &piece.next);
        made = add_piece(alloc, &piece, named, made, out)?;
        meant = meant_by_selection(alloc, place, &meant, &piece.next.parts())?;
        left = piece.next;
    }
    let turned = out.turn(made, 0)?;
    Ok(turned)
}

/// An actual that means a function.
#[tactic(auto, using(vd_forest::proofs::StoreLemmas::growing))]
fn with_function(
    alloc: Global,
    place: &Surroundings<'_>,
    function: DeclId,
    actual: &Cursor<'_, Form>,
    out: &mut Store<Resolved>,
) -> Result<u32, AllocError>
    ensures holds { IfOk result (λ number. Holds out.new number (name_with (sight_from place.now) (Some function) actual.now)) }
    ensures extends { Extends out.old out.new }
{
    let Some(first) = actual.open() else {
        return Ok(0);
    };
    match first.form {
        Form::Quoted => {
            let made = add_node(&first, Some(function), None, 0, out)?;
            Ok(made)
        }
        Form::Name => {
            let head = head_meant(alloc, place, &first.parts)?;
            let parts = pieces_named(alloc, place, function, head, &first.parts, out)?;
            let made = add_node(&first, None, None, parts, out)?;
            Ok(made)
        }
        _ => {
            let made = unresolved(alloc, actual, out)?;
            Ok(made)
        }
    }
}

/// An actual that has to be a function, which may not be known.
pub fn function_named(
    alloc: Global,
    place: &Surroundings<'_>,
    function: Option<DeclId>,
    actual: &Cursor<'_, Form>,
    out: &mut Store<Resolved>,
) -> Result<u32, AllocError>
    ensures holds { IfOk result (λ number. Holds out.new number (name_with (sight_from place.now) function actual.now)) }
    ensures extends { Extends out.old out.new }
{
    match function {
        Some(function) => with_function(alloc, place, function, actual, out),
        None => unresolved(alloc, actual, out),
    }
}
