//! The ends of functions.

ghost use Rattle.std.specs.Prelude.{◌≡◌, ◌≤◌, List, [], Some, None, IfOk, OnOk, length, if◌then◌else◌};
ghost use Rattle.vd_forest.specs.Store.{Extends};
ghost use Rattle.vd_name_entering.specs.Made.{IsMade};
ghost use Rattle.vd_name_entering.specs.Ended.{seen_ended};
ghost use Rattle.vd_forest.specs.Forest.{Forest};
ghost use Rattle.vd_resolved.specs.declared.node.Resolved.{Resolved as Node};
ghost use Rattle.vd_naming.specs.Functions.{function_ends, body_of, body_ends, header_span};
ghost use Rattle.vd_name_entering.specs.Entered.{IsEntered};
ghost use Rattle.vd_name_functions.specs.Bodies.{ended_body};
ghost use Rattle.vd_name_rows.specs.Designs.{Design};
ghost use Rattle.vd_name_rows.specs.Noting.{with_body, tied_to};

use crate::headers::{function_of_body, function_read};
use crate::tying::is_tied;
use std::alloc::{AllocError, Global};
use vd_bytes::Refused;
use vd_declarations::{DeclId, Declaration};
use vd_forest::Store;
use vd_name_entering::{Ended, Made, enter, finished, note_body, note_span, note_tied, span_to};
use vd_name_rows::{Names, Span};
use vd_resolved::Resolved;

/// A function without a body is declared at its end.
pub fn function_ends(
    alloc: Global,
    names: &mut Names,
    ended: &Ended<'_, '_>,
    out: &mut Store<Resolved>,
) -> Result<Made, AllocError>
    requires { ended.now.inner.now.tree ≤ length out.old }
    ensures is { IfOk result (λ made. IsMade out.new names.new made (function_ends (seen_ended out.old names.old ended.now))) }
    ensures extends { Extends out.old out.new }
{
    let id = DeclId::of(names.next_number()?);
    let inner = ended.inner;
    let inside = ended.inside;
    let outer = ended.outer;
    let declared = function_read(alloc, names, &inner.at, inside.region)?;
    let first = enter(names, outer.region, declared)?;
    let span = span_to(names, inside.header, id.number(), inside.region)?;
    note_span(names, id, span)?;
    let made = finished(ended, Some(id), None, ended.inner.tree, first, out)?;
    Ok(made)
}

/// Notes that the body of a function has ended, and to which unit it is tied, where it is.
fn note_end(names: &mut Names, id: DeclId, tied: bool, unit: u32) -> Result<(), AllocError>
    ensures { OnOk result (names.new ≡ (if tied then tied_to id unit (with_body id names.old) else with_body id names.old)) }
{
    note_body(names, id)?;
    if tied {
        note_tied(names, id, unit)?;
    }
    Ok(())
}

/// The end of the body of a function that was declared before.
fn known_body_ends(
    alloc: Global,
    names: &mut Names,
    ended: &Ended<'_, '_>,
    id: DeclId,
    out: &mut Store<Resolved>,
) -> Result<Made, AllocError>
    requires { ended.now.inner.now.tree ≤ length out.old }
    ensures is { IfOk result (λ made. IsMade out.new names.new made (body_of (Some id) (seen_ended out.old names.old ended.now))) }
    ensures extends { Extends out.old out.new }
{
    let outer = ended.outer;
    let class = names.class_of(id);
    let tied = is_tied(alloc, names, ended, class, id, out)?;
    note_end(names, id, tied, outer.unit)?;
    let made = finished(ended, Some(id), None, ended.inner.tree, None, out)?;
    Ok(made)
}

/// What the header of a body declares.
fn header_span(ended: &Ended<'_, '_>) -> Span
    ensures { (store : List (Forest Node)) (d : Design) → result ≡ header_span (seen_ended store d ended.now) }
{
    let inner = ended.inner;
    let inside = ended.inside;
    Span {
        first: inside.header,
        end: inner.at.header_end,
        first_region: inside.region.number(),
        end_region: inner.at.header_regions,
    }
}

/// Enters the function that a body declares, and notes that its body has ended.
fn enter_body(
    names: &mut Names,
    ended: &Ended<'_, '_>,
    id: DeclId,
    tied: bool,
    new: Declaration,
) -> Result<Option<Refused>, AllocError>
    ensures { IfOk result (λ first. IsEntered names.new first
        (ended_body (seen_ended [] names.old ended.now) tied id new)) }
{
    let outer = ended.outer;
    let span = header_span(ended);
    let first = enter(names, outer.region, new)?;
    note_span(names, id, span)?;
    note_end(names, id, tied, outer.unit)?;
    Ok(first)
}

/// The end of the body of a function that has no other declaration.
fn new_body_ends(
    alloc: Global,
    names: &mut Names,
    ended: &Ended<'_, '_>,
    out: &mut Store<Resolved>,
) -> Result<Made, AllocError>
    requires { ended.now.inner.now.tree ≤ length out.old }
    ensures is { IfOk result (λ made. IsMade out.new names.new made (body_of None (seen_ended out.old names.old ended.now))) }
    ensures extends { Extends out.old out.new }
{
    let id = DeclId::of(names.next_number()?);
    let new = function_of_body(alloc, names, ended)?;
    let tied = is_tied(alloc, names, ended, new.class, id, out)?;
    let first = enter_body(names, ended, id, tied, new)?;
    let made = finished(ended, Some(id), None, ended.inner.tree, first, out)?;
    Ok(made)
}

/// The end of the body of a function.
pub fn body_ends(
    alloc: Global,
    names: &mut Names,
    ended: &Ended<'_, '_>,
    out: &mut Store<Resolved>,
) -> Result<Made, AllocError>
    requires { ended.now.inner.now.tree ≤ length out.old }
    ensures is { IfOk result (λ made. IsMade out.new names.new made (body_ends (seen_ended out.old names.old ended.now))) }
    ensures extends { Extends out.old out.new }
{
    let inner = ended.inner;
    let at = &inner.at;
    match at.function {
        None => new_body_ends(alloc, names, ended, out),
        Some(id) => known_body_ends(alloc, names, ended, id, out),
    }
}
