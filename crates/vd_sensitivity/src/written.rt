//! Prefixes of names, and values of indexes in them, as trees.
#![tactic(auto, using(vd_forest::proofs::StoreLemmas::growing))]

ghost use Rattle.std.specs.Prelude.{◌≡◌, ◌≤◌, IfOk, length};
ghost use Rattle.vd_forest.specs.Store.{Extends};

use crate::facts::{Facts, number_marked};
use crate::reads::Prefix;
use crate::steps::{Step, step_of};
use std::alloc::{AllocError, Global};
use vd_bytes::Place;
use vd_declarations::{DeclId, TypeId};
use vd_forest::{Opened, Store};
use vd_forms::Form;
use vd_notes::{Note, Noted, number};
use vd_operations::tables::name_of;
use vd_predefined::numbers::INTEGER;
use vd_resolved::Resolved;

/// A node that needs no note.
pub(crate) fn bare(
    form: Form,
    declaration: Option<u32>,
    mark: Option<u32>,
    position: u32,
) -> Noted {
    let declaration = match declaration {
        Some(number) => Some(DeclId::of(number)),
        None => None,
    };
    let mark = match mark {
        Some(number) => Some(TypeId::of(number)),
        None => None,
    };
    Noted {
        node: Resolved {
            form,
            declaration,
            mark,
            position,
        },
        note: Note::Nothing,
    }
}

/// A number that isn't negative.
fn natural(
    alloc: Global,
    out: &mut Store<Noted>,
    value: u32,
    place: Place,
    next: u32,
) -> Result<u32, AllocError>
    requires { next ≤ length out.old }
    ensures within { IfOk result (λ made. made ≤ length out.new) }
    ensures extends { Extends out.old out.new }
{
    let digits = format!(in alloc; "{value}")?;
    number(out, digits.as_bytes(), TypeId::of(INTEGER), place, next)
}

/// The negation of a number.
fn negated(
    alloc: Global,
    out: &mut Store<Noted>,
    facts: &Facts<'_>,
    value: u32,
    place: Place,
    next: u32,
) -> Result<u32, AllocError>
    requires { next ≤ length out.old }
    ensures within { IfOk result (λ made. made ≤ length out.new) }
    ensures extends { Extends out.old out.new }
{
    let operand = natural(alloc, out, value, place, 0)?;
    let node = bare(Form::Negation, facts.negation, Some(INTEGER), 0);
    out.add(node, &[], place, operand, next)
}

/// The least value of INTEGER, whose negation has none.
fn least(
    alloc: Global,
    out: &mut Store<Noted>,
    facts: &Facts<'_>,
    place: Place,
    next: u32,
) -> Result<u32, AllocError>
    requires { next ≤ length out.old }
    ensures within { IfOk result (λ made. made ≤ length out.new) }
    ensures extends { Extends out.old out.new }
{
    let one = natural(alloc, out, 1, place, 0)?;
    let operands = negated(alloc, out, facts, 2147483647, place, one)?;
    let node = bare(Form::Subtract, facts.subtraction, Some(INTEGER), 0);
    out.add(node, &[], place, operands, next)
}

/// A value of INTEGER.
fn integer(
    alloc: Global,
    out: &mut Store<Noted>,
    facts: &Facts<'_>,
    value: i32,
    place: Place,
    next: u32,
) -> Result<u32, AllocError>
    requires { next ≤ length out.old }
    ensures within { IfOk result (λ made. made ≤ length out.new) }
    ensures extends { Extends out.old out.new }
{
    if value == i32::MIN {
        return least(alloc, out, facts, place, next);
    }
    let size = value.unsigned_abs();
    if value < 0 {
        negated(alloc, out, facts, size, place, next)
    } else {
        natural(alloc, out, size, place, next)
    }
}

/// The character of a literal with apostrophes, or nothing.
fn character_of(name: &[u8]) -> Option<&[u8]> {
    if name.len() == 3 && name[0] == b'\'' {
        Some(&name[1..2])
    } else {
        None
    }
}

/// An enumeration literal of a type.
fn literal(
    out: &mut Store<Noted>,
    facts: &Facts<'_>,
    of: u32,
    position: u32,
    place: Place,
    next: u32,
) -> Result<u32, AllocError>
    requires { next ≤ length out.old }
    ensures within { IfOk result (λ made. made ≤ length out.new) }
    ensures extends { Extends out.old out.new }
{
    let Some(number) = facts.literal_at(of, position) else {
        return Ok(next);
    };
    let name = name_of(facts.declarations, number);
    match character_of(name) {
        Some(character) => {
            let node = bare(Form::Letter, Some(number), Some(of), position);
            out.add(node, character, place, 0, next)
        }
        None => {
            let node = bare(Form::Identifier, Some(number), Some(of), position);
            let word = out.add(node, name, place, 0, 0)?;
            out.add(bare(Form::Name, None, Some(of), 0), &[], place, word, next)
        }
    }
}

/// A value of a discrete type.
fn value_of(
    alloc: Global,
    out: &mut Store<Noted>,
    facts: &Facts<'_>,
    of: u32,
    value: i32,
    place: Place,
    next: u32,
) -> Result<u32, AllocError>
    requires { next ≤ length out.old }
    ensures within { IfOk result (λ made. made ≤ length out.new) }
    ensures extends { Extends out.old out.new }
{
    if of == INTEGER {
        return integer(alloc, out, facts, value, place, next);
    }
    literal(out, facts, of, value.unsigned_abs(), place, next)
}

/// A range of values.
fn bounds(
    alloc: Global,
    out: &mut Store<Noted>,
    facts: &Facts<'_>,
    of: u32,
    left: i32,
    right: i32,
    down: bool,
    place: Place,
) -> Result<u32, AllocError>
    ensures within { IfOk result (λ made. made ≤ length out.new) }
    ensures extends { Extends out.old out.new }
{
    let right = value_of(alloc, out, facts, of, right, place, 0)?;
    let both = value_of(alloc, out, facts, of, left, place, right)?;
    let form = if down {
        Form::Descending
    } else {
        Form::Ascending
    };
    out.add(bare(form, None, Some(of), 0), &[], place, both, 0)
}

/// What stands in the brackets of a piece.
fn inside(
    alloc: Global,
    out: &mut Store<Noted>,
    facts: &Facts<'_>,
    piece: &Opened<'_, Noted>,
    mark: Option<u32>,
) -> Result<u32, AllocError>
    ensures within { IfOk result (λ made. made ≤ length out.new) }
    ensures extends { Extends out.old out.new }
{
    match step_of(facts, &piece.form, &piece.parts, mark) {
        Step::Index { of, value } => value_of(alloc, out, facts, of, value, piece.place, 0),
        Step::Bounds {
            of,
            left,
            right,
            down,
        } => bounds(alloc, out, facts, of, left, right, down, piece.place),
        _ => out.copy(&piece.parts),
    }
}

/// A piece of a prefix, in front of others.
fn piece_of(
    alloc: Global,
    out: &mut Store<Noted>,
    facts: &Facts<'_>,
    piece: &Opened<'_, Noted>,
    mark: Option<u32>,
    next: u32,
) -> Result<u32, AllocError>
    requires { next ≤ length out.old }
    ensures within { IfOk result (λ made. made ≤ length out.new) }
    ensures extends { Extends out.old out.new }
{
    if matches!(piece.form.node.form, Form::Arguments) {
        let parts = inside(alloc, out, facts, piece, mark)?;
        return out.add(piece.form, piece.text, piece.place, parts, next);
    }
    let parts = out.copy(&piece.parts)?;
    out.add(piece.form, piece.text, piece.place, parts, next)
}

/// The pieces of a prefix, the last one first, and the type of the last one.
#[derive(Clone, Copy)]
struct Pieces {
    list: u32,
    mark: Option<u32>,
}

/// The pieces of a prefix.
fn pieces_of(
    alloc: Global,
    out: &mut Store<Noted>,
    facts: &Facts<'_>,
    prefix: &Prefix<'_>,
) -> Result<Pieces, AllocError>
    ensures within { IfOk result (λ made. made.list ≤ length out.new) }
    ensures extends { Extends out.old out.new }
{
    let mut left = prefix.pieces.fork();
    let mut made = 0;
    let mut mark = None;
    let mut count = prefix.count;
    while let Some(piece) = left.open() {
        if count == 0 {
            return Ok(Pieces { list: made, mark });
        }
        made = piece_of(alloc, out, facts, &piece, mark, made)?;
        mark = number_marked(&piece.form.node.mark);
        count = count.saturating_sub(1);
        left = piece.next;
    }
    Ok(Pieces { list: made, mark })
}

/// A prefix as the name of a signal, in front of others.
fn name_of_prefix(
    alloc: Global,
    out: &mut Store<Noted>,
    facts: &Facts<'_>,
    prefix: &Prefix<'_>,
    next: u32,
) -> Result<u32, AllocError>
    requires { next ≤ length out.old }
    ensures within { IfOk result (λ made. made ≤ length out.new) }
    ensures extends { Extends out.old out.new }
{
    let pieces = pieces_of(alloc, out, facts, prefix)?;
    let parts = out.turn(pieces.list, 0)?;
    let node = bare(Form::Name, None, pieces.mark, 0);
    out.add(node, &[], prefix.place, parts, next)
}

/// Prefixes as names of signals, in their order.
pub(crate) fn names_of(
    alloc: Global,
    out: &mut Store<Noted>,
    facts: &Facts<'_>,
    prefixes: &[Prefix<'_>],
) -> Result<u32, AllocError>
    ensures within { IfOk result (λ made. made ≤ length out.new) }
    ensures extends { Extends out.old out.new }
{
    let mut made = 0;
    let mut left = prefixes.len();
    while left > 0 {
        left -= 1;
        made = name_of_prefix(alloc, out, facts, &prefixes[left], made)?;
    }
    Ok(made)
}
