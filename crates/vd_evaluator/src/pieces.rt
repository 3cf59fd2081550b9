//! Names, piece by piece. (IEEE 1076, names: selected, indexed and slice names; type conversions; qualified expressions.)

ghost use Rattle.std.specs.Prelude.{◌≡◌, IfOk};
ghost use Rattle.vd_composites.specs.Answers.{Answers};
ghost use Rattle.vd_composites.specs.Parts.{part};
ghost use Rattle.vd_evaluator.specs.Pieces.{first_word as begun, own_value, part_found, part_value, position_read, with_pieces as all_pieced, with_what as whatever};
ghost use Rattle.vd_evaluator.specs.Senses.{step_in};

use crate::senses::{Name, Part, Piece, Sense, What};
use std::alloc::{AllocError, Global};
use vd_composites::{Value, ValueEnd};
use vd_plain_values::answers::{again, scalar_position, settled};
use vd_values::StopKind;

/// A part of a value.
fn part_at(alloc: Global, value: &Value, at: Part) -> Result<Value, ValueEnd>
    ensures { Answers result (part (step_in at) value.now) }
{
    match at {
        Part::Index(index) => value.element(alloc, index),
        Part::Slice(range) => value.slice(alloc, range),
        Part::Field(number) => value.field(alloc, number),
    }
}

/// A part of what may have stopped.
fn step_to(
    alloc: Global,
    found: &Result<Value, StopKind>,
    to: &Result<Part, StopKind>,
) -> Result<Result<Value, StopKind>, AllocError>
    ensures { IfOk result (λ r. r ≡ part_found found.now to.now) }
{
    match found {
        Ok(value) => match to {
            Ok(at) => settled(part_at(alloc, value, *at)),
            Err(kind) => Ok(Err(*kind)),
        },
        Err(kind) => Ok(Err(*kind)),
    }
}

/// A name with a part behind it.
fn with_part(alloc: Global, name: &Name, to: &Result<Part, StopKind>) -> Result<Name, AllocError>
    ensures { IfOk result (λ x. x ≡ part_value name.now to.now) }
{
    match name {
        Name::Valued(found) => {
            let made = step_to(alloc, found, to)?;
            Ok(Name::Valued(made))
        }
        Name::Called => Ok(Name::Unnamed),
        Name::Unnamed => Ok(Name::Unnamed),
    }
}

/// A name with a value of its own behind it.
fn with_own(alloc: Global, name: &Name, found: &Result<Value, StopKind>) -> Result<Name, AllocError>
    ensures { IfOk result (λ x. x ≡ own_value name.now found.now) }
{
    match name {
        Name::Unnamed => Ok(Name::Unnamed),
        Name::Called => {
            let copy = again(alloc, found)?;
            Ok(Name::Valued(copy))
        }
        Name::Valued(_) => {
            let copy = again(alloc, found)?;
            Ok(Name::Valued(copy))
        }
    }
}

/// A name with a further piece.
fn with_piece(alloc: Global, name: &Name, what: &What) -> Result<Name, AllocError>
    ensures { IfOk result (λ x. x ≡ whatever name.now what.now) }
{
    match what {
        What::Piece(Piece::Step(to)) => with_part(alloc, name, to),
        What::Piece(Piece::Own(found)) => with_own(alloc, name, found),
        What::NotTaken => Ok(Name::Unnamed),
        What::Word(_) => Ok(Name::Unnamed),
        What::Expression(_) => Ok(Name::Unnamed),
        What::Textual => Ok(Name::Unnamed),
        What::Range(_) => Ok(Name::Unnamed),
    }
}

/// The name that a word begins.
fn first_word(alloc: Global, what: &What) -> Result<Name, AllocError>
    ensures { IfOk result (λ x. x ≡ begun what.now) }
{
    match what {
        What::Word(Name::Valued(found)) => {
            let copy = again(alloc, found)?;
            Ok(Name::Valued(copy))
        }
        What::Word(Name::Called) => Ok(Name::Called),
        What::Word(Name::Unnamed) => Ok(Name::Unnamed),
        What::NotTaken => Ok(Name::Unnamed),
        What::Expression(_) => Ok(Name::Unnamed),
        What::Textual => Ok(Name::Unnamed),
        What::Range(_) => Ok(Name::Unnamed),
        What::Piece(_) => Ok(Name::Unnamed),
    }
}

/// A name with all its further pieces.
pub(crate) fn named(alloc: Global, first: &What, pieces: &[Sense<'_>]) -> Result<Name, AllocError>
    ensures { IfOk result (λ x. x ≡ all_pieced (begun first.now) pieces.now) }
{
    let mut name = first_word(alloc, first)?;
    for piece in pieces {
        name = with_piece(alloc, &name, &piece.what)?;
    }
    Ok(name)
}

/// The position of what may have stopped.
pub(crate) fn position_found(
    found: &Result<Value, StopKind>,
) -> Result<Result<i64, StopKind>, AllocError>
    ensures { IfOk result (λ r. position_read found.now ≡ r) }
{
    match found {
        Ok(value) => match value.as_scalar() {
            Some(scalar) => {
                let at = scalar_position(scalar)?;
                Ok(Ok(at))
            }
            None => Ok(Err(StopKind::Range)),
        },
        Err(kind) => Ok(Err(*kind)),
    }
}
