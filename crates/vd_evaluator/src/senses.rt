//! What a node means to what stands round it, evaluated.

ghost use Rattle.std.specs.Prelude.{◌≡◌, IfOk, MatchOption, false, map, true};
ghost use Rattle.vd_evaluator.specs.Outlines.{has_text_at};
ghost use Rattle.vd_evaluator.specs.Senses.{IsValueIn, sense_outline, text_at};

use std::alloc::{AllocError, Global};
use vd_composites::{Bounds, Value};
use vd_plain_values::answers::again;
use vd_values::StopKind;

/// What a name stands for.
#[derive(Drop)]
pub enum Name {
    /// A value, or the stop in its place.
    Valued(Result<Value, StopKind>),
    /// A function or a mark, behind which a piece must give a value of its own.
    Called,
    /// Nothing that is taken here.
    Unnamed,
}

/// A part of a value.
#[derive(Clone, Copy)]
pub enum Part {
    Index(i64),
    Slice(Bounds),
    Field(u32),
}

/// A further piece of a name.
#[derive(Drop)]
pub enum Piece {
    /// A part of what is in front of it, or the stop in its place.
    Step(Result<Part, StopKind>),
    /// A value of its own, or the stop in its place.
    Own(Result<Value, StopKind>),
}

/// What a node is.
#[derive(Drop)]
pub enum What {
    NotTaken,
    /// A word, which may begin a name.
    Word(Name),
    /// An expression, with its value or the stop in its place.
    Expression(Result<Value, StopKind>),
    /// What has a text alone.
    Textual,
    /// A range, or the stop in its place.
    Range(Result<Bounds, StopKind>),
    Piece(Piece),
}

/// A node, evaluated.
#[derive(Drop)]
pub struct Sense<'a> {
    pub text: &'a [u8],
    pub what: What,
}

/// The value of an expression, or the stop in its place.
pub(crate) fn value_in(
    alloc: Global,
    what: &What,
) -> Result<Option<Result<Value, StopKind>>, AllocError>
    ensures { IfOk result (λ r. IsValueIn what.now r) }
{
    match what {
        What::Expression(found) => {
            let copy = again(alloc, found)?;
            Ok(Some(copy))
        }
        What::NotTaken => Ok(None),
        What::Word(_) => Ok(None),
        What::Textual => Ok(None),
        What::Range(_) => Ok(None),
        What::Piece(_) => Ok(None),
    }
}

/// The text of a part that is taken.
pub(crate) fn text_of<'a>(parts: &[Sense<'a>], index: usize) -> Option<&'a [u8]>
    ensures { MatchOption result (has_text_at index (map sense_outline parts.now) ≡ false)
        (λ x. (has_text_at index (map sense_outline parts.now) ≡ true) × (x.now ≡ text_at index parts.now)) }
{
    let Some(part) = parts.get(index) else {
        return None;
    };
    match &part.what {
        What::NotTaken => None,
        _ => Some(part.text),
    }
}
