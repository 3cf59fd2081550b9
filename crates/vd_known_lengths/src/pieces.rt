//! What a piece of a name does to what stands in front of it.

ghost use Rattle.std.specs.Prelude.{◌≡◌, IfOk};
ghost use Rattle.vd_static_names.specs.Jumps.{AreJumps};
ghost use Rattle.vd_known_lengths.specs.Extents.{IsBracketed, IsBracketedWithin, IsExtent, IsMeasured, IsMeasuredWithin, IsPiece, IsPieceWithin, IsWithin};
ghost use Rattle.vd_value_rules.specs.Lengths.{Shaped, no_shaping, shaping_as};

use crate::extents::{Extent, nothing, of_subtype};
use crate::subtypes::{element_of, field_of, sliced};
use std::alloc::AllocError;
use vd_composites::Bounds;
use vd_forest::Store;
use vd_static_names::FieldTable;
use vd_value_rules::{IndicatedForm, StaticSort};

/// What a list in brackets is behind what isn't an attribute of a type.
#[derive(Clone, Copy, Debug)]
pub(crate) enum Bracketed {
    /// The arguments of a call, or the operand of a conversion.
    Own(Extent),
    /// An index.
    Element,
    /// The range of a slice, where it is locally static and doesn't stop, and how static it is.
    Slice(Option<Bounds>, StaticSort),
}

/// A further piece of a name.
#[derive(Clone, Copy, Debug)]
pub(crate) enum Piece {
    /// What stands for something of its own, whatever is in front of it.
    Own(Extent),
    /// The element of a record with a number, from 0.
    Field(u32),
    /// A list in brackets: the argument of an attribute of a type, and what it is otherwise.
    Arguments(Extent, Bracketed),
}

/// A tree: as an expression, and as a piece of a name.
#[derive(Clone, Copy, Debug)]
pub(crate) struct Measured {
    pub(crate) extent: Extent,
    pub(crate) piece: Piece,
}

/// What is the same as an expression and behind other pieces.
pub(crate) fn alone(subtypes: &Store<IndicatedForm>, extent: Extent) -> Measured
    requires { IsWithin subtypes.now extent }
    ensures within { IsMeasuredWithin subtypes.now result }
    ensures is { (s : Shaped) → IsExtent subtypes.now extent s → IsMeasured subtypes.now result (shaping_as s) }
{
    Measured {
        extent,
        piece: Piece::Own(extent),
    }
}

/// What is nothing but a piece of a name.
pub(crate) fn piece_alone(subtypes: &Store<IndicatedForm>, piece: Piece) -> Measured
    requires { IsPieceWithin subtypes.now piece }
    ensures within { IsMeasuredWithin subtypes.now result }
    ensures is { (f : Shaped → Shaped) → IsPiece subtypes.now piece f → IsMeasured subtypes.now result (record no_shaping { piece = f }) }
{
    Measured {
        extent: nothing(subtypes),
        piece,
    }
}

/// What is nothing.
pub(crate) fn no_measure(subtypes: &Store<IndicatedForm>) -> Measured
    ensures within { IsMeasuredWithin subtypes.now result }
    ensures is { IsMeasured subtypes.now result no_shaping }
{
    let extent = nothing(subtypes);
    Measured {
        extent,
        piece: Piece::Own(extent),
    }
}

/// An element or a slice, or what has brackets of its own.
fn with_brackets(subtypes: &Store<IndicatedForm>, extent: Extent, brackets: Bracketed) -> Extent
    requires within { IsWithin subtypes.now extent }
    requires brackets_in { IsBracketedWithin subtypes.now brackets }
    ensures within { IsWithin subtypes.now result }
    ensures is { (p q : Shaped) → IsExtent subtypes.now extent p → IsBracketed subtypes.now brackets p q → IsExtent subtypes.now result q }
{
    match brackets {
        Bracketed::Own(own) => own,
        Bracketed::Element => of_subtype(subtypes, element_of(subtypes, extent.subtype)),
        Bracketed::Slice(bounds, known) => {
            of_subtype(subtypes, sliced(subtypes, extent.subtype, bounds, known))
        }
    }
}

/// A name with a further piece.
pub(crate) fn with_piece(
    subtypes: &Store<IndicatedForm>,
    fields: &mut FieldTable,
    extent: Extent,
    piece: Piece,
) -> Result<Extent, AllocError>
    requires within { IsWithin subtypes.now extent }
    requires piece_in { IsPieceWithin subtypes.now piece }
    requires fields { AreJumps fields.old.jumps.items subtypes.now }
    ensures within { IfOk result (IsWithin subtypes.now) }
    ensures is { (p : Shaped) (f : Shaped → Shaped) → IsExtent subtypes.now extent p → IsPiece subtypes.now piece f
        → IfOk result (λ x. IsExtent subtypes.now x (f p)) }
    ensures fields { AreJumps fields.new.jumps.items subtypes.now }
{
    match piece {
        Piece::Own(own) => Ok(own),
        Piece::Field(number) => {
            let field = field_of(subtypes, fields, extent.subtype, number)?;
            Ok(of_subtype(subtypes, field))
        }
        Piece::Arguments(called, otherwise) => {
            if extent.is_callee {
                Ok(called)
            } else {
                Ok(with_brackets(subtypes, extent, otherwise))
            }
        }
    }
}
