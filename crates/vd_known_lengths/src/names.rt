//! Names, piece by piece.

ghost use Rattle.std.specs.Prelude.{◌≡◌, ◌∷◌, IfOk, List, drop};
ghost use Rattle.std.specs.List.{All};
ghost use Rattle.vd_static_names.specs.Jumps.{AreJumps};
ghost use Rattle.vd_known_lengths.specs.Extents.{AreMeasured, IsExtent, IsMeasured, IsMeasuredWithin, IsWithin};
ghost use Rattle.vd_value_rules.specs.Lengths.{Shaped, Shaping, name_shaped, nth_shaping, whole_name_shaped};

use crate::extents::{Extent, nothing};
use crate::pieces::{Measured, no_measure, with_piece};
use std::alloc::AllocError;
use vd_forest::Store;
use vd_static_names::FieldTable;
use vd_value_rules::IndicatedForm;

/// The part with a number.
pub(crate) fn part(subtypes: &Store<IndicatedForm>, parts: &[Measured], number: usize) -> Measured
    requires { All (IsMeasuredWithin subtypes.now) parts.now }
    ensures within { IsMeasuredWithin subtypes.now result }
    ensures is { (ss : List Shaping) → AreMeasured subtypes.now parts.now ss → IsMeasured subtypes.now result (nth_shaping number ss) }
{
    match parts.get(number) {
        Some(part) => *part,
        None => no_measure(subtypes),
    }
}

/// The length of the part with a number.
pub(crate) fn length_of(
    subtypes: &Store<IndicatedForm>,
    parts: &[Measured],
    number: usize,
) -> Option<u128>
    ensures { (ss : List Shaping) → AreMeasured subtypes.now parts.now ss → (nth_shaping number ss).shaped.length ≡ result }
{
    match parts.get(number) {
        Some(part) => part.extent.length,
        None => None,
    }
}

/// A name with some pieces.
fn with_pieces(
    subtypes: &Store<IndicatedForm>,
    fields: &mut FieldTable,
    first: Extent,
    pieces: &[Measured],
) -> Result<Extent, AllocError>
    requires within { IsWithin subtypes.now first }
    requires pieces_in { All (IsMeasuredWithin subtypes.now) pieces.now }
    requires fields { AreJumps fields.old.jumps.items subtypes.now }
    ensures within { IfOk result (IsWithin subtypes.now) }
    ensures is { (p : Shaped) (ss : List Shaping) → IsExtent subtypes.now first p → AreMeasured subtypes.now pieces.now ss
        → IfOk result (λ x. IsExtent subtypes.now x (name_shaped ss p)) }
    ensures fields { AreJumps fields.new.jumps.items subtypes.now }
{
    let mut extent = first;
    for node in pieces {
        extent = with_piece(subtypes, fields, extent, node.piece)?;
    }
    Ok(extent)
}

/// A whole name: its first part, with the others as its pieces.
pub(crate) fn whole_name(
    subtypes: &Store<IndicatedForm>,
    fields: &mut FieldTable,
    parts: &[Measured],
) -> Result<Extent, AllocError>
    requires parts_in { All (IsMeasuredWithin subtypes.now) parts.now }
    requires fields { AreJumps fields.old.jumps.items subtypes.now }
    ensures within { IfOk result (IsWithin subtypes.now) }
    ensures is { (ss : List Shaping) → AreMeasured subtypes.now parts.now ss → IfOk result (λ x. IsExtent subtypes.now x (whole_name_shaped ss)) }
    ensures fields { AreJumps fields.new.jumps.items subtypes.now }
{
    match parts {
        [first, pieces @ ..] => with_pieces(subtypes, fields, first.extent, pieces),
        [] => Ok(nothing(subtypes)),
    }
}
