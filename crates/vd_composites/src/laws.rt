//! Laws of the definitions, each as the contract of a function that does nothing.

ghost use Rattle.vd_composites.specs.Laws.{PlacesAreIndexes, RangesAreAsLong, FitsOnce, DefaultsFit, ConversionsKeepValues, PartsAgree, Concatenates, ConcatenationIsAssociative};

/// The places of a range and its indexes are the same things, and a range has as many values as it was made for.
pub fn places_are_indexes()
    ensures places { PlacesAreIndexes }
    ensures lengths { RangesAreAsLong }
{}

/// A value that is made one of a subtype has it, with its elements and fields as they were, and stays as it is when made so again.
/// Defaults are values of their subtype.
pub fn values_fit_once()
    ensures once { FitsOnce }
    ensures defaults { DefaultsFit }
{}

/// A conversion between array types that differ in their element subtypes alone is the identity.
pub fn conversions_keep_values()
    ensures { ConversionsKeepValues }
{}

/// What is put into a value is read there, every other part is read as before, a part put back changes nothing, and a slice has the
/// elements of its prefix. The leaves of the values are of any type `L`.
pub fn parts_agree<L>()
    ensures { PartsAgree L }
{}

/// A concatenation has the elements of its operands in order, and `&` is associative, in its stops too.
pub fn concatenations_join_elements()
    ensures elements { Concatenates }
    ensures associative { ConcatenationIsAssociative }
{}
