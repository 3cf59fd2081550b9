//! Laws of the definitions, each the contract of a function that does nothing.

ghost use Rattle.vd_meaning_laws.specs.Plain.{PiecesAreSettled, ExpressionsArePlain};
ghost use Rattle.vd_meaning_laws.specs.PlaceLaws.{PartsAreSeen, NodesSeeParts, ValuesSeeParts, ValueNodesSeeParts, ValuesAlike, ConversionsKeepValues, VectorsAreKept};

/// A node sees of a part that it only evaluates nothing but the value, how static it is, what it reads and how it is associated.
pub fn evaluated_parts_are_seen_as_values()
    ensures parts { PartsAreSeen }
    ensures nodes { NodesSeeParts }
    ensures values { ValuesAlike }
{}

/// A node that is only evaluated itself sees so of its parts, and of the expression in an association.
pub fn evaluated_nodes_see_parts_as_values()
    ensures parts { ValuesSeeParts }
    ensures nodes { ValueNodesSeeParts }
{}

/// A conversion between the two vector types is seen as the expression that it stands round. One to a type of arrays of any bounds
/// leaves the arrays of this type as they are.
pub fn conversions_keep_values()
    ensures expressions { ConversionsKeepValues }
    ensures vectors { VectorsAreKept }
{}

/// Names, string literals, operators and expressions in brackets have a value that doesn't depend on the place where they stand.
pub fn expressions_are_plain()
    ensures pieces { PiecesAreSettled }
    ensures expressions { ExpressionsArePlain }
{}
