//! The nodes of subtypes as trees.

use crate::statics::StaticSort;
use vd_composites::{Bounds, ScalarSubtype};

/// A node of a subtype as a tree.
#[derive(Clone, Copy, Debug)]
pub enum IndicatedForm {
    /// A scalar subtype; its parts are the literals of its type.
    Scalar {
        subtype: ScalarSubtype,
        is_resolved: bool,
        range: StaticSort,
    },
    /// Arrays of any bounds; the first part is the subtype of the elements, the further ones are the literals of the index type.
    Unbounded {
        index: ScalarSubtype,
        known: StaticSort,
    },
    /// Arrays of these bounds, with such parts.
    Bounded {
        index: ScalarSubtype,
        bounds: Bounds,
        known: StaticSort,
    },
    /// Records; its parts are the subtypes of the fields, and the text of each is the name of its field.
    Record,
    /// A literal of an enumeration type; its text is how it is written.
    Literal,
}
