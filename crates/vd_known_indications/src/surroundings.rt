//! What surrounds a node.

use vd_bytes::Place;

/// What surrounds a node, as far as rules ask for it.
#[derive(Clone, Copy, Debug)]
pub struct Surroundings {
    /// Whether its place gives bounds for an aggregate with `others`.
    pub is_bounded: bool,
    /// Whether it stands in text that is written out again elsewhere.
    pub is_copied: bool,
    /// The label in front of a statement.
    pub label: Option<Place>,
}
