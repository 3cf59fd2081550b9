//! Elements of maps.

use vd_bytes::Place;
use vd_declarations::DeclId;
use vd_forest::Cursor;
use vd_forms::Form;

/// An element of a map: where it stands, the generic that it is for, whether it is known which one it is for, and its actual, which is the first
/// tree of a forest.
#[derive(Drop)]
pub struct Element<'a> {
    pub place: Place,
    pub generic: Option<DeclId>,
    pub is_known: bool,
    pub actual: Cursor<'a, Form>,
}
