//! What is known between two pieces of a text.

use vd_bytes::Place;
use vd_tokens::Kind;

/// The kind of the token that was read last; whether nothing but comments stands behind it; and the place of a comment that
/// isn't ended.
#[derive(Clone, Copy, PartialEq, Eq, Debug)]
pub struct State {
    pub last: Option<Kind>,
    pub near: bool,
    pub comment: Option<Place>,
}
