//! What a tree comes to.

use vd_bytes::Refused;

/// What a tree comes to: the number of its trees in the store that is made, and the first rule that is broken.
#[derive(Clone, Copy)]
pub struct Made {
    pub tree: u32,
    pub first: Option<Refused>,
}
