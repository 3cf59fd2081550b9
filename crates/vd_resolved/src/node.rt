//! Nodes of resolved trees.

use vd_declarations::{DeclId, TypeId};
use vd_forms::Form;

/// What stands at a node of a resolved tree beside its text and its place.
#[derive(Clone, Copy, Debug)]
pub struct Resolved {
    /// The alternative of the grammar that it comes from.
    pub form: Form,
    /// What a name means, and the operator or function that a call calls.
    pub declaration: Option<DeclId>,
    /// The type of an expression.
    pub mark: Option<TypeId>,
    /// The position of the enumeration literal or record element that a name means; 0 at every other node.
    pub position: u32,
}
