//! Ways to resolve a node.

use crate::states::State;
use vd_declarations::{DeclId, TypeId};

/// A way to resolve a node in a state: what the node gets, and the states of its parts and of what stands behind it.
#[derive(Clone, Copy, PartialEq, Eq, Debug)]
pub struct Way {
    pub declaration: Option<DeclId>,
    pub mark: Option<TypeId>,
    /// The position of the enumeration literal or record element that the node names, else 0.
    pub position: u32,
    pub inside: State,
    pub after: State,
}
