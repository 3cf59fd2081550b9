//! What is seen of a name.

use vd_declarations::{DeclId, TypeId};

/// What a name is up to some suffix, by what is visible alone.
#[derive(Clone, Copy, PartialEq, Eq, Debug)]
pub enum Seen {
    /// A library or a unit.
    Unit(DeclId),
    /// A mark of the type.
    Mark(TypeId),
    /// A value of the type, perhaps a signal.
    Valued { mark: TypeId, signal: bool },
    /// A range.
    Ranged,
    /// An attribute of a type, behind which its argument stands.
    Awaiting,
    /// What only types can tell: a function, a literal, what stands behind these, an attribute.
    Unknown,
    /// It breaks the rule.
    Broken(u16),
}
