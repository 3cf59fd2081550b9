//! The rows of a map from the names of one text to those of the other.

use vd_bytes::Text;

/// What a row names.
#[derive(Clone, Copy, PartialEq, Eq, Debug)]
pub enum RowKind {
    Port,
    Signal,
    /// A signal that stands for the expression of an association.
    Implicit,
    /// An instance, or an alternative of a generate statement.
    Label,
    TypeName,
}

/// A name of the 2019 text, and that of the 1993 text.
#[derive(Debug, Drop)]
pub struct Row {
    pub kind: RowKind,
    /// `entity`, `entity(architecture)` or the package.
    pub unit: Text,
    pub name19: Text,
    pub name93: Text,
    /// The last identifier of the 2019 type mark.
    pub mark: Text,
    /// A port's mode, else empty.
    pub mode: Text,
    pub range: Text,
}
