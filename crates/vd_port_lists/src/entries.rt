//! Entries of the lists.

use crate::modes::PortMode;
use vd_bytes::Text;
use vd_declarations::DeclId;

/// A port, and its mode or view.
#[derive(Clone, Copy)]
pub struct ListedPort {
    pub number: DeclId,
    pub mode: PortMode,
}

/// An element of a view, by its name.
#[derive(Drop)]
pub struct ListedElement {
    pub name: Text,
    pub mode: PortMode,
}

/// An instance of a package, and the package.
#[derive(Clone, Copy)]
pub struct ListedInstance {
    pub generic: DeclId,
    pub instance: DeclId,
}
