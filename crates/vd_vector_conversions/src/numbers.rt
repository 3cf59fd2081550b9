//! Numbers of what nodes name, and of their types.

ghost use Rattle.std.specs.Prelude.{◌≡◌};

use vd_declarations::{DeclId, TypeId};

/// The number of a declaration.
pub fn number_named(declaration: &Option<DeclId>) -> Option<u32>
    ensures { result ≡ declaration.now }
{
    match declaration {
        Some(id) => Some(id.number()),
        None => None,
    }
}

/// The number of a type.
pub fn number_marked(mark: &Option<TypeId>) -> Option<u32>
    ensures { result ≡ mark.now }
{
    match mark {
        Some(id) => Some(id.number()),
        None => None,
    }
}

/// The declaration of a number.
pub fn declaration_numbered(number: Option<u32>) -> Option<DeclId>
    ensures { result ≡ number }
{
    match number {
        Some(number) => Some(DeclId::of(number)),
        None => None,
    }
}

/// The type of a number.
pub fn mark_numbered(number: Option<u32>) -> Option<TypeId>
    ensures { result ≡ number }
{
    match number {
        Some(number) => Some(TypeId::of(number)),
        None => None,
    }
}
