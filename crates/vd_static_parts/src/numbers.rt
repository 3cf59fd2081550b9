//! Numbers of declarations and of types, or 0 where there is none.

ghost use Rattle.std.specs.Prelude.{◌≡◌};
ghost use Rattle.vd_meaning.specs.Names.{number_or as or_zero};

use vd_declarations::{DeclId, TypeId};

/// The number of a declaration, or 0 where there is none.
pub fn number_or(declaration: Option<DeclId>) -> u32
    ensures { result ≡ or_zero declaration }
{
    match declaration {
        Some(declaration) => declaration.number(),
        None => 0,
    }
}

/// The number of a type, or 0 where there is none.
pub fn mark_number(mark: Option<TypeId>) -> u32
    ensures { result ≡ or_zero mark }
{
    match mark {
        Some(mark) => mark.number(),
        None => 0,
    }
}
