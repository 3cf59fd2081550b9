//! Keys of tables.

ghost use Rattle.std.specs.Prelude.{◌≡◌, IfOk};

use std::alloc::{AllocError, Global};

/// A name in a region.
#[derive(PartialEq, Eq, Hash, Drop)]
pub struct Key {
    pub region: u32,
    pub name: Vec<u8>,
}

/// A name alone.
#[derive(PartialEq, Eq, Hash, Drop)]
pub struct Name {
    pub bytes: Vec<u8>,
}

/// What overloadable declarations have in common that may clash: region and name, whether they are operators that types brought with
/// them, or functions of an instance, and the types of result and parameters.
#[derive(PartialEq, Eq, Hash, Drop)]
pub struct Sort {
    pub region: u32,
    pub name: Vec<u8>,
    pub predefined: bool,
    pub copy: bool,
    pub profile: Vec<Option<u32>>,
}

/// A key for a region and a name.
pub fn key_of(alloc: Global, region: u32, name: &[u8]) -> Result<Key, AllocError>
    ensures { IfOk result (λ key. (key.region ≡ region) × (key.name.items ≡ name.now)) }
{
    let name = Vec::from_slice(alloc, name)?;
    Ok(Key { region, name })
}
