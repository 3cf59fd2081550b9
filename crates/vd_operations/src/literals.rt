//! Names of literals.

ghost use Rattle.std.specs.Prelude.{◌≡◌, ◌++◌, ◌∷◌, [], IfOk};

use std::alloc::{AllocError, Global};
use vd_bytes::Text;

/// A character literal with its apostrophes.
pub fn quoted(alloc: Global, character: &[u8]) -> Result<Text, AllocError>
    ensures { IfOk result (λ text. text ≡ 39 ∷ (character.now ++ 39 ∷ [])) }
{
    let mut bytes = Vec::new(alloc);
    bytes.push(b'\'')?;
    bytes.extend_from_slice(character)?;
    bytes.push(b'\'')?;
    let text = Text::from_slice(alloc, &bytes)?;
    Ok(text)
}
