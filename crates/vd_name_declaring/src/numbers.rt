//! Numbers that are counted on.

ghost use Rattle.std.specs.Prelude.{◌≡◌, suc, IfOk};

use std::alloc::AllocError;

/// The number behind another. Where there is none the walk ends as where memory runs out.
pub(crate) fn number_behind(number: u32) -> Result<u32, AllocError>
    ensures { IfOk result (λ behind. behind ≡ suc number) }
{
    match number.checked_add(1) {
        Some(behind) => Ok(behind),
        None => Err(AllocError),
    }
}
