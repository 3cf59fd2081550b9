//! Numbers in 32 bits.

ghost use Rattle.std.specs.Prelude.{◌≡◌, ◌≤◌, ◌^◌, IfErr, IfOk};

use std::alloc::AllocError;

/// The same number in 32 bits. Only a number that takes more is answered by want of memory.
pub(crate) fn narrow(number: usize) -> Result<u32, AllocError>
    ensures same { IfOk result (λ small. small ≡ number) }
    ensures full { IfErr result (λ _. 2 ^ 32 ≤ number) }
{
    match u32::try_from(number) {
        Ok(small) => Ok(small),
        Err(_) => Err(AllocError),
    }
}
