//! Positions of values, by which indexes and choices count.

ghost use Rattle.std.specs.Prelude.{IfOk};
ghost use Rattle.vd_meaning.specs.Names.{position_in};
ghost use Rattle.vd_static_values.specs.Entries.{IsFound};

use std::alloc::AllocError;
use vd_composites::Value;
use vd_plain_values::answers::scalar_position;

/// The position of a scalar value. A time above the greatest one, which no operator gives, is answered as want of memory.
pub fn position(value: &Value) -> Result<Option<i64>, AllocError>
    ensures { IfOk result (λ found. IsFound found (position_in value.now)) }
{
    match value.as_scalar() {
        Some(scalar) => {
            let at = scalar_position(scalar)?;
            Ok(Some(at))
        }
        None => Ok(None),
    }
}
