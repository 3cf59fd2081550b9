//! Names once more.

ghost use Rattle.std.specs.Prelude.{◌≡◌, IfOk};

use std::alloc::{AllocError, Global};
use vd_composites::Value;
use vd_static_values::KnownName;

/// The same value once more.
pub fn value_again(alloc: Global, value: &Option<Value>) -> Result<Option<Value>, AllocError>
    ensures { IfOk result (λ v. v ≡ value.now) }
{
    match value {
        Some(value) => {
            let copy = value.duplicate(alloc)?;
            Ok(Some(copy))
        }
        None => Ok(None),
    }
}

/// The same name once more.
pub fn again(alloc: Global, name: &KnownName) -> Result<KnownName, AllocError>
    ensures { IfOk result (λ x. x ≡ name.now) }
{
    let value = value_again(alloc, &name.value)?;
    Ok(KnownName {
        value,
        known: name.known,
        subtype: name.subtype,
        has_subtype: name.has_subtype,
        shape: name.shape,
        is_object: name.is_object,
        local_slices: name.local_slices,
        is_mark: name.is_mark,
        range: name.range,
        callee: name.callee,
        is_signal: name.is_signal,
        is_whole: name.is_whole,
    })
}
