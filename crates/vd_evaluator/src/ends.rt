//! Why an evaluation gives no value.

use vd_values::StopKind;

/// Why there is no value. No form that is taken here stops with a text.
#[derive(Clone, Copy, PartialEq, Eq, Debug)]
pub enum EvaluateEnd {
    Stop(StopKind),
    /// The expression has a form that isn't taken here.
    NotTaken,
    Memory,
}
