//! Why a call gives no value.

use vd_values::StopKind;

/// Why there is no value.
#[derive(Clone, Copy, PartialEq, Eq, Debug)]
pub enum ValueEnd {
    Stop(StopKind),
    Memory,
}
