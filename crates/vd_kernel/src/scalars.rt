//! When scalar values are one.

ghost use Rattle.std.specs.Prelude.{◌≡◌};
ghost use Rattle.vd_kernel.specs.Drivers.{is_same_value};

use vd_values::Scalar;

/// Whether two scalar values are one, as events and projected waveforms compare them.
pub fn same_value(a: Scalar, b: Scalar) -> bool
    ensures { result ≡ is_same_value a b }
{
    a == b
}
