//! What the operators on TIME give. Its values count femtoseconds, from 0 to 2^63 - 1.

ghost use Rattle.std.specs.Prelude.{◌≡◌};
ghost use Rattle.vd_values.specs.Times.{IsTime, time_difference, time_of, time_product, time_quotient, time_sum};

use crate::scalar::StopKind;

/// This number as a value of TIME.
fn time_from(number: i128) -> Result<u64, StopKind>
    ensures { result ≡ time_of number }
{
    if number < 0 || number > i128::from(i64::MAX) {
        return Err(StopKind::Overflow);
    }
    Ok(number as u64)
}

/// The operator `+`.
pub fn time_add(a: u64, b: u64) -> Result<u64, StopKind>
    requires left { IsTime a }
    requires right { IsTime b }
    ensures { result ≡ time_sum a b }
{
    time_from(i128::from(a) + i128::from(b))
}

/// The operator `-`.
pub fn time_sub(a: u64, b: u64) -> Result<u64, StopKind>
    requires left { IsTime a }
    requires right { IsTime b }
    ensures { result ≡ time_difference a b }
{
    time_from(i128::from(a) - i128::from(b))
}

/// The operator `*` with a value of INTEGER on either side.
pub fn time_scale(a: u64, k: i32) -> Result<u64, StopKind>
    requires { IsTime a }
    ensures { result ≡ time_product a k }
{
    time_from(i128::from(a) * i128::from(k))
}

/// The operator `/` by a value of INTEGER.
pub fn time_div(a: u64, k: i32) -> Result<u64, StopKind>
    requires { IsTime a }
    ensures { result ≡ time_quotient a k }
{
    if k == 0 {
        return Err(StopKind::DivideByZero);
    }
    time_from(i128::from(a) / i128::from(k))
}
