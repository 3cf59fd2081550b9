//! What the operators on INTEGER give. Its values are -2147483647 to 2147483647, so that each has its sign turned.

ghost use Rattle.std.specs.Prelude.{◌≡◌};
ghost use Rattle.vd_integers.specs.Integers.{IsInteger, integer_of, sum, difference, product, quotient, remainder, modulus, power, negation, absolute};

use vd_values::StopKind;

/// The greatest value of INTEGER. The least one is its negative.
const GREATEST: i64 = 2_147_483_647;

/// This number as a value of INTEGER.
fn integer_from(number: i64) -> Result<i32, StopKind>
    ensures { result ≡ integer_of number }
{
    if number < -GREATEST || number > GREATEST {
        return Err(StopKind::Overflow);
    }
    Ok(number as i32)
}

/// The operator `+` with two operands.
pub fn integer_add(a: i32, b: i32) -> Result<i32, StopKind>
    ensures { result ≡ sum a b }
{
    integer_from(i64::from(a) + i64::from(b))
}

/// The operator `-` with two operands.
pub fn integer_subtract(a: i32, b: i32) -> Result<i32, StopKind>
    ensures { result ≡ difference a b }
{
    integer_from(i64::from(a) - i64::from(b))
}

/// The operator `*`.
pub fn integer_multiply(a: i32, b: i32) -> Result<i32, StopKind>
    ensures { result ≡ product a b }
{
    match i64::from(a).checked_mul(i64::from(b)) {
        Some(number) => integer_from(number),
        None => Err(StopKind::Overflow),
    }
}

/// The operator `/`, which truncates toward zero.
pub fn integer_divide(a: i32, b: i32) -> Result<i32, StopKind>
    requires left { IsInteger a }
    ensures { result ≡ quotient a b }
{
    if b == 0 {
        return Err(StopKind::DivideByZero);
    }
    Ok(a / b)
}

/// The operator `rem`, whose result has the sign of the left operand.
pub fn integer_remainder(a: i32, b: i32) -> Result<i32, StopKind>
    requires left { IsInteger a }
    ensures { result ≡ remainder a b }
{
    if b == 0 {
        return Err(StopKind::DivideByZero);
    }
    Ok(a % b)
}

/// The operator `mod`, whose result has the sign of the right operand.
pub fn integer_modulus(a: i32, b: i32) -> Result<i32, StopKind>
    requires left { IsInteger a }
    requires right { IsInteger b }
    ensures { result ≡ modulus a b }
{
    if b == 0 {
        return Err(StopKind::DivideByZero);
    }
    if b > 0 {
        return Ok(a.rem_euclid(b));
    }
    Ok(-(-a).rem_euclid(b))
}

/// The operator `**`, by repeated multiplication. An exponent that is negative stops.
pub fn integer_power(a: i32, exponent: i32) -> Result<i32, StopKind>
    ensures { result ≡ power a exponent }
{
    let Ok(exponent) = u32::try_from(exponent) else {
        return Err(StopKind::Range);
    };
    match i64::from(a).checked_pow(exponent) {
        Some(number) => integer_from(number),
        None => Err(StopKind::Overflow),
    }
}

/// The operator `-` with one operand.
pub fn integer_negate(a: i32) -> Result<i32, StopKind>
    ensures { result ≡ negation a }
{
    integer_from(-i64::from(a))
}

/// The operator `abs`.
pub fn integer_absolute(a: i32) -> Result<i32, StopKind>
    ensures { result ≡ absolute a }
{
    integer_from(i64::from(a).abs())
}
