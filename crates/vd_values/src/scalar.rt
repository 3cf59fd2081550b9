//! Scalar values, and what stops a run.

/// A value of a scalar type.
#[derive(Clone, Copy, PartialEq, Eq, Debug)]
pub enum Scalar {
    /// A value of an integer type.
    Integer(i32),
    /// A literal of an enumeration type, by its position, from 0.
    Literal(u32),
    /// A value of TIME, in femtoseconds.
    Time(u64),
}

/// What stops an elaboration or a run.
#[derive(Clone, Copy, PartialEq, Eq, Debug)]
pub enum StopKind {
    /// A value outside its subtype, a bound or a result of an attribute outside the type, a negative exponent.
    Range,
    /// An index or a bound outside an array's bounds, a slice in another direction than its prefix.
    Index,
    /// Two arrays that must be equally long and aren't.
    Length,
    /// A result outside INTEGER or TIME.
    Overflow,
    DivideByZero,
    /// The end of a function without a `return`.
    NoReturn,
    /// Two sources of an unresolved signal.
    TwoSources,
    /// A report of severity `failure`.
    Failure,
}
