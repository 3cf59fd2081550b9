//! What is wanted of expressions.

use vd_declarations::TypeId;

/// What is wanted of an expression where it stands.
#[derive(Clone, Copy, Debug)]
pub enum Wanted {
    /// A value of the type.
    OfType(TypeId),
    /// A condition: a value of type BOOLEAN, or in revision 2019 one that `??` makes into such a value.
    Condition,
    /// A value of any discrete type.
    Discrete,
    /// A value of any type.
    Free,
    /// A range of the type.
    Range(TypeId),
    /// A discrete range of the type.
    DiscreteRange(TypeId),
    /// A discrete range of any type.
    AnyDiscreteRange,
    /// A choice of the type: a value or a discrete range.
    Choice(TypeId),
}
