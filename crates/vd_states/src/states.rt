//! States: what is wanted of the trees that stand side by side from a place on.

use vd_declarations::{DeclId, TypeId};

/// What is wanted of one tree. (IEEE 1076, overload resolution: the context of the overloaded construct; ranges; choices)
#[derive(Clone, Copy, PartialEq, Eq, Hash, Debug)]
pub enum Want {
    /// A value of the type.
    Value(TypeId),
    /// A range of the type: two bounds, or an attribute that is a range.
    Range(TypeId),
    /// A discrete range of the type: a range, a mark, or a mark with a range.
    DiscreteRange(TypeId),
    /// A choice of the type: a value or a discrete range.
    Choice(TypeId),
    /// A mark of the type or of a subtype of it.
    Mark(TypeId),
}

/// What a name is up to some suffix. (IEEE 1076, names)
#[derive(Clone, Copy, PartialEq, Eq, Hash, Debug)]
pub enum Prefix {
    /// It names a declaration and is no value: a library, a unit, a type, a subtype, or a function that what stands behind calls.
    Named(DeclId),
    /// It has a value of the type. Where it is a signal name, it is a prefix of `'event`.
    Valued { mark: TypeId, signal: bool },
    /// It is a range of the type.
    Ranged(TypeId),
    /// It is an attribute that takes an argument of one type and gives a value of another.
    Attributed { argument: TypeId, result: TypeId },
}

/// What is wanted of the trees side by side from some place on. Each form of an expression sets the state of its first part, and each
/// part that of the place behind it.
#[derive(Clone, Copy, PartialEq, Eq, Hash, Debug)]
pub enum State {
    /// No tree.
    Done,
    /// One tree, as it is wanted.
    Only(Want),
    /// Any number of trees, each as it is wanted.
    Each(Want),
    /// One leaf that is looked up by what stands round it, or not at all.
    Leaf,
    /// A mark of the type, and a range of the type behind it.
    ConstrainedMark(TypeId),
    /// The number of a physical literal, and its unit behind it.
    PhysicalValue,
    /// The unit of a physical literal.
    PhysicalUnit,
    /// Operands or arguments, the first for the parameter of this index from 0.
    Arguments {
        function: DeclId,
        index: u32,
    },
    /// What stands in an association of a call: the name of the parameter, and its value behind it.
    Association {
        parameter: DeclId,
    },
    /// The one choice that names a parameter.
    Formal {
        parameter: DeclId,
    },
    /// Elements of an array aggregate.
    Elements {
        array: TypeId,
    },
    /// What stands in an association of an array aggregate: choices, and a value behind them.
    ElementAssociation {
        array: TypeId,
    },
    /// Elements of a record aggregate, a positional one being that of this index from 0, and none where there is no index. What `others`
    /// stands for has the type, where there is one.
    Fields {
        mark: TypeId,
        index: Option<u32>,
        others: Option<TypeId>,
    },
    /// What stands in an association of a record aggregate: choices, and a value of this type behind them.
    FieldAssociation {
        mark: TypeId,
        value: TypeId,
    },
    /// Choices that name elements of a record type.
    FieldNames {
        mark: TypeId,
    },
    /// The first piece of a name that is wanted so.
    Head {
        goal: Want,
    },
    /// The suffixes of a name that is wanted so.
    Suffixes {
        prefix: Prefix,
        goal: Want,
    },
}
