//! Places in an expression.

use crate::seen::Seen;

/// What a place needs.
#[derive(Clone, Copy, PartialEq, Eq, Debug)]
pub enum Need {
    Value,
    Range,
    /// A range or a mark.
    DiscreteRange,
    /// A value, a range or a mark.
    Choice,
    Mark,
}

/// What the trees side by side from a place on are.
#[derive(Clone, Copy, PartialEq, Eq, Debug)]
pub enum Spot {
    /// No names.
    Skipped,
    /// One expression or range as it is needed, and nothing behind it.
    Only(Need),
    /// Expressions.
    Each(Need),
    /// A mark, and a range behind it.
    ConstrainedMark,
    /// Elements in brackets.
    Listed(Need),
    /// Choices, and a value behind them.
    Association,
    /// Choices. An identifier among them may be no name.
    Choices,
    /// A number, and a unit behind it.
    PhysicalValue,
    /// A unit of TIME.
    Unit,
    /// The first piece of a name.
    Head,
    /// The suffixes of a name.
    Pieces(Seen),
}
