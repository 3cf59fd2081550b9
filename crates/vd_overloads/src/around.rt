//! What stands round a tree.

/// What a tree is a part of, as far as choices go.
#[derive(Clone, Copy, PartialEq, Eq, Debug, Drop)]
pub enum Around {
    /// The arguments of a call.
    Arguments,
    /// The choices of an element of an aggregate.
    Choices,
    Anything,
}
