//! What stands in brackets.

ghost use Rattle.std.specs.Prelude.{◌≡◌};
ghost use Rattle.vd_visible.specs.Brackets.{state_of};

use vd_declarations::TypeId;
use vd_states::{State, Want};

/// What stands in the brackets of an aggregate or of a qualified expression, where it has a type.
#[derive(Clone, Copy, PartialEq, Eq, Debug)]
pub enum Brackets {
    /// One expression.
    Expression,
    /// Elements of an array.
    Elements,
    /// Elements of a record, with the type of what `others` stands for.
    Fields { others: Option<TypeId> },
    /// Nothing that has an interpretation.
    Nothing,
}

impl Brackets {
    /// The state of what stands there.
    pub fn state(&self, mark: TypeId) -> Option<State>
        ensures { result ≡ state_of mark self.now }
    {
        match self {
            Brackets::Expression => Some(State::Only(Want::Value(mark))),
            Brackets::Elements => Some(State::Elements { array: mark }),
            Brackets::Fields { others } => Some(State::Fields {
                mark,
                index: Some(0),
                others: *others,
            }),
            Brackets::Nothing => None,
        }
    }
}
