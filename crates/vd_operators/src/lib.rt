//! Every predefined operator, attribute and conversion on values.
#![tactic(auto)]

pub mod applying;
pub mod arithmetic;
pub mod attributes;
pub mod laws;
pub mod op;
pub mod texts;

pub use applying::apply;
pub use arithmetic::{IntegerOperator, SignOperator, TimeOperator};
pub use attributes::{DiscreteAttribute, Side, array_range};
pub use laws::support_texts_are_operators;
pub use op::{BinaryOp, Op, UnaryOp};
pub use texts::{LiteralName, TextOperator};
