//! Subtypes with evaluated bounds, values made values of them, and concatenation.
#![tactic(auto)]

mod defaults;
pub mod heads;
pub mod laws;
pub mod operands;
pub mod positional;
pub mod subtypes;

pub use heads::{SubtypeHead, fit};
pub use laws::heads_decide;
pub use operands::{OperandKind, concatenate};
pub use positional::{bounds_with_others, positional_array};
pub use subtypes::Subtype;
