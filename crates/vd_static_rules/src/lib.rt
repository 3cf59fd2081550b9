//! What must be known in elaboration, and the names of sensitivity lists.
//!
//! The actuals of generics that are types.
#![tactic(auto)]

mod copies;
pub mod elements;
pub mod statics;
pub mod types;

pub use statics::static_refusals;
pub use types::type_refusals;
