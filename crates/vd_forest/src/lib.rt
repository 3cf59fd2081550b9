//! Trees as flat nodes in one store, which contracts see as pure forests.
#![tactic(auto)]

mod copying;
pub mod cursor;
mod numbers;
pub mod store;
pub mod texts;

pub use cursor::{Cursor, Opened};
pub use store::{Head, Store};
pub use texts::Texts;
