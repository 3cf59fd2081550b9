//! Tokens: their kinds, lists of them, and their bytes.
#![tactic(auto)]

pub mod kinds;
pub mod spellings;
pub mod tokens;
pub mod words;

pub use kinds::Kind;
pub use spellings::{spell, spell_into};
pub use tokens::{Token, Tokens};
