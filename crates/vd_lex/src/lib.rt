//! The lexis of both revisions: a text's token list, or where it breaks.
#![tactic(auto)]

pub mod items;
pub mod laws;
pub mod lexer;
pub mod states;
mod tables;

pub use laws::{one_lexing, some_lexing, spellings_read_back};
pub use lexer::{lex19, lex93};
pub use vd_tokens::{Kind, Token, Tokens, spell, spell_into};
