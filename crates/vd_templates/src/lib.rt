//! What is written of each form of revision 1993: the templates of the forms.
#![tactic(auto)]

pub mod laws;
mod pieces;
mod rows;
pub mod states;

pub use pieces::Piece;
pub use rows::TEMPLATES;
