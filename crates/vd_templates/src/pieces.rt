//! What templates are made of.

use crate::states::State;
use vd_forms::Form;
use vd_gram::Symbol;

/// A piece of the templates. They are one list of rows. A row is one head or several, and then what is written of the trees
/// that the heads name.
#[derive(Clone, Copy, PartialEq, Eq, Debug)]
pub enum Piece {
    /// A head: trees of this form, in this state.
    Of(State, Form),
    /// A head: all other trees, in this state.
    AnyOther(State),
    /// A reserved word or a mark, by its terminal.
    Token(Symbol),
    /// The text of the leaf, as a token of its kind.
    Own,
    /// The tree as it is. It stands in rows of other states alone.
    Itself,
    /// The part with this number, counted from 0, in a state.
    Part(u8, State),
    /// The parts from this number on, as they are, with a token in front of each.
    Listed(u8, Symbol),
    /// The parts from this number on, as they are.
    Parts(u8),
    /// Nothing is written. A row without other pieces has this one.
    Nothing,
    /// The line ends here.
    EndLine,
    /// Lines that begin behind this stand one level further in.
    Inward,
    /// Lines that begin behind this stand one level further out.
    Outward,
}
