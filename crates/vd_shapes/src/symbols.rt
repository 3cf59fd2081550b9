//! The symbols of tokens.

ghost use Rattle.std.specs.Prelude.{◌≡◌, ◌<◌, IfOk, length, MatchOption};
ghost use Rattle.vd_shapes.specs.Reading.{symbol_of, symbols_in};

use crate::terminals::{BITS, JOIN, LETTER, NAME, NUMBER, QUOTED, TERMINALS, WORD_ABS};
use std::alloc::{AllocError, Global};
use vd_gram::{END, Symbol};
use vd_tokens::{Kind, Tokens};

/// The terminal that a token of a kind is.
pub(crate) fn symbol_of(kind: Kind) -> Symbol
    ensures { result ≡ symbol_of kind }
{
    match kind {
        Kind::Name => NAME,
        Kind::Number => NUMBER,
        Kind::Letter => LETTER,
        Kind::Quoted => QUOTED,
        Kind::Bits => BITS,
        Kind::Mark(number) => {
            if number < WORD_ABS - JOIN {
                number + JOIN
            } else {
                END
            }
        }
        Kind::Word(number) => {
            if number < TERMINALS - WORD_ABS {
                number + WORD_ABS
            } else {
                END
            }
        }
        Kind::End => END,
    }
}

/// The symbols of the tokens in front of the end.
#[tactic(auto, using(crate::proofs::SymbolLemmas::symbols))]
pub fn symbols_of(alloc: Global, tokens: &Tokens) -> Result<Vec<Symbol>, AllocError>
    ensures { IfOk result (λ symbols. symbols.items ≡ symbols_in tokens.now) }
{
    let mut symbols = Vec::new(alloc);
    let mut number = 1;
    while number < tokens.len() {
        symbols.push(symbol_of(tokens.get(number - 1).kind))?;
        number += 1;
    }
    Ok(symbols)
}
