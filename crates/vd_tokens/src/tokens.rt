//! Lists of tokens.

ghost use Rattle.std.specs.Prelude.{◌≡◌, ◌++◌, ◌+◌, ◌<◌, ◌∷◌, ◌^◌, [], IfOk, OnOk, OnErr, Some, length, replicate, slice_get};
ghost use Rattle.vd_tokens.specs.Cells.{KeepsBytes};

use crate::kinds::Kind;
use std::alloc::{AllocError, Global};
use std::marker::Model;
use vd_bytes::Place;

/// A token: its kind, its text and the place of its first byte.
#[derive(Clone, Copy)]
pub struct Token<'a> {
    pub kind: Kind,
    pub text: &'a [u8],
    pub place: Place,
}

/// A token whose text is a part of the bytes that its list holds.
#[derive(Clone, Copy)]
struct Cell {
    kind: Kind,
    place: Place,
    start: u32,
    length: u32,
}

/// Tokens in their order. A token takes 24 bytes besides its text, and no allocation of its own.
#[derive(Drop)]
pub struct Tokens {
    cells: Vec<Cell>,
    texts: Vec<u8>,
}

impl Model for Tokens {
    ghost use Rattle.std.specs.Prelude.{List};
    ghost use Rattle.vd_tokens.specs.Lexemes.{Lexeme};

    ghost Value = { List Lexeme };

    ghost use Rattle.std.specs.Prelude.{map, length};
    ghost use Rattle.std.specs.List.{AllByRecursion};
    ghost use Rattle.vd_tokens.specs.Cells.{lexeme_in, IsWithin};

    ghost view = { λ a. map (lexeme_in a.texts.items) a.cells.items };

    ghost invariant = { λ a. AllByRecursion (IsWithin (length a.texts.items)) a.cells.items };
}

/// The same number in 32 bits. More than that has no room.
fn narrow(number: usize) -> Result<u32, AllocError>
    ensures { IfOk result (λ small. small ≡ number) }
{
    match u32::try_from(number) {
        Ok(small) => Ok(small),
        Err(_) => Err(AllocError),
    }
}

/// Puts so many equal bytes, and then a text, behind the bytes. What stood there stays.
fn append(bytes: &mut Vec<u8>, count: usize, fill: u8, text: &[u8]) -> Result<(), AllocError>
    ensures added { OnOk result (bytes.new.items ≡ bytes.old.items ++ (replicate count fill ++ text.now)) }
    ensures keeps { OnErr result (KeepsBytes bytes.old.items bytes.new.items) }
{
    let Some(end) = bytes.len().checked_add(count) else {
        return Err(AllocError);
    };
    bytes.resize(end, fill)?;
    bytes.extend_from_slice(text)?;
    Ok(())
}

impl Tokens {
    /// No tokens.
    pub fn new(alloc: Global) -> Tokens
        ensures { result ≡ [] }
    {
        Tokens {
            cells: Vec::new(alloc),
            texts: Vec::new(alloc),
        }
    }

    /// How many tokens there are.
    pub fn len(&self) -> usize
        ensures { result ≡ length self.now }
    {
        self.cells.len()
    }

    /// The token with a number, from 0.
    pub fn get(&self, index: usize) -> Token<'_>
        requires { index < length self.now }
        ensures { slice_get self.now index
            ≡ Some (record { kind = result.kind; text = result.text.now; place = result.place }) }
    {
        let cell = self.cells[index];
        let start = cell.start as usize;
        Token {
            kind: cell.kind,
            text: &self.texts[start..start + cell.length as usize],
            place: cell.place,
        }
    }

    /// Adds a token.
    pub fn push(&mut self, kind: Kind, text: &[u8], place: Place) -> Result<(), AllocError>
        ensures added { OnOk result (self.new ≡ self.old ++ record { kind = kind; text = text.now; place = place } ∷ []) }
        ensures unchanged { OnErr result (self.new ≡ self.old) }
    {
        self.push_filled(kind, 0, 0, text, place)
    }

    /// Adds a token whose text has so many equal bytes in front. No further room is taken for them.
    pub fn push_filled(
        &mut self,
        kind: Kind,
        count: usize,
        fill: u8,
        text: &[u8],
        place: Place,
    ) -> Result<(), AllocError>
        ensures added { OnOk result (self.new ≡ self.old
            ++ record { kind = kind; text = replicate count fill ++ text.now; place = place } ∷ []) }
        ensures unchanged { OnErr result (self.new ≡ self.old) }
    {
        let Some(whole) = count.checked_add(text.len()) else {
            return Err(AllocError);
        };
        let start = narrow(self.texts.len())?;
        let length = narrow(whole)?;
        append(&mut self.texts, count, fill, text)?;
        self.cells.push(Cell {
            kind,
            place,
            start,
            length,
        })?;
        Ok(())
    }
}
