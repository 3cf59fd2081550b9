//! The lexer of both revisions.

ghost use Rattle.std.specs.Prelude.{◌≡◌, ◌≢◌, ℕ, ◌+◌, ◌*◌, ◌<◌, ◌≤◌, ◌^◌, true, false, List, [], ◌∷◌, ◌++◌, length, drop, slice_index, Some, None, IfSome, IfNone, IfOk, IfErr, OnOk};
ghost use Rattle.std.specs.List.{AllByRecursion};
ghost use Rattle.vd_trees.specs.declared.revision.Revision.{Revision};
ghost use Rattle.vd_trees.specs.declared.revision.Revision.TheVariants.{V2019, V1993};
ghost use Rattle.vd_trees.specs.Identifiers as identifiers;
ghost use Rattle.vd_first_lex.specs.declared.tokens.Kind.TheVariants.{Mark};
ghost use Rattle.vd_first_lex.specs.Lexis as lexis;
ghost use Rattle.vd_first_lex.specs.Lexis.{kind_of, line_spots, end_place, IsTokenList};
ghost use Rattle.vd_first_lex.specs.Lexings.{ColumnsFit, HasOneLexing, HasSomeLexing, IsBreakOf, IsPossible, EndsOnce};
ghost use Rattle.vd_first_lex.specs.LexingExample.{ReadsWorkedLine, BreaksWorkedLine};
ghost use Rattle.vd_first_lex.specs.Scans.{goes_on, IsLongestName, BeginsToken, BeginsNone, spots_from, token_at, kind_of_name, moved, ReadsTokens, IsBreakWithin};

use crate::reserved::ReservedWords;
use crate::selected::{Line, Selected};
use crate::tokens::{ARROW, CLOSING, COLON, COMMA, Kind, OPENING, POINT, SEMICOLON, Token};
use std::alloc::{AllocError, Global};
use vd_bytes::{Place, Refusal, Refused, Text};
use vd_trees::Revision;

fn is_spacing(b: u8) -> bool
    ensures { result ≡ lexis.is_spacing b }
{
    b == b' ' || (9 <= b && b <= 13)
}

fn is_letter(b: u8) -> bool
    ensures { result ≡ identifiers.is_letter b }
{
    (b'A' <= b && b <= b'Z') || (b'a' <= b && b <= b'z')
}

fn is_letter_or_digit(b: u8) -> bool
    ensures { result ≡ identifiers.is_letter_or_digit b }
{
    is_letter(b) || (b'0' <= b && b <= b'9')
}

/// Whether the first byte goes on with a name.
fn continues(rest: &[u8]) -> bool
    requires { 0 < length rest.now }
    ensures { result ≡ goes_on rest.now }
{
    is_letter_or_digit(rest[0])
        || (rest[0] == b'_' && rest.len() > 1 && is_letter_or_digit(rest[1]))
}

/// How long the name is that a letter begins.
fn name_length(rest: &[u8]) -> usize
    requires some { 0 < length rest.now }
    requires letter { identifiers.is_letter (slice_index rest.now 0) ≡ true }
    ensures { IsLongestName rest.now result }
{
    let mut n = 1;
    while n < rest.len() && continues(&rest[n..]) {
        n += 1;
    }
    n
}

/// The number of a mark of one byte. The revisions have the same marks, so it is said of one of them.
fn single_mark(b: u8) -> Option<u16>
    requires other { identifiers.is_letter b ≡ false }
    requires no_arrow { b ≢ 60 }
    ensures found { IfSome result (λ n. kind_of V2019 (b ∷ []) ≡ Some (Mark n)) }
    ensures longest { IfSome result
        (λ n. (more : List ℕ) → more ≢ [] → kind_of V2019 (b ∷ more) ≡ None) }
    ensures none { IfNone result ((more : List ℕ) → kind_of V2019 (b ∷ more) ≡ None) }
{
    match b {
        b'(' => Some(OPENING),
        b')' => Some(CLOSING),
        b',' => Some(COMMA),
        b'.' => Some(POINT),
        b':' => Some(COLON),
        b';' => Some(SEMICOLON),
        _ => None,
    }
}

/// The number and the length of the mark that stands first.
fn mark(rest: &[u8]) -> Option<(u16, usize)>
    requires some { 0 < length rest.now }
    requires other { identifiers.is_letter (slice_index rest.now 0) ≡ false }
    ensures found { IfSome result (λ m. (r : Revision) → BeginsToken r rest.now m.1 (Mark m.0)) }
    ensures none { IfNone result ((r : Revision) → BeginsNone r rest.now) }
{
    if rest[0] == b'<' {
        if rest.len() > 1 && rest[1] == b'=' {
            Some((ARROW, 2))
        } else {
            None
        }
    } else {
        match single_mark(rest[0]) {
            Some(n) => Some((n, 1)),
            None => None,
        }
    }
}

/// A letter's lower case. Every other byte stays.
fn lower(b: u8) -> u8
    ensures { result ≡ identifiers.lower b }
{
    if b'A' <= b && b <= b'Z' { b + 32 } else { b }
}

/// A text in lower case takes the place of what a buffer holds.
fn lower_into(buffer: &mut Vec<u8>, text: &[u8]) -> Result<(), AllocError>
    ensures { OnOk result (buffer.new.items ≡ identifiers.lowered text.now) }
{
    buffer.clear();
    for b in text {
        buffer.push(lower(*b))?;
    }
    Ok(())
}

/// What a run of the lexer holds: a buffer for a name, and the tokens that are read.
#[derive(Drop)]
struct Lexer {
    alloc: Global,
    lowered: Vec<u8>,
    tokens: Vec<Token>,
}

impl Lexer {
    fn new(alloc: Global) -> Lexer
        ensures { result.tokens.items ≡ [] }
    {
        Lexer {
            alloc,
            lowered: Vec::new(alloc),
            tokens: Vec::new(alloc),
        }
    }

    /// Adds the token of a name or of a reserved word.
    fn add_name(
        &mut self,
        words: &ReservedWords,
        place: Place,
        text: &[u8],
    ) -> Result<(), AllocError>
        ensures { OnOk result (self.new.tokens.items ≡ self.old.tokens.items
            ++ token_at place (kind_of_name words.now.revision text.now) text.now ∷ []) }
    {
        lower_into(&mut self.lowered, text)?;
        let token = match words.number_of(&self.lowered) {
            Some(n) => Token {
                kind: Kind::Word(n),
                text: Text::from_slice(self.alloc, &[])?,
                place,
            },
            None => Token {
                kind: Kind::Name,
                text: Text::from_slice(self.alloc, &self.lowered)?,
                place,
            },
        };
        self.tokens.push(token)?;
        Ok(())
    }

    /// Adds a token without text.
    fn add_mark(&mut self, place: Place, kind: Kind) -> Result<(), AllocError>
        ensures { OnOk result (self.new.tokens.items
            ≡ self.old.tokens.items ++ record { kind = kind; text = []; place = place } ∷ []) }
    {
        let text = Text::from_slice(self.alloc, &[])?;
        self.tokens.push(Token { kind, text, place })?;
        Ok(())
    }

    /// Reads one piece of a line: a byte of spacing or a token. It answers the piece's length.
    fn read_piece(
        &mut self,
        words: &ReservedWords,
        place: Place,
        rest: &[u8],
    ) -> Result<usize, Refusal>
        requires { 0 < length rest.now }
        ensures within { IfOk result (λ n. (0 < n) × (n ≤ length rest.now)) }
        ensures read { IfOk result
            (λ n. ReadsTokens words.now.revision self.old.tokens.items self.new.tokens.items
            (spots_from place rest.now) (spots_from (moved place n) (drop n rest.now))) }
        ensures broken { IfErr result
            (IsBreakWithin words.now.revision (spots_from place rest.now)) }
    {
        if is_spacing(rest[0]) {
            return Ok(1);
        }
        if is_letter(rest[0]) {
            let n = name_length(rest);
            self.add_name(words, place, &rest[..n])
                .map_err(|_| Refusal::Memory)?;
            return Ok(n);
        }
        match mark(rest) {
            Some((number, n)) => {
                self.add_mark(place, Kind::Mark(number))
                    .map_err(|_| Refusal::Memory)?;
                Ok(n)
            }
            None => Err(Refusal::Refused(Refused { place, rule: 101 })),
        }
    }

    /// Reads a line.
    fn read_line(&mut self, words: &ReservedWords, file: u32, line: &Line) -> Result<(), Refusal>
        requires { length line.now.bytes + 1 < 2 ^ 32 }
        ensures read { OnOk result
            (ReadsTokens words.now.revision self.old.tokens.items self.new.tokens.items
            (line_spots file line.now.number 1 line.now.bytes) []) }
        ensures broken { IfErr result (IsBreakWithin words.now.revision
            (line_spots file line.now.number 1 line.now.bytes)) }
    {
        let mut rest = line.bytes.as_slice();
        let mut place = Place {
            file,
            line: line.number,
            column: 1,
        };
        while !rest.is_empty() {
            let n = self.read_piece(words, place, rest)?;
            let (_, after) = rest.split_at(n);
            rest = after;
            place.column += n as u32;
        }
        Ok(())
    }
}

/// The place behind the last byte of the last line.
fn end_of(text: &Selected) -> Place
    requires { ColumnsFit text.now }
    ensures { result ≡ end_place text.now.file text.now.lines }
{
    match text.lines.as_slice().last() {
        Some(line) => Place {
            file: text.file,
            line: line.number,
            column: (line.bytes.as_slice().len() + 1) as u32,
        },
        None => Place {
            file: text.file,
            line: 1,
            column: 1,
        },
    }
}

/// The tokens of a text of some revision.
fn lex(alloc: Global, revision: Revision, text: &Selected) -> Result<Vec<Token>, Refusal>
    requires { ColumnsFit text.now }
    ensures read { IfOk result (λ v. IsTokenList revision text.now v.items) }
    ensures possible { IfOk result (λ v. AllByRecursion (IsPossible revision) v.items) }
    ensures ends { IfOk result (λ v. EndsOnce v.items) }
    ensures broken { IfErr result (IsBreakOf revision text.now) }
{
    let words = ReservedWords::new(alloc, revision).map_err(|_| Refusal::Memory)?;
    let mut lexer = Lexer::new(alloc);
    for line in text.lines.as_slice() {
        lexer.read_line(&words, text.file, line)?;
    }
    lexer
        .add_mark(end_of(text), Kind::End)
        .map_err(|_| Refusal::Memory)?;
    let Lexer {
        alloc: _,
        lowered: _,
        tokens,
    } = lexer;
    Ok(tokens)
}

/// The tokens of a 2019 text, with the end of the file behind them.
pub fn lex19(alloc: Global, text: &Selected) -> Result<Vec<Token>, Refusal>
    requires { ColumnsFit text.now }
    ensures read { IfOk result (λ v. IsTokenList V2019 text.now v.items) }
    ensures possible { IfOk result (λ v. AllByRecursion (IsPossible V2019) v.items) }
    ensures ends { IfOk result (λ v. EndsOnce v.items) }
    ensures broken { IfErr result (IsBreakOf V2019 text.now) }
{
    lex(alloc, Revision::V2019, text)
}

/// The tokens of a 1993 text, with the end of the file behind them.
pub fn lex93(alloc: Global, text: &Selected) -> Result<Vec<Token>, Refusal>
    requires { ColumnsFit text.now }
    ensures read { IfOk result (λ v. IsTokenList V1993 text.now v.items) }
    ensures possible { IfOk result (λ v. AllByRecursion (IsPossible V1993) v.items) }
    ensures ends { IfOk result (λ v. EndsOnce v.items) }
    ensures broken { IfErr result (IsBreakOf V1993 text.now) }
{
    lex(alloc, Revision::V1993, text)
}

/// A text is read in one way only. So the answers of `lex19` and `lex93` are the only ones.
pub fn one_lexing()
    ensures { HasOneLexing }
{}

/// A text has a token list or a break.
pub fn some_lexing()
    ensures { HasSomeLexing }
{}

/// What two short lines are, by the definitions alone.
pub fn worked_lines()
    ensures reads { ReadsWorkedLine }
    ensures breaks { BreaksWorkedLine }
{}
