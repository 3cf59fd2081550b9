//! The lexer of both revisions.

ghost use Rattle.std.specs.Prelude.{◌≡◌, ◌++◌, ◌∷◌, ◌+◌, ◌<◌, ◌≤◌, ◌^◌, [], List, ℕ, true, false, length, drop, slice_index, IfOk, IfErr, OnOk, Some, None, if◌then◌else◌};
ghost use Rattle.std.specs.List.{AllByRecursion};
ghost use Rattle.vd_trees.specs.declared.revision.Revision.TheVariants.{V2019, V1993};
ghost use Rattle.vd_tokens.specs.Lexemes.{Lexeme};
ghost use Rattle.vd_tokens.specs.Spellings.{IsPossible, EndsOnce};
ghost use Rattle.vd_tokens.specs.declared.kinds.Kind.TheVariants.{End};
ghost use Rattle.vd_directives.specs.Lines.{ColumnsFit, end_place};
ghost use Rattle.vd_lex.specs.Items.{item_of, FoundFits};
ghost use Rattle.vd_lex.specs.Pieces as pieces;
ghost use Rattle.vd_lex.specs.Pieces.{piece_at, checked, first_state, past_line};
ghost use Rattle.vd_lex.specs.Lexis.{IsTokenList, IsBreakOf, HasOneLexing, HasSomeLexing};
ghost use Rattle.vd_lex.specs.Scans.{IsPieceRead, IsRefusedBy, IsLineRead, IsLineRefused, IsUnended};
ghost use Rattle.vd_lex.specs.Items as items;

use crate::items::{Buffers, Found, item_found};
use crate::states::State;
use crate::tables::{MarkTable, ReservedWords};
use std::alloc::{AllocError, Global};
use vd_bytes::{Place, Refusal, Refused};
use vd_directives::{Line, Selected};
use vd_tokens::{Kind, Tokens};
use vd_trees::Revision;

fn is_spacing(b: u8) -> bool
    ensures { result ≡ pieces.is_spacing b }
{
    b == b' ' || (9 <= b && b <= 13)
}

fn is_number(kind: Option<Kind>) -> bool
    ensures { result ≡ pieces.is_number kind }
{
    match kind {
        Some(Kind::Number) => true,
        _ => false,
    }
}

fn is_name_or_word(kind: Option<Kind>) -> bool
    ensures { result ≡ pieces.is_name_or_word kind }
{
    match kind {
        Some(Kind::Name) => true,
        Some(Kind::Word(_)) => true,
        _ => false,
    }
}

/// Whether two neighbours need spacing between them.
fn need_spacing(last: Option<Kind>, next: Option<Kind>) -> bool
    ensures { result ≡ pieces.need_spacing last next }
{
    (is_number(last) && (is_number(next) || is_name_or_word(next)))
        || (is_name_or_word(last) && is_number(next))
}

/// Whether a comment begins that may go on over lines.
fn begins_comment(revision: Revision, rest: &[u8]) -> bool
    requires { 0 < length rest.now }
    ensures { result ≡ pieces.begins_comment revision (slice_index rest.now 0) (drop 1 rest.now) }
{
    match revision {
        Revision::V2019 => match rest {
            [b'/', b'*', ..] => true,
            _ => false,
        },
        Revision::V1993 => false,
    }
}

/// Whether a comment begins that ends with the line.
fn begins_line_comment(rest: &[u8]) -> bool
    requires { 0 < length rest.now }
    ensures { result ≡ pieces.begins_line_comment (slice_index rest.now 0) (drop 1 rest.now) }
{
    match rest {
        [b'-', b'-', ..] => true,
        _ => false,
    }
}

/// Whether a comment ends.
fn ends_comment(rest: &[u8]) -> bool
    requires { 0 < length rest.now }
    ensures { result ≡ pieces.ends_comment (slice_index rest.now 0) (drop 1 rest.now) }
{
    match rest {
        [b'*', b'/', ..] => true,
        _ => false,
    }
}

/// What a run of the lexer holds: buffers for texts, what is known of what was read, and the tokens.
#[derive(Drop)]
struct Lexer {
    buffers: Buffers,
    state: State,
    tokens: Tokens,
}

impl Lexer {
    fn new(alloc: Global) -> Lexer
        ensures state { result.state ≡ first_state }
        ensures tokens { result.tokens ≡ [] }
    {
        Lexer {
            buffers: Buffers::new(alloc),
            state: State {
                last: None,
                near: false,
                comment: None,
            },
            tokens: Tokens::new(alloc),
        }
    }

    /// Whether a token of this kind stands too near to the one that was read last.
    fn is_too_near(&self, next: Option<Kind>) -> bool
        ensures { result ≡ pieces.is_too_near self.now.state next }
    {
        self.state.near && need_spacing(self.state.last, next)
    }

    /// Reads the token that stands first, behind no spacing and no comment. It answers the token's length.
    fn read_token(
        &mut self,
        words: &ReservedWords,
        marks: &MarkTable,
        place: Place,
        rest: &[u8],
    ) -> Result<usize, Refusal>
        requires some { 0 < length rest.now }
        requires same { marks.now.revision ≡ words.now.revision }
        ensures read { IfOk result (λ n. IsPieceRead (checked self.old.state
            (items.item_at words.now.revision self.old.state.last rest.now)) place n
            self.new.state self.old.tokens self.new.tokens) }
        ensures within { IfOk result (λ n. (0 < n) × (n ≤ length rest.now)) }
        ensures broken { IfErr result (IsRefusedBy (checked self.old.state
            (items.item_at words.now.revision self.old.state.last rest.now)) place) }
    {
        let found = item_found(words, marks, &mut self.buffers, self.state.last, rest).map_err(
            |_| Refusal::Memory,
        )?;
        match found {
            Found::Taken {
                n,
                kind,
                count,
                fill,
                from,
            } => {
                if self.is_too_near(Some(kind)) {
                    return Err(Refusal::Refused(Refused { place, rule: 103 }));
                }
                let text = &self.buffers.text[from..];
                self.tokens
                    .push_filled(kind, count, fill, text, place)
                    .map_err(|_| Refusal::Memory)?;
                self.state = State {
                    last: Some(kind),
                    near: true,
                    comment: None,
                };
                Ok(n)
            }
            Found::Wrong { kind, rule } => {
                let rule = if self.is_too_near(kind) { 103 } else { rule };
                Err(Refusal::Refused(Refused { place, rule }))
            }
        }
    }

    /// Passes over what stands first in a comment that may go on over lines. It answers how many bytes that are.
    fn pass_comment(&mut self, rest: &[u8]) -> usize
        requires { 0 < length rest.now }
        ensures state { self.new.state ≡ (if pieces.ends_comment (slice_index rest.now 0) (drop 1 rest.now)
            then pieces.with_comment None self.old.state else self.old.state) }
        ensures bytes { result ≡ (if pieces.ends_comment (slice_index rest.now 0) (drop 1 rest.now) then 2 else 1) }
        ensures within { result ≤ length rest.now }
        ensures tokens { self.new.tokens ≡ self.old.tokens }
    {
        if ends_comment(rest) {
            self.state.comment = None;
            2
        } else {
            1
        }
    }

    /// Reads the piece that stands first outside such a comment. It answers the piece's length.
    fn read_outside(
        &mut self,
        words: &ReservedWords,
        marks: &MarkTable,
        place: Place,
        rest: &[u8],
    ) -> Result<usize, Refusal>
        requires some { 0 < length rest.now }
        requires same { marks.now.revision ≡ words.now.revision }
        ensures read { IfOk result (λ n. IsPieceRead (pieces.outside words.now.revision self.old.state place
            (slice_index rest.now 0) (drop 1 rest.now)) place n self.new.state self.old.tokens self.new.tokens) }
        ensures within { IfOk result (λ n. (0 < n) × (n ≤ length rest.now)) }
        ensures broken { IfErr result (IsRefusedBy (pieces.outside words.now.revision self.old.state place
            (slice_index rest.now 0) (drop 1 rest.now)) place) }
    {
        if is_spacing(rest[0]) {
            self.state.near = false;
            return Ok(1);
        }
        if begins_line_comment(rest) {
            return Ok(rest.len());
        }
        if begins_comment(words.revision, rest) {
            self.state.comment = Some(place);
            return Ok(2);
        }
        let n = self.read_token(words, marks, place, rest)?;
        Ok(n)
    }

    /// Reads one piece of a line. It answers the piece's length.
    fn read_piece(
        &mut self,
        words: &ReservedWords,
        marks: &MarkTable,
        place: Place,
        rest: &[u8],
    ) -> Result<usize, Refusal>
        requires some { 0 < length rest.now }
        requires same { marks.now.revision ≡ words.now.revision }
        ensures read { IfOk result (λ n. IsPieceRead (piece_at words.now.revision self.old.state place rest.now) place n
            self.new.state self.old.tokens self.new.tokens) }
        ensures within { IfOk result (λ n. (0 < n) × (n ≤ length rest.now)) }
        ensures broken { IfErr result
            (IsRefusedBy (piece_at words.now.revision self.old.state place rest.now) place) }
    {
        match self.state.comment {
            Some(_) => {
                let n = self.pass_comment(rest);
                Ok(n)
            }
            None => {
                let n = self.read_outside(words, marks, place, rest)?;
                Ok(n)
            }
        }
    }

    /// Passes over the end of a line.
    fn pass_line_end(&mut self)
        ensures state { self.new.state ≡ past_line self.old.state }
        ensures tokens { self.new.tokens ≡ self.old.tokens }
    {
        match self.state.comment {
            Some(_) => {}
            None => self.state.near = false,
        }
    }

    /// The tokens, with the end at this place behind them, if no comment goes on there.
    fn finish(self, place: Place) -> Result<Tokens, Refusal>
        ensures read { IfOk result (λ ts. (self.state.comment ≡ None)
            × (ts ≡ self.tokens ++ record { kind = End; text = []; place = place } ∷ [])) }
        ensures broken { IfErr result (IsUnended self.state) }
    {
        let Lexer {
            buffers: _,
            state,
            mut tokens,
        } = self;
        match state.comment {
            Some(place) => Err(Refusal::Refused(Refused { place, rule: 102 })),
            None => match tokens.push(Kind::End, &[], place) {
                Ok(()) => Ok(tokens),
                Err(_) => Err(Refusal::Memory),
            },
        }
    }

    /// Reads the text of a line.
    fn read_line(
        &mut self,
        words: &ReservedWords,
        marks: &MarkTable,
        file: u32,
        line: &Line,
    ) -> Result<(), Refusal>
        requires same { marks.now.revision ≡ words.now.revision }
        requires fits { length line.now.bytes + 1 < 2 ^ 32 }
        ensures read { OnOk result (IsLineRead words.now.revision file line.now self.old.tokens self.new.tokens
            self.old.state self.new.state) }
        ensures broken { IfErr result (IsLineRefused words.now.revision file line.now self.old.state) }
    {
        let mut rest = line.bytes.as_slice();
        let mut place = Place {
            file,
            line: line.number,
            column: 1,
        };
        while !rest.is_empty() {
            let n = self.read_piece(words, marks, place, rest)?;
            let (_, after) = rest.split_at(n);
            rest = after;
            place.column += n as u32;
        }
        Ok(())
    }
}

/// The place behind the last byte of the last line.
fn end_of(text: &Selected) -> Place
    requires { ColumnsFit text.now }
    ensures { result ≡ end_place text.now.file text.now.lines }
{
    match text.lines.as_slice().last() {
        Some(line) => Place {
            file: text.file,
            line: line.number,
            column: (line.bytes.as_slice().len() + 1) as u32,
        },
        None => Place {
            file: text.file,
            line: 1,
            column: 1,
        },
    }
}

/// The tokens of a text of the revision that these tables are of.
fn lex_with(
    alloc: Global,
    words: &ReservedWords,
    marks: &MarkTable,
    text: &Selected,
) -> Result<Tokens, Refusal>
    requires fits { ColumnsFit text.now }
    requires same { marks.now.revision ≡ words.now.revision }
    ensures read { IfOk result (λ ts. IsTokenList words.now.revision text.now ts) }
    ensures broken { IfErr result (IsBreakOf words.now.revision text.now) }
{
    let mut lexer = Lexer::new(alloc);
    for line in text.lines.as_slice() {
        lexer.pass_line_end();
        lexer.read_line(words, marks, text.file, line)?;
    }
    lexer.finish(end_of(text))
}

/// The tokens of a text of some revision.
fn lex(alloc: Global, revision: Revision, text: &Selected) -> Result<Tokens, Refusal>
    requires { ColumnsFit text.now }
    ensures read { IfOk result (λ ts. IsTokenList revision text.now ts) }
    ensures possible { IfOk result (λ ts. AllByRecursion (IsPossible revision) ts) }
    ensures ends { IfOk result (λ ts. EndsOnce ts) }
    ensures broken { IfErr result (IsBreakOf revision text.now) }
{
    match ReservedWords::new(alloc, revision) {
        Ok(words) => match MarkTable::new(alloc, revision) {
            Ok(marks) => lex_with(alloc, &words, &marks, text),
            Err(_) => Err(Refusal::Memory),
        },
        Err(_) => Err(Refusal::Memory),
    }
}

/// The tokens of a 2019 text, with the end of the file behind them.
pub fn lex19(alloc: Global, text: &Selected) -> Result<Tokens, Refusal>
    requires { ColumnsFit text.now }
    ensures read { IfOk result (λ ts. IsTokenList V2019 text.now ts) }
    ensures possible { IfOk result (λ ts. AllByRecursion (IsPossible V2019) ts) }
    ensures ends { IfOk result (λ ts. EndsOnce ts) }
    ensures broken { IfErr result (IsBreakOf V2019 text.now) }
{
    lex(alloc, Revision::V2019, text)
}

/// The tokens of a 1993 text, with the end of the file behind them.
pub fn lex93(alloc: Global, text: &Selected) -> Result<Tokens, Refusal>
    requires { ColumnsFit text.now }
    ensures read { IfOk result (λ ts. IsTokenList V1993 text.now ts) }
    ensures possible { IfOk result (λ ts. AllByRecursion (IsPossible V1993) ts) }
    ensures ends { IfOk result (λ ts. EndsOnce ts) }
    ensures broken { IfErr result (IsBreakOf V1993 text.now) }
{
    lex(alloc, Revision::V1993, text)
}
