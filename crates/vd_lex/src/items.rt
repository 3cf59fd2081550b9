//! The token that stands first.

ghost use Rattle.std.specs.Prelude.{◌≡◌, ◌+◌, ◌<◌, ◌≤◌, ◌∷◌, ◌++◌, [], true, false, length, drop, take, slice_index, replicate, IfOk, OnOk, IfSome, Some, None};
ghost use Rattle.vd_trees.specs.Identifiers as identifiers;
ghost use Rattle.vd_trees.specs.Words.{reserved_words};
ghost use Rattle.vd_tokens.specs.Spellings as spellings;
ghost use Rattle.vd_literals.specs.Runs as runs;
ghost use Rattle.vd_literals.specs.Bits as bits;
ghost use Rattle.vd_literals.specs.Bits.{bits_text};
ghost use Rattle.vd_literals.specs.Quoted as quoted;
ghost use Rattle.vd_literals.specs.Quoted.{undoubled};
ghost use Rattle.vd_literals.specs.Numbers as numbers;
ghost use Rattle.vd_trees.specs.declared.revision.Revision.TheVariants.{V2019};
ghost use Rattle.vd_literals.specs.declared.quoted.Before.TheVariants.{Start};
ghost use Rattle.vd_tokens.specs.declared.kinds.Kind.TheVariants.{Mark};
ghost use Rattle.vd_lex.specs.declared.items.Found.TheVariants.{Taken, Wrong};
ghost use Rattle.vd_lex.specs.Items as items;
ghost use Rattle.vd_lex.specs.Items.{item_of, FoundFits};

use crate::tables::{MarkTable, ReservedWords};
use itoa::Buffer;
use std::alloc::{AllocError, Global};
use vd_literals::bits::{BitsForm, Sign, are_taken, bits_form, expand_into, fit_of};
use vd_literals::bytes::{is_digit, is_graphic, is_letter};
use vd_literals::numbers::{NumberItem, number_at};
use vd_literals::quoted::{marks_end, undouble_into};
use vd_literals::runs::{more_length, run_length};
use vd_literals::values::value;
use vd_tokens::Kind;
use vd_tokens::kinds::{APOSTROPHE, CLOSING};
use vd_trees::Revision;

/// What a token's first byte is.
#[derive(Clone, Copy, PartialEq, Eq, Debug)]
pub enum First {
    Letter,
    Digit,
    Underscore,
    Quotation,
    Apostrophe,
    Backslash,
    Other,
}

/// What stands first: so many bytes are a token of this kind, whose text is so many equal bytes and the bytes of the buffer
/// from a place on; or a rule is broken, by a token of this kind if it is one.
#[derive(Clone, Copy, PartialEq, Eq, Debug)]
pub enum Found {
    Taken {
        n: usize,
        kind: Kind,
        count: usize,
        fill: u8,
        from: usize,
    },
    Wrong {
        kind: Option<Kind>,
        rule: u16,
    },
}

/// The buffers that texts of tokens are made in.
#[derive(Drop)]
pub struct Buffers {
    pub text: Vec<u8>,
    pub chars: Vec<u8>,
}

impl Buffers {
    /// Empty buffers.
    pub fn new(alloc: Global) -> Buffers
        ensures text { result.text.items ≡ [] }
        ensures chars { result.chars.items ≡ [] }
    {
        Buffers {
            text: Vec::new(alloc),
            chars: Vec::new(alloc),
        }
    }
}

fn wrong(kind: Option<Kind>, rule: u16) -> Found
    ensures { result ≡ Wrong kind rule }
{
    Found::Wrong { kind, rule }
}

/// A letter's lower case. Every other byte stays.
fn lower(b: u8) -> u8
    ensures { result ≡ identifiers.lower b }
{
    if b'A' <= b && b <= b'Z' { b + 32 } else { b }
}

/// A text in lower case takes the place of what a buffer holds.
fn lower_into(buffer: &mut Vec<u8>, text: &[u8]) -> Result<(), AllocError>
    ensures { OnOk result (buffer.new.items ≡ identifiers.lowered text.now) }
{
    buffer.clear();
    for b in text {
        buffer.push(lower(*b))?;
    }
    Ok(())
}

/// The name or reserved word of so many bytes.
fn name_found(words: &ReservedWords, buffer: &mut Vec<u8>, text: &[u8]) -> Result<Found, AllocError>
    requires { 0 < length text.now }
    ensures item { IfOk result (λ f. item_of buffer.new.items f ≡ items.name_item (length text.now) text.now
        (identifiers.place_among (reserved_words words.now.revision) (identifiers.lowered text.now))) }
    ensures fits { IfOk result (λ f. FoundFits (length text.now) (length buffer.new.items) f) }
{
    lower_into(buffer, text)?;
    match words.number_of(buffer) {
        Some(word) => {
            buffer.clear();
            Ok(Found::Taken {
                n: text.len(),
                kind: Kind::Word(word),
                count: 0,
                fill: 0,
                from: 0,
            })
        }
        None => Ok(Found::Taken {
            n: text.len(),
            kind: Kind::Name,
            count: 0,
            fill: 0,
            from: 0,
        }),
    }
}

/// The name or reserved word that a letter begins.
fn word_found(words: &ReservedWords, buffer: &mut Vec<u8>, rest: &[u8]) -> Result<Found, AllocError>
    requires { 0 < length rest.now }
    ensures item { IfOk result (λ f. item_of buffer.new.items f
        ≡ items.word_item words.now.revision (1 + runs.more_length true (drop 1 rest.now)) rest.now) }
    ensures fits { IfOk result (λ f. FoundFits (length rest.now) (length buffer.new.items) f) }
{
    let n = 1 + more_length(true, &rest[1..]);
    if n < rest.len() && rest[n] == b'_' {
        Ok(wrong(None, 103))
    } else {
        name_found(words, buffer, &rest[..n])
    }
}

/// The number that a digit begins.
fn number_found(buffer: &mut Vec<u8>, rest: &[u8]) -> Result<Found, AllocError>
    requires some { 0 < length rest.now }
    requires digit { spellings.is_digit (slice_index rest.now 0) ≡ true }
    ensures item { IfOk result (λ f. item_of buffer.new.items f ≡ items.number_item (numbers.number_at rest.now)) }
    ensures fits { IfOk result (λ f. FoundFits (length rest.now) (length buffer.new.items) f) }
{
    match number_at(rest) {
        NumberItem::Whole { length, value } => {
            let mut digits = Buffer::new();
            buffer.clear();
            buffer.extend_from_slice(digits.format(value).as_bytes())?;
            Ok(Found::Taken {
                n: length,
                kind: Kind::Number,
                count: 0,
                fill: 0,
                from: 0,
            })
        }
        NumberItem::OutOfRange => Ok(wrong(Some(Kind::Number), 104)),
        NumberItem::Real => Ok(wrong(None, 105)),
    }
}

/// Bits of so many bytes, by their base, their length and the text between their marks.
fn bits_found(
    revision: Revision,
    buffers: &mut Buffers,
    sign: Sign,
    width: usize,
    size: Option<u32>,
    body: &[u8],
    n: usize,
) -> Result<Found, AllocError>
    requires some { 0 < n }
    requires small { width ≤ 4 }
    ensures item { IfOk result (λ f. item_of buffers.new.text.items f
        ≡ items.bits_item n (bits_text revision sign width size (undoubled body.now))) }
    ensures fits { IfOk result (λ f. FoundFits n (length buffers.new.text.items) f) }
{
    undouble_into(&mut buffers.chars, body)?;
    if width == 0 || !are_taken(revision, width, &buffers.chars) {
        return Ok(wrong(None, 106));
    }
    expand_into(&mut buffers.text, width, &buffers.chars)?;
    match fit_of(sign, size, &buffers.text) {
        Some(fit) => Ok(Found::Taken {
            n,
            kind: Kind::Bits,
            count: fit.count,
            fill: fit.fill,
            from: fit.cut,
        }),
        None => Ok(wrong(None, 106)),
    }
}

/// The name, word or bits that a letter begins.
fn letter_found(
    words: &ReservedWords,
    buffers: &mut Buffers,
    rest: &[u8],
) -> Result<Found, AllocError>
    requires { 0 < length rest.now }
    ensures item { IfOk result (λ f. item_of buffers.new.text.items f
        ≡ items.letter_item words.now.revision rest.now) }
    ensures fits { IfOk result (λ f. FoundFits (length rest.now) (length buffers.new.text.items) f) }
{
    match bits_form(words.revision, 0, rest) {
        BitsForm::Absent => word_found(words, &mut buffers.text, rest),
        BitsForm::Unended => Ok(wrong(None, 102)),
        BitsForm::Whole {
            sign,
            width,
            start,
            end,
        } => bits_found(
            words.revision,
            buffers,
            sign,
            width,
            None,
            &rest[start..end],
            end + 1,
        ),
    }
}

/// The number, or the bits with a length, that a digit begins in 2019 text.
fn sized_found(buffers: &mut Buffers, rest: &[u8]) -> Result<Found, AllocError>
    requires some { 0 < length rest.now }
    requires digit { spellings.is_digit (slice_index rest.now 0) ≡ true }
    ensures item { IfOk result (λ f. item_of buffers.new.text.items f ≡ items.digit_item V2019 rest.now) }
    ensures fits { IfOk result (λ f. FoundFits (length rest.now) (length buffers.new.text.items) f) }
{
    let n = run_length(false, rest);
    match bits_form(Revision::V2019, n, rest) {
        BitsForm::Absent => number_found(&mut buffers.text, rest),
        BitsForm::Unended => Ok(wrong(None, 102)),
        BitsForm::Whole {
            sign,
            width,
            start,
            end,
        } => match value(10, &rest[..n]) {
            Some(size) => bits_found(
                Revision::V2019,
                buffers,
                sign,
                width,
                Some(size),
                &rest[start..end],
                end + 1,
            ),
            None => Ok(wrong(None, 104)),
        },
    }
}

/// The number, or the bits with a length, that a digit begins.
fn digit_found(revision: Revision, buffers: &mut Buffers, rest: &[u8]) -> Result<Found, AllocError>
    requires some { 0 < length rest.now }
    requires digit { spellings.is_digit (slice_index rest.now 0) ≡ true }
    ensures item { IfOk result (λ f. item_of buffers.new.text.items f ≡ items.digit_item revision rest.now) }
    ensures fits { IfOk result (λ f. FoundFits (length rest.now) (length buffers.new.text.items) f) }
{
    match revision {
        Revision::V2019 => sized_found(buffers, rest),
        Revision::V1993 => number_found(&mut buffers.text, rest),
    }
}

/// The text in marks behind its first mark.
fn quoted_found(buffer: &mut Vec<u8>, rest: &[u8]) -> Result<Found, AllocError>
    ensures item { IfOk result (λ f. item_of buffer.new.items f
        ≡ items.quoted_item rest.now (quoted.marks_end false Start rest.now)) }
    ensures fits { IfOk result (λ f. FoundFits (1 + length rest.now) (length buffer.new.items) f) }
{
    match marks_end(false, rest) {
        Some(n) => {
            undouble_into(buffer, &rest[..n - 1])?;
            Ok(Found::Taken {
                n: n + 1,
                kind: Kind::Quoted,
                count: 0,
                fill: 0,
                from: 0,
            })
        }
        None => Ok(wrong(None, 102)),
    }
}

/// Whether an apostrophe behind this token is the mark.
fn has_attribute(last: Option<Kind>) -> bool
    ensures { result ≡ items.has_attribute last }
{
    match last {
        Some(Kind::Name) => true,
        Some(Kind::Letter) => true,
        Some(Kind::Quoted) => true,
        Some(Kind::Mark(n)) => n == CLOSING,
        _ => false,
    }
}

/// The character and the apostrophe behind an apostrophe.
fn character_found(rest: &[u8]) -> Found
    ensures item { item_of [] result ≡ items.character_item rest.now }
    ensures fits { FoundFits (1 + length rest.now) 0 result }
{
    match rest {
        [b, b'\'', ..] => {
            if is_graphic(*b) {
                Found::Taken {
                    n: 3,
                    kind: Kind::Letter,
                    count: 1,
                    fill: *b,
                    from: 0,
                }
            } else {
                wrong(None, 102)
            }
        }
        _ => wrong(None, 102),
    }
}

/// The mark or letter that an apostrophe begins.
fn apostrophe_found(last: Option<Kind>, rest: &[u8]) -> Found
    ensures item { item_of [] result ≡ items.apostrophe_item last rest.now }
    ensures fits { FoundFits (1 + length rest.now) 0 result }
{
    if has_attribute(last) {
        Found::Taken {
            n: 1,
            kind: Kind::Mark(APOSTROPHE),
            count: 0,
            fill: 0,
            from: 0,
        }
    } else {
        character_found(rest)
    }
}

/// The mark of so many bytes, if one stands first.
fn mark_front(marks: &MarkTable, n: usize, rest: &[u8]) -> Option<u16>
    ensures mark { result ≡ items.mark_front marks.now.revision n rest.now }
    ensures within { IfSome result (λ k. n ≤ length rest.now) }
{
    if n <= rest.len() {
        marks.number_of(&rest[..n])
    } else {
        None
    }
}

fn mark_of(n: usize, number: u16) -> Found
    ensures { result ≡ Taken n (Mark number) 0 0 0 }
{
    Found::Taken {
        n,
        kind: Kind::Mark(number),
        count: 0,
        fill: 0,
        from: 0,
    }
}

/// The longest mark.
fn mark_found(marks: &MarkTable, rest: &[u8]) -> Found
    ensures item { item_of [] result ≡ items.mark_item marks.now.revision rest.now }
    ensures fits { FoundFits (length rest.now) 0 result }
{
    match mark_front(marks, 3, rest) {
        Some(number) => mark_of(3, number),
        None => match mark_front(marks, 2, rest) {
            Some(number) => mark_of(2, number),
            None => match mark_front(marks, 1, rest) {
                Some(number) => mark_of(1, number),
                None => wrong(None, 101),
            },
        },
    }
}

/// Whether two equal angles stand first.
fn are_angles(rest: &[u8]) -> bool
    requires { 0 < length rest.now }
    ensures { result ≡ items.are_angles (slice_index rest.now 0) (drop 1 rest.now) }
{
    match rest {
        [b'<', b'<', ..] => true,
        [b'>', b'>', ..] => true,
        _ => false,
    }
}

/// The mark that stands first.
fn other_found(marks: &MarkTable, rest: &[u8]) -> Found
    requires { 0 < length rest.now }
    ensures item { item_of [] result ≡ items.other_item marks.now.revision (slice_index rest.now 0) (drop 1 rest.now) }
    ensures fits { FoundFits (length rest.now) 0 result }
{
    if are_angles(rest) {
        wrong(None, 107)
    } else {
        mark_found(marks, rest)
    }
}

fn first_of(b: u8) -> First
    ensures { result ≡ items.first_of b }
{
    if is_letter(b) {
        First::Letter
    } else if is_digit(b) {
        First::Digit
    } else {
        match b {
            b'_' => First::Underscore,
            b'"' => First::Quotation,
            b'\'' => First::Apostrophe,
            b'\\' => First::Backslash,
            _ => First::Other,
        }
    }
}

/// What stands first, behind this token. The buffers hold its text.
pub(crate) fn item_found(
    words: &ReservedWords,
    marks: &MarkTable,
    buffers: &mut Buffers,
    last: Option<Kind>,
    rest: &[u8],
) -> Result<Found, AllocError>
    requires some { 0 < length rest.now }
    requires same { marks.now.revision ≡ words.now.revision }
    ensures item { IfOk result (λ f. item_of buffers.new.text.items f ≡ items.item_at words.now.revision last rest.now) }
    ensures fits { IfOk result (λ f. FoundFits (length rest.now) (length buffers.new.text.items) f) }
{
    match first_of(rest[0]) {
        First::Letter => letter_found(words, buffers, rest),
        First::Digit => digit_found(words.revision, buffers, rest),
        First::Underscore => Ok(wrong(None, 103)),
        First::Quotation => quoted_found(&mut buffers.text, &rest[1..]),
        First::Apostrophe => {
            buffers.text.clear();
            Ok(apostrophe_found(last, &rest[1..]))
        }
        First::Backslash => Ok(wrong(None, 107)),
        First::Other => {
            buffers.text.clear();
            Ok(other_found(marks, rest))
        }
    }
}
