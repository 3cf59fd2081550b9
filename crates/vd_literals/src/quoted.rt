//! Texts between quotation marks.

ghost use Rattle.std.specs.Prelude.{◌≡◌, ◌+◌, ◌<◌, ◌≤◌, ◌++◌, length, drop, IfSome, OnOk, Some, None};
ghost use Rattle.vd_literals.specs.Quoted as quoted;
ghost use Rattle.vd_literals.specs.declared.quoted.Before.TheVariants.{Start};

use crate::bytes::is_graphic;
use std::alloc::AllocError;

/// What stands before a byte of a text in marks.
#[derive(Clone, Copy, PartialEq, Eq, Debug)]
pub enum Before {
    Start,
    Character,
    Underscore,
}

/// What a byte is to a text in marks.
#[derive(Clone, Copy, PartialEq, Eq, Debug)]
pub enum Role {
    /// It can't stand there.
    Stops,
    /// It is the last mark.
    Ends,
    /// It belongs to the text, and is what stands before the next byte.
    Goes(Before),
    /// It is a doubled mark of the text, or the last mark.
    MayEnd,
    /// It is a doubled mark of the text.
    Doubled,
}

fn begins_with(mark: u8, rest: &[u8]) -> bool
    ensures { result ≡ quoted.begins_with mark rest.now }
{
    !rest.is_empty() && rest[0] == mark
}

fn at_mark(before: Before, rest: &[u8]) -> Role
    ensures { result ≡ quoted.at_mark before rest.now }
{
    let closes = match before {
        Before::Underscore => false,
        _ => true,
    };
    if begins_with(b'"', rest) {
        if closes { Role::MayEnd } else { Role::Doubled }
    } else {
        if closes { Role::Ends } else { Role::Stops }
    }
}

fn at_underscore(before: Before) -> Role
    ensures { result ≡ quoted.at_underscore before }
{
    match before {
        Before::Character => Role::Goes(Before::Underscore),
        _ => Role::Stops,
    }
}

/// What the first byte is to a text in marks.
fn role_of(single: bool, before: Before, rest: &[u8]) -> Role
    requires { 0 < length rest.now }
    ensures { result ≡ quoted.role_of single before rest.now }
{
    let b = rest[0];
    if b == b'"' {
        at_mark(before, &rest[1..])
    } else if single && b == b'_' {
        at_underscore(before)
    } else if is_graphic(b) {
        Role::Goes(Before::Character)
    } else {
        Role::Stops
    }
}

/// How many bytes the longest text in marks has behind its first mark, its last mark included.
pub fn marks_end(single: bool, rest: &[u8]) -> Option<usize>
    ensures marks { result ≡ quoted.marks_end single Start rest.now }
    ensures within { IfSome result (λ n. (0 < n) × (n ≤ length rest.now)) }
{
    let mut i = 0;
    let mut before = Before::Start;
    let mut last = None;
    while i < rest.len() {
        match role_of(single, before, &rest[i..]) {
            Role::Stops => return last,
            Role::Ends => return Some(i + 1),
            Role::Goes(next) => {
                i += 1;
                before = next;
            }
            Role::MayEnd => {
                last = Some(i + 1);
                i += 2;
                before = Before::Character;
            }
            Role::Doubled => {
                i += 2;
                before = Before::Character;
            }
        }
    }
    last
}

/// A text takes the place of what a buffer holds, each doubled mark single.
pub fn undouble_into(buffer: &mut Vec<u8>, text: &[u8]) -> Result<(), AllocError>
    ensures { OnOk result (buffer.new.items ≡ quoted.undoubled text.now) }
{
    buffer.clear();
    let mut rest = text;
    loop {
        match rest {
            [] => break,
            [b'"', _, more @ ..] => {
                buffer.push(b'"')?;
                rest = more;
            }
            [b, more @ ..] => {
                buffer.push(*b)?;
                rest = more;
            }
        }
    }
    Ok(())
}
