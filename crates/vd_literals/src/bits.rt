//! Bit string literals.

ghost use Rattle.std.specs.Prelude.{◌≡◌, ◌+◌, ◌<◌, ◌≤◌, ◌^◌, ◌++◌, length, drop, replicate, IfSome, OnOk, MatchOption, IfOk, Some, None, true, ◌==◌};
ghost use Rattle.std.specs.List.{list_all};
ghost use Rattle.vd_literals.specs.Bits as bits;
ghost use Rattle.vd_literals.specs.Bits.{BitsFit, is_taken, sized};

use crate::bytes::digit_value;
use crate::quoted::marks_end;
use std::alloc::AllocError;
use vd_trees::Revision;

/// How bits are made longer or shorter.
#[derive(Clone, Copy, PartialEq, Eq, Debug)]
pub enum Sign {
    Plain,
    Unsigned,
    Signed,
}

/// A base: its sign, how many elements a character gives (0 for the base 'D', which isn't in the profile), and how many
/// letters it has.
#[derive(Clone, Copy, PartialEq, Eq, Debug)]
pub struct Base {
    pub sign: Sign,
    pub width: usize,
    pub letters: usize,
}

/// What bits stand first: none; some whose text has no end; or some with the places from and up to which their text
/// stands, without its marks.
#[derive(Clone, Copy, PartialEq, Eq, Debug)]
pub enum BitsForm {
    Absent,
    Unended,
    Whole {
        sign: Sign,
        width: usize,
        start: usize,
        end: usize,
    },
}

/// How elements become a text: so many equal ones come in front, and so many are cut on the left.
#[derive(Clone, Copy, PartialEq, Eq, Debug)]
pub struct Fit {
    pub count: usize,
    pub fill: u8,
    pub cut: usize,
}

/// How many elements a character of the base gives.
fn width_of(b: u8) -> Option<usize>
    ensures width { result ≡ bits.width_of b }
    ensures small { IfSome result (λ w. w ≤ 4) }
{
    match b {
        b'B' | b'b' => Some(1),
        b'O' | b'o' => Some(3),
        b'X' | b'x' => Some(4),
        _ => None,
    }
}

fn base_with(sign: Sign, letters: usize, width: Option<usize>) -> Option<Base>
    requires { IfSome width (λ w. w ≤ 4) }
    ensures base { result ≡ bits.base_with sign letters width }
    ensures small { IfSome result (λ b. (b.letters ≡ letters) × (b.width ≤ 4)) }
{
    match width {
        Some(width) => Some(Base {
            sign,
            width,
            letters,
        }),
        None => None,
    }
}

fn plain_base(b: u8) -> Option<Base>
    ensures base { result ≡ bits.plain_base b }
    ensures small { IfSome result (λ b. (b.letters ≡ 1) × (b.width ≤ 4)) }
{
    if b == b'D' || b == b'd' {
        base_with(Sign::Plain, 1, Some(0))
    } else {
        base_with(Sign::Plain, 1, width_of(b))
    }
}

fn signed_base(s: u8, b: u8) -> Option<Base>
    ensures base { result ≡ bits.signed_base s b }
    ensures small { IfSome result (λ b. (b.letters ≡ 2) × (b.width ≤ 4)) }
{
    if s == b'U' || s == b'u' {
        base_with(Sign::Unsigned, 2, width_of(b))
    } else if s == b'S' || s == b's' {
        base_with(Sign::Signed, 2, width_of(b))
    } else {
        None
    }
}

fn longer_base(revision: Revision, s: u8, b: u8, rest: &[u8]) -> Option<Base>
    ensures base { result ≡ bits.longer_base revision s b rest.now }
    ensures small { IfSome result (λ b. (b.letters ≡ 2) × (1 ≤ length rest.now) × (b.width ≤ 4)) }
{
    match revision {
        Revision::V2019 => {
            if !rest.is_empty() && rest[0] == b'"' {
                signed_base(s, b)
            } else {
                None
            }
        }
        Revision::V1993 => None,
    }
}

/// The base that stands first, with a mark behind it.
fn base_at(revision: Revision, rest: &[u8]) -> Option<Base>
    ensures base { result ≡ bits.base_at revision rest.now }
    ensures small { IfSome result (λ b. (b.letters + 1 ≤ length rest.now) × (b.width ≤ 4)) }
{
    match rest {
        [b, b'"', ..] => plain_base(*b),
        [s, b, more @ ..] => longer_base(revision, *s, *b, more),
        _ => None,
    }
}

/// The form of bits whose base and mark take so many bytes, together with what stands before them.
fn form_with(sign: Sign, width: usize, start: usize, rest: &[u8]) -> BitsForm
    requires some { 0 < start }
    requires short { start + length rest.now < 2 ^ 63 }
    requires small { width ≤ 4 }
    ensures form { result ≡ bits.form_with sign width start rest.now }
    ensures fits { BitsFit (start + length rest.now) result }
{
    match marks_end(true, rest) {
        Some(n) => BitsForm::Whole {
            sign,
            width,
            start,
            end: start + n - 1,
        },
        None => match marks_end(false, rest) {
            Some(_) => BitsForm::Absent,
            None => BitsForm::Unended,
        },
    }
}

/// The bits that stand first, with a length of so many bytes.
pub fn bits_form(revision: Revision, n: usize, rest: &[u8]) -> BitsForm
    requires { n ≤ length rest.now }
    ensures form { result ≡ bits.bits_form revision n rest.now }
    ensures fits { BitsFit (length rest.now) result }
{
    match base_at(revision, &rest[n..]) {
        Some(base) => {
            let start = n + base.letters + 1;
            form_with(base.sign, base.width, start, &rest[start..])
        }
        None => BitsForm::Absent,
    }
}

/// Whether the revision takes each character.
pub fn are_taken(revision: Revision, width: usize, chars: &[u8]) -> bool
    requires { width ≤ 4 }
    ensures { result ≡ list_all (is_taken revision width) chars.now }
{
    match revision {
        Revision::V2019 => true,
        Revision::V1993 => chars
            .iter()
            .all(|b| *b == b'_' || digit_value(*b) < 1 << width),
    }
}

/// The last so many binary digits of a number come behind what a buffer holds.
fn push_binary(buffer: &mut Vec<u8>, width: usize, value: u32) -> Result<(), AllocError>
    requires { width ≤ 4 }
    ensures { OnOk result (buffer.new.items ≡ buffer.old.items ++ bits.binary width value) }
{
    let mut left = width;
    while left > 0 {
        left -= 1;
        buffer.push(b'0' + (value / (1 << left) % 2) as u8)?;
    }
    Ok(())
}

/// A byte comes so often behind what a buffer holds.
fn push_copies(buffer: &mut Vec<u8>, count: usize, b: u8) -> Result<(), AllocError>
    requires { count ≤ 4 }
    ensures { OnOk result (buffer.new.items ≡ buffer.old.items ++ replicate count b) }
{
    let mut left = count;
    while left > 0 {
        left -= 1;
        buffer.push(b)?;
    }
    Ok(())
}

/// The elements of a character come behind what a buffer holds.
fn push_elements(buffer: &mut Vec<u8>, width: usize, b: u8) -> Result<(), AllocError>
    requires { width ≤ 4 }
    ensures { OnOk result (buffer.new.items ≡ buffer.old.items ++ bits.elements_of width b) }
{
    let value = digit_value(b);
    if value < 1 << width {
        push_binary(buffer, width, value)
    } else {
        push_copies(buffer, width, b)
    }
}

/// The elements of characters take the place of what a buffer holds.
pub fn expand_into(buffer: &mut Vec<u8>, width: usize, chars: &[u8]) -> Result<(), AllocError>
    requires { width ≤ 4 }
    ensures { OnOk result (buffer.new.items ≡ bits.elements width chars.now) }
{
    buffer.clear();
    for b in chars {
        if *b != b'_' {
            push_elements(buffer, width, *b)?;
        }
    }
    Ok(())
}

/// Whether each byte is this one.
fn are_all(b: u8, bytes: &[u8]) -> bool
    ensures { result ≡ list_all (λ g. g == b) bytes.now }
{
    bytes.iter().all(|g| *g == b)
}

fn is_cut_of(sign: Sign, gone: &[u8], rest: &[u8]) -> bool
    ensures { result ≡ bits.is_cut_of sign gone.now rest.now }
{
    match sign {
        Sign::Signed => !rest.is_empty() && are_all(rest[0], gone),
        _ => are_all(b'0', gone),
    }
}

/// What comes in front of elements that get longer by so many.
fn padding(sign: Sign, count: usize, elements: &[u8]) -> Option<Fit>
    ensures { MatchOption result (bits.padded sign count elements.now ≡ None)
        (λ f. (bits.padded sign count elements.now ≡ Some (replicate f.count f.fill ++ drop f.cut elements.now))
        × (f.cut ≤ length elements.now)) }
{
    match sign {
        Sign::Signed => {
            if elements.is_empty() {
                return None;
            }
            Some(Fit {
                count,
                fill: elements[0],
                cut: 0,
            })
        }
        _ => Some(Fit {
            count,
            fill: b'0',
            cut: 0,
        }),
    }
}

/// How elements become a text of so many, if they do.
pub fn fit_of(sign: Sign, size: Option<u32>, elements: &[u8]) -> Option<Fit>
    ensures { MatchOption result (sized sign size elements.now ≡ None)
        (λ f. (sized sign size elements.now ≡ Some (replicate f.count f.fill ++ drop f.cut elements.now))
        × (f.cut ≤ length elements.now)) }
{
    let whole = elements.len();
    let size = match size {
        Some(n) => n as usize,
        None => whole,
    };
    if whole < size {
        return padding(sign, size - whole, elements);
    }
    let cut = whole - size;
    if cut > 0 && !is_cut_of(sign, &elements[..cut], &elements[cut..]) {
        return None;
    }
    Some(Fit {
        count: 0,
        fill: b'0',
        cut,
    })
}
