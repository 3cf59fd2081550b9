//! The words of directives.

ghost use Rattle.std.specs.Prelude.{◌≡◌, map};
ghost use Rattle.std.specs.List.{list_any};
ghost use Rattle.std.specs.Str.{bytes_eq};
ghost use Rattle.vd_trees.specs.Identifiers as identifiers;
ghost use Rattle.vd_directives.specs.Conditions as conditions;

use vd_tokens::words::WORDS;

/// What joins the relations of a chain.
#[derive(Clone, Copy, Drop)]
pub(crate) enum Operator {
    And,
    Or,
    Xor,
    Xnor,
}

/// What a word says in a condition.
#[derive(Clone, Copy, Drop)]
pub(crate) enum Keyword {
    Not,
    Then,
    Join(Operator),
    Other,
}

/// The identifiers that have a text.
#[derive(Clone, Copy, Drop)]
pub(crate) enum Known {
    Revision,
    ToolType,
    /// The tool's name, and its vendor's, which is the same.
    ToolName,
    ToolEdition,
    ToolVersion,
    /// Any other identifier.
    Unset,
}

/// What a word in lower case says in a condition.
pub(crate) fn keyword_of(word: &[u8]) -> Keyword
    ensures { result ≡ conditions.keyword_of word.now }
{
    if word == b"not".as_slice() {
        Keyword::Not
    } else if word == b"then".as_slice() {
        Keyword::Then
    } else if word == b"and".as_slice() {
        Keyword::Join(Operator::And)
    } else if word == b"or".as_slice() {
        Keyword::Join(Operator::Or)
    } else if word == b"xor".as_slice() {
        Keyword::Join(Operator::Xor)
    } else if word == b"xnor".as_slice() {
        Keyword::Join(Operator::Xnor)
    } else {
        Keyword::Other
    }
}

/// Which identifier a name in lower case is.
pub(crate) fn known_of(name: &[u8]) -> Known
    ensures { result ≡ conditions.known_of name.now }
{
    if name == b"vhdl_version".as_slice() {
        Known::Revision
    } else if name == b"tool_type".as_slice() {
        Known::ToolType
    } else if name == b"tool_vendor".as_slice() {
        Known::ToolName
    } else if name == b"tool_name".as_slice() {
        Known::ToolName
    } else if name == b"tool_edition".as_slice() {
        Known::ToolEdition
    } else if name == b"tool_version".as_slice() {
        Known::ToolVersion
    } else {
        Known::Unset
    }
}

/// An identifier's text.
pub(crate) fn text_of<'a>(tool: &'a [u8], known: Known) -> &'a [u8]
    ensures { result.now ≡ conditions.text_of tool.now known }
{
    match known {
        Known::Revision => b"2019",
        Known::ToolType => tool,
        Known::ToolName => b"VDOWN",
        Known::ToolEdition => b"1",
        Known::ToolVersion => b"1.0",
        Known::Unset => b"",
    }
}

fn is_letter(b: u8) -> bool
    ensures { result ≡ identifiers.is_letter b }
{
    (b'A' <= b && b <= b'Z') || (b'a' <= b && b <= b'z')
}

fn is_letter_or_digit(b: u8) -> bool
    ensures { result ≡ identifiers.is_letter_or_digit b }
{
    is_letter(b) || (b'0' <= b && b <= b'9')
}

/// Whether a text begins with a letter or a digit.
fn starts_with_letter_or_digit(text: &[u8]) -> bool
    ensures { result ≡ identifiers.starts_with_letter_or_digit text.now }
{
    match text {
        [] => false,
        [b, ..] => is_letter_or_digit(*b),
    }
}

/// Whether a text can go on with a name to its end.
fn is_name_rest(text: &[u8]) -> bool
    ensures { result ≡ identifiers.is_name_rest text.now }
{
    let mut rest = text;
    while let [b, after @ ..] = rest {
        if !is_letter_or_digit(*b) && !(*b == b'_' && starts_with_letter_or_digit(after)) {
            return false;
        }
        rest = after;
    }
    true
}

/// Whether a word is among some texts.
fn is_among(texts: &[&'static str], word: &[u8]) -> bool
    ensures { result ≡ list_any (bytes_eq word.now) (map (λ text. text.now) texts.now) }
{
    let mut rest = texts;
    while let [text, after @ ..] = rest {
        if word == text.as_bytes() {
            return true;
        }
        rest = after;
    }
    false
}

/// Whether a word is a reserved word in lower case.
fn is_reserved(word: &[u8]) -> bool
    ensures { result ≡ conditions.is_reserved word.now }
{
    is_among(&WORDS, word)
}

/// Whether a word in lower case is an identifier.
pub(crate) fn is_identifier(word: &[u8]) -> bool
    ensures { result ≡ conditions.is_identifier word.now }
{
    match word {
        [] => false,
        [b, rest @ ..] => is_letter(*b) && is_name_rest(rest) && !is_reserved(word),
    }
}
