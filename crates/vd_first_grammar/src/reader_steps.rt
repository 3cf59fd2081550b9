//! Reading one token, or a run of known ones.

ghost use Rattle.std.specs.Prelude.{◌≡◌, map, option_copied};
ghost use Rattle.vd_first_grammar.specs.Given.{Gives, symbol_of};
ghost use Rattle.vd_first_grammar.specs.Symbols.{word, mark};
ghost use Rattle.vd_first_grammar.specs.Reader.{is, is_name, is_same_name, token_at, spelled_at, begins, optional_at};

use std::alloc::AllocError;
use vd_first_lex::tokens::{IS, Kind, Token};
use vd_trees::Revision;

/// Why reading stopped, and the tokens from where it did: no text goes on with the first of them, or it is too deep.
#[derive(Debug, Drop)]
pub(crate) enum Stop<'a> {
    Hopeless(&'a [Token]),
    Nesting(&'a [Token]),
    Memory,
}

impl From<AllocError> for Stop<'_> {
    ghost use Rattle.vd_first_grammar.specs.declared.reader_steps.Stop.TheVariants.{Memory};

    ghost from_gives = { λ _ made. made ≡ Memory };

    fn from(_: AllocError) -> Self {
        Stop::Memory
    }
}

/// What a production names: a word, a mark, a certain name, or the end of the file.
#[derive(Clone, Copy, Debug)]
pub(crate) enum Expected {
    Word(u16),
    Mark(u16),
    Named(&'static [u8]),
    End,
}

/// Whether a token is what a production names.
pub(crate) fn is_expected(expected: Expected, token: &Token) -> bool
    ensures { result ≡ is (symbol_of expected) token.now }
{
    match (expected, token.kind) {
        (Expected::Word(word), Kind::Word(number)) => number == word,
        (Expected::Mark(mark), Kind::Mark(number)) => number == mark,
        (Expected::Named(text), Kind::Name) => token.text.as_slice() == text,
        (Expected::End, Kind::End) => true,
        _ => false,
    }
}

/// The token that a production names, and those behind it.
#[tactic(auto, unfolding(crate::specs::Reader::token_at))]
pub(crate) fn expected_at<'a>(
    expected: Expected,
    tokens: &'a [Token],
) -> Result<(&'a Token, &'a [Token]), Stop<'a>>
    ensures { Gives (λ x. (x.0.now, x.1.now)) result (token_at (is (symbol_of expected)) tokens.now) }
{
    match tokens {
        [first, rest @ ..] if is_expected(expected, first) => Ok((first, rest)),
        _ => Err(Stop::Hopeless(tokens)),
    }
}

/// The tokens that a production names one by one, and those behind them.
pub(crate) fn spelled_at<'a>(
    expected: &[Expected],
    tokens: &'a [Token],
) -> Result<(&'a [Token], &'a [Token]), Stop<'a>>
    ensures { Gives (λ x. (x.0.now, x.1.now)) result (spelled_at (map symbol_of expected.now) tokens.now) }
{
    let mut rest = tokens;
    for next in expected {
        let (_, after) = expected_at(*next, rest)?;
        rest = after;
    }
    let (front, _) = tokens.split_at(tokens.len() - rest.len());
    Ok((front, rest))
}

/// Whether the first token is what a production names.
pub(crate) fn begins(expected: Expected, tokens: &[Token]) -> bool
    ensures { result ≡ begins (is (symbol_of expected)) tokens.now }
{
    match tokens {
        [first, ..] => is_expected(expected, first),
        [] => false,
    }
}

/// Whether the first token is a name.
pub(crate) fn begins_name(tokens: &[Token]) -> bool
    ensures { result ≡ begins is_name tokens.now }
{
    match tokens {
        [first, ..] => matches!(first.kind, Kind::Name),
        [] => false,
    }
}

/// A name that is this one, and the tokens behind it.
#[tactic(auto, unfolding(crate::specs::Reader::token_at))]
pub(crate) fn same_name_at<'a>(
    name: &Token,
    tokens: &'a [Token],
) -> Result<(&'a Token, &'a [Token]), Stop<'a>>
    ensures { Gives (λ x. (x.0.now, x.1.now)) result (token_at (is_same_name name.now.text) tokens.now) }
{
    match tokens {
        [first, rest @ ..]
            if matches!(first.kind, Kind::Name) && first.text.as_slice() == name.text.as_slice() =>
            Ok((first, rest)),
        _ => Err(Stop::Hopeless(tokens)),
    }
}

/// The name of a unit that is closed, which only revision 1993 may have here, and the tokens behind it.
#[tactic(auto, unfolding(crate::specs::Reader::optional_at))]
pub(crate) fn closing_at<'a>(
    revision: Revision,
    name: &Token,
    tokens: &'a [Token],
) -> Result<(Option<&'a Token>, &'a [Token]), Stop<'a>>
    ensures { Gives (λ x. (option_copied x.0, x.1.now)) result (optional_at revision is_name (is_same_name name.now.text) tokens.now) }
{
    match revision {
        Revision::V2019 => Ok((None, tokens)),
        Revision::V1993 => {
            if !begins_name(tokens) {
                return Ok((None, tokens));
            }
            let (closing, rest) = same_name_at(name, tokens)?;
            Ok((Some(closing), rest))
        }
    }
}

/// The word `is`, which only revision 1993 may have here, and the tokens behind it.
#[tactic(auto, unfolding(crate::specs::Reader::optional_at))]
pub(crate) fn is_at<'a>(
    revision: Revision,
    tokens: &'a [Token],
) -> Result<(Option<&'a Token>, &'a [Token]), Stop<'a>>
    ensures { Gives (λ x. (option_copied x.0, x.1.now)) result (optional_at revision (is (word IS)) (is (word IS)) tokens.now) }
{
    match revision {
        Revision::V2019 => Ok((None, tokens)),
        Revision::V1993 => {
            if !begins(Expected::Word(IS), tokens) {
                return Ok((None, tokens));
            }
            let (word, rest) = expected_at(Expected::Word(IS), tokens)?;
            Ok((Some(word), rest))
        }
    }
}
