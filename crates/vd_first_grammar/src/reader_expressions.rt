//! Reading expressions. Nesting takes stack, as deep as the limit on it, and a chain of operands takes none.

ghost use Rattle.std.specs.Prelude.{◌≡◌, ◌≤◌, List, length, IfOk, Ok};
ghost use Rattle.vd_forest.specs.Forest.{Forest};
ghost use Rattle.vd_forest.specs.Store.{at, Extends};
ghost use Rattle.vd_first_grammar.specs.Given.{Gives};
ghost use Rattle.vd_first_grammar.specs.Refusals.{place_of_token};
ghost use Rattle.vd_first_grammar.specs.Shapes.{identifier};
ghost use Rattle.vd_first_grammar.specs.Reader.{begins_expression, begins, name_before, name_tree, name_at, brackets_at, primary_at, inverted_at, factor_at, conjoined_at, chain_at, expression_at};

use crate::reader_names::{Names, name_outside_at};
use crate::reader_steps::{Expected, Stop, begins, begins_name, expected_at};
use std::alloc::AllocError;
use vd_bytes::Place;
use vd_first_lex::tokens::{AND, CLOSING, NOT, OPENING, Token};
use vd_first_trees::Form;
use vd_forest::Store;

/// The place of a token of a list.
pub(crate) fn place_at(tokens: &[Token], index: usize) -> Place
    ensures { result ≡ place_of_token tokens.now index }
{
    match tokens.get(index) {
        Some(token) => token.place,
        None => Place {
            file: 0,
            line: 0,
            column: 0,
        },
    }
}

/// An identifier's tree, before the trees of `next`.
pub(crate) fn add_identifier(
    store: &mut Store<Form>,
    token: &Token,
    next: u32,
) -> Result<u32, AllocError>
    requires { next ≤ length store.old }
    ensures tree { IfOk result (λ made. at store.new made ≡ identifier token.now (at store.old next)) }
    ensures within { IfOk result (λ made. made ≤ length store.new) }
    ensures extends { Extends store.old store.new }
{
    let made = store.add(
        Form::Identifier,
        token.text.as_slice(),
        token.place,
        0,
        next,
    )?;
    Ok(made)
}

/// A name's tree.
pub(crate) fn add_name(store: &mut Store<Form>, token: &Token, next: u32) -> Result<u32, AllocError>
    requires { next ≤ length store.old }
    ensures tree { IfOk result (λ made. at store.new made ≡ name_before token.now (at store.old next)) }
    ensures within { IfOk result (λ made. made ≤ length store.new) }
    ensures extends { Extends store.old store.new }
{
    let part = add_identifier(store, token, 0)?;
    store.add(Form::Name, &[], token.place, part, next)
}

/// An expression in which as many may stand in one another as `allowance` says.
#[cycle(expression)]
#[tactic(auto, unfolding(crate::specs::Reader::expression_at))]
pub(crate) fn expression_at<'a>(
    store: &mut Store<Form>,
    outs: &Names,
    allowance: u32,
    tokens: &'a [Token],
) -> Result<(u32, &'a [Token]), Stop<'a>>
    ensures tree { Gives (λ x. (at store.new x.0, x.1.now)) result (expression_at outs.now allowance tokens.now) }
    ensures within { IfOk result (λ x. x.0 ≤ length store.new) }
    ensures extends { Extends store.old store.new }
{
    if allowance == 0 {
        let fits = begins_name(tokens)
            || begins(Expected::Mark(OPENING), tokens)
            || begins(Expected::Word(NOT), tokens);
        return Err(if fits {
            Stop::Nesting(tokens)
        } else {
            Stop::Hopeless(tokens)
        });
    }
    chain_at(store, outs, allowance - 1, tokens)
}

/// Operands with `and` between them.
#[cycle(expression)]
#[tactic(auto, unfolding(crate::specs::Reader::chain_at))]
fn chain_at<'a>(
    store: &mut Store<Form>,
    outs: &Names,
    inner: u32,
    tokens: &'a [Token],
) -> Result<(u32, &'a [Token]), Stop<'a>>
    ensures tree { Gives (λ x. (at store.new x.0, x.1.now)) result (chain_at outs.now (expression_at outs.now inner) tokens.now) }
    ensures within { IfOk result (λ x. x.0 ≤ length store.new) }
    ensures extends { Extends store.old store.new }
{
    let place = place_at(tokens, 0);
    let (mut left, mut rest) = factor_at(store, outs, inner, tokens)?;
    while begins(Expected::Word(AND), rest) {
        let (made, after) = conjoined_at(store, outs, inner, place, left, rest)?;
        left = made;
        rest = after;
    }
    Ok((left, rest))
}

/// The word `and` and its right operand. The place is that of the left one.
#[cycle(expression)]
#[tactic(auto, unfolding(crate::specs::Reader::conjoined_at))]
fn conjoined_at<'a>(
    store: &mut Store<Form>,
    outs: &Names,
    inner: u32,
    place: Place,
    left: u32,
    tokens: &'a [Token],
) -> Result<(u32, &'a [Token]), Stop<'a>>
    requires { left ≤ length store.old }
    ensures tree { Gives (λ x. (at store.new x.0, x.1.now)) result (conjoined_at outs.now (expression_at outs.now inner) place (at store.old left) tokens.now) }
    ensures within { IfOk result (λ x. x.0 ≤ length store.new) }
    ensures extends { Extends store.old store.new }
{
    let (_, rest) = expected_at(Expected::Word(AND), tokens)?;
    let (right, rest) = factor_at(store, outs, inner, rest)?;
    let operands = store.relink(left, right)?;
    let made = store.add(Form::And, &[], place, operands, 0)?;
    Ok((made, rest))
}

/// A primary, or the word `not` and one.
#[cycle(expression)]
#[tactic(auto, unfolding(crate::specs::Reader::factor_at, crate::specs::Reader::inverted_at))]
fn factor_at<'a>(
    store: &mut Store<Form>,
    outs: &Names,
    inner: u32,
    tokens: &'a [Token],
) -> Result<(u32, &'a [Token]), Stop<'a>>
    ensures tree { Gives (λ x. (at store.new x.0, x.1.now)) result (factor_at outs.now (expression_at outs.now inner) tokens.now) }
    ensures within { IfOk result (λ x. x.0 ≤ length store.new) }
    ensures extends { Extends store.old store.new }
{
    if !begins(Expected::Word(NOT), tokens) {
        return primary_at(store, outs, inner, tokens);
    }
    let (sign, rest) = expected_at(Expected::Word(NOT), tokens)?;
    let (operand, rest) = primary_at(store, outs, inner, rest)?;
    let made = store.add(Form::Not, &[], sign.place, operand, 0)?;
    Ok((made, rest))
}

/// A name, or an expression in brackets.
#[cycle(expression)]
#[tactic(auto, unfolding(crate::specs::Reader::primary_at, crate::specs::Reader::name_at, crate::specs::Reader::brackets_at))]
fn primary_at<'a>(
    store: &mut Store<Form>,
    outs: &Names,
    inner: u32,
    tokens: &'a [Token],
) -> Result<(u32, &'a [Token]), Stop<'a>>
    ensures tree { Gives (λ x. (at store.new x.0, x.1.now)) result (primary_at outs.now (expression_at outs.now inner) tokens.now) }
    ensures within { IfOk result (λ x. x.0 ≤ length store.new) }
    ensures extends { Extends store.old store.new }
{
    if begins_name(tokens) {
        let (name, rest) = name_outside_at(outs, tokens)?;
        let made = add_name(store, name, 0)?;
        return Ok((made, rest));
    }
    let (_, rest) = expected_at(Expected::Mark(OPENING), tokens)?;
    let (value, rest) = expression_at(store, outs, inner, rest)?;
    let (_, rest) = expected_at(Expected::Mark(CLOSING), rest)?;
    Ok((value, rest))
}
