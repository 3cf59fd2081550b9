//! Reading what stands in the brackets of a process.

ghost use Rattle.std.specs.Prelude.{◌≡◌, ◌≤◌, length, IfOk};
ghost use Rattle.vd_forest.specs.Store.{at, Extends};
ghost use Rattle.vd_first_grammar.specs.Given.{Gives};
ghost use Rattle.vd_first_grammar.specs.Reader.{further_listed_at, listed_at, every_at, sensitivity_at};

use crate::reader_expressions::add_name;
use crate::reader_names::{Names, name_outside_at};
use crate::reader_steps::{Expected, Stop, begins, expected_at};
use vd_first_lex::tokens::{ALL, COMMA, Token};
use vd_first_trees::Form;
use vd_forest::Store;
use vd_trees::Revision;

/// A comma and one more name, before the names that were made.
#[tactic(auto, unfolding(crate::specs::Reader::further_listed_at))]
fn further_listed_at<'a>(
    store: &mut Store<Form>,
    outs: &Names,
    made: u32,
    tokens: &'a [Token],
) -> Result<(u32, &'a [Token]), Stop<'a>>
    requires { made ≤ length store.old }
    ensures tree { Gives (λ x. (at store.new x.0, x.1.now)) result (further_listed_at outs.now (at store.old made) tokens.now) }
    ensures within { IfOk result (λ x. x.0 ≤ length store.new) }
    ensures extends { Extends store.old store.new }
{
    let (_, rest) = expected_at(Expected::Mark(COMMA), tokens)?;
    let (name, rest) = name_outside_at(outs, rest)?;
    let tree = add_name(store, name, made)?;
    Ok((tree, rest))
}

/// The names of a list, the last one first.
#[tactic(auto, unfolding(crate::specs::Reader::listed_at))]
fn listed_at<'a>(
    store: &mut Store<Form>,
    outs: &Names,
    tokens: &'a [Token],
) -> Result<(u32, &'a [Token]), Stop<'a>>
    ensures tree { Gives (λ x. (at store.new x.0, x.1.now)) result (listed_at outs.now tokens.now) }
    ensures within { IfOk result (λ x. x.0 ≤ length store.new) }
    ensures extends { Extends store.old store.new }
{
    let (first, mut rest) = name_outside_at(outs, tokens)?;
    let mut made = add_name(store, first, 0)?;
    while begins(Expected::Mark(COMMA), rest) {
        let (tree, after) = further_listed_at(store, outs, made, rest)?;
        made = tree;
        rest = after;
    }
    Ok((made, rest))
}

/// The word `all`, which has no names.
#[tactic(auto, unfolding(crate::specs::Reader::every_at))]
fn every_at<'a>(
    store: &mut Store<Form>,
    tokens: &'a [Token],
) -> Result<(u32, &'a [Token]), Stop<'a>>
    ensures tree { Gives (λ x. (at store.new x.0, x.1.now)) result (every_at tokens.now) }
    ensures within { IfOk result (λ x. x.0 ≤ length store.new) }
    ensures extends { Extends store.old store.new }
{
    let (_, rest) = expected_at(Expected::Word(ALL), tokens)?;
    Ok((0, rest))
}

/// The names of a sensitivity, the last one first, or none where it is the word `all`.
#[tactic(auto, unfolding(crate::specs::Reader::sensitivity_at))]
pub(crate) fn sensitivity_at<'a>(
    store: &mut Store<Form>,
    revision: Revision,
    outs: &Names,
    tokens: &'a [Token],
) -> Result<(u32, &'a [Token]), Stop<'a>>
    ensures tree { Gives (λ x. (at store.new x.0, x.1.now)) result (sensitivity_at revision outs.now tokens.now) }
    ensures within { IfOk result (λ x. x.0 ≤ length store.new) }
    ensures extends { Extends store.old store.new }
{
    match revision {
        Revision::V2019 => every_at(store, tokens),
        Revision::V1993 => listed_at(store, outs, tokens),
    }
}
