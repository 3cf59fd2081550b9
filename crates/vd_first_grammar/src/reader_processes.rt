//! Reading processes.

ghost use Rattle.std.specs.Prelude.{◌≡◌, ◌≤◌, length, IfOk, option_copied};
ghost use Rattle.vd_forest.specs.Forest.{nothing};
ghost use Rattle.vd_forest.specs.Store.{at, Extends};
ghost use Rattle.vd_first_grammar.specs.Symbols.{word};
ghost use Rattle.vd_first_grammar.specs.Given.{Gives};
ghost use Rattle.vd_first_grammar.specs.Known.{known_of};
ghost use Rattle.vd_first_grammar.specs.Fronts.{front_read};
ghost use Rattle.vd_first_grammar.specs.Reader.{is, repeated_at, sensitivity_form, is_form, front_at, process_tree, process_at};

use crate::reader_expressions::{add_name, expression_at, place_at};
use crate::reader_known::KnownNames;
use crate::reader_names::{Names, name_outside_at};
use crate::reader_sensitivities::sensitivity_at;
use crate::reader_steps::{Expected, Stop, begins, expected_at, is_at, spelled_at};
use std::alloc::AllocError;
use vd_bytes::Place;
use vd_first_lex::tokens::{ARROW, BEGIN, CLOSING, END, OPENING, PROCESS, SEMICOLON, Token};
use vd_first_trees::Form;
use vd_forest::Store;
use vd_trees::Revision;

const PROCESS_HEAD: [Expected; 2] = [Expected::Word(PROCESS), Expected::Mark(OPENING)];

const PROCESS_FOOT: [Expected; 4] = [
    Expected::Mark(SEMICOLON),
    Expected::Word(END),
    Expected::Word(PROCESS),
    Expected::Mark(SEMICOLON),
];

/// What stands before the target of a process: its place, the place of its sensitivity and the names there, the last
/// one first, and whether the word `is` stands there, with the place of that word or of the next one.
#[derive(Clone, Copy)]
pub(crate) struct Front {
    pub(crate) place: Place,
    pub(crate) sensitivity: Place,
    pub(crate) names: u32,
    pub(crate) word: Form,
    pub(crate) word_place: Place,
}

/// The form of the word `is`, or of its absence.
fn is_form(word: Option<&Token>) -> Form
    ensures { result ≡ is_form (option_copied word.entry) }
{
    match word {
        Some(_) => Form::Is,
        None => Form::Absent,
    }
}

/// What stands before the target of a process.
#[tactic(auto, unfolding(crate::specs::Reader::front_at))]
fn front_at<'a>(
    store: &mut Store<Form>,
    revision: Revision,
    outs: &Names,
    tokens: &'a [Token],
) -> Result<(Front, &'a [Token]), Stop<'a>>
    ensures front { Gives (λ x. (front_read store.new x.0, x.1.now)) result (front_at revision outs.now tokens.now) }
    ensures within { IfOk result (λ x. x.0.names ≤ length store.new) }
    ensures extends { Extends store.old store.new }
{
    let place = place_at(tokens, 0);
    let (_, rest) = spelled_at(&PROCESS_HEAD, tokens)?;
    let sensitivity = place_at(rest, 0);
    let (names, rest) = sensitivity_at(store, revision, outs, rest)?;
    let (_, rest) = expected_at(Expected::Mark(CLOSING), rest)?;
    let word_place = place_at(rest, 0);
    let (word, rest) = is_at(revision, rest)?;
    let (_, rest) = expected_at(Expected::Word(BEGIN), rest)?;
    let word = is_form(word);
    Ok((
        Front {
            place,
            sensitivity,
            names,
            word,
            word_place,
        },
        rest,
    ))
}

/// The form of a sensitivity.
fn sensitivity_form(revision: Revision) -> Form
    ensures { result ≡ sensitivity_form revision }
{
    match revision {
        Revision::V2019 => Form::All,
        Revision::V1993 => Form::SensitivityList,
    }
}

/// A process of one assignment, before the trees of `next`.
fn add_process(
    store: &mut Store<Form>,
    revision: Revision,
    front: Front,
    target: &Token,
    value: u32,
    next: u32,
) -> Result<u32, AllocError>
    requires names_in { front.names ≤ length store.old }
    requires value_in { value ≤ length store.old }
    requires next_in { next ≤ length store.old }
    ensures tree { IfOk result (λ made. at store.new made ≡ process_tree revision (front_read store.old front) target.now (at store.old value) (at store.old next)) }
    ensures within { IfOk result (λ made. made ≤ length store.new) }
    ensures extends { Extends store.old store.new }
{
    let name = add_name(store, target, value)?;
    let assignment = store.add(Form::SignalAssignment, &[], target.place, name, 0)?;
    let word = store.add(front.word, &[], front.word_place, 0, assignment)?;
    let names = store.turn(front.names, 0)?;
    let form = sensitivity_form(revision);
    let sensitivity = store.add(form, &[], front.sensitivity, names, word)?;
    store.add(Form::ProcessStatement, &[], front.place, sensitivity, next)
}

/// A process, before the trees that were made.
#[tactic(auto, unfolding(crate::specs::Reader::process_at))]
fn process_at<'a>(
    store: &mut Store<Form>,
    revision: Revision,
    known: &KnownNames,
    allowance: u32,
    made: u32,
    tokens: &'a [Token],
) -> Result<(u32, &'a [Token]), Stop<'a>>
    requires { made ≤ length store.old }
    ensures tree { Gives (λ x. (at store.new x.0, x.1.now)) result (process_at revision (known_of known.now) allowance (at store.old made) tokens.now) }
    ensures within { IfOk result (λ x. x.0 ≤ length store.new) }
    ensures extends { Extends store.old store.new }
{
    let (front, rest) = front_at(store, revision, &known.outs, tokens)?;
    let (target, rest) = name_outside_at(&known.ins, rest)?;
    let (_, rest) = expected_at(Expected::Mark(ARROW), rest)?;
    let (value, rest) = expression_at(store, &known.outs, allowance, rest)?;
    let (_, rest) = spelled_at(&PROCESS_FOOT, rest)?;
    let tree = add_process(store, revision, front, target, value, made)?;
    Ok((tree, rest))
}

/// All processes, the last one first.
pub(crate) fn processes_at<'a>(
    store: &mut Store<Form>,
    revision: Revision,
    known: &KnownNames,
    allowance: u32,
    tokens: &'a [Token],
) -> Result<(u32, &'a [Token]), Stop<'a>>
    ensures tree { Gives (λ x. (at store.new x.0, x.1.now)) result (repeated_at (is (word PROCESS)) (process_at revision (known_of known.now) allowance) nothing tokens.now) }
    ensures within { IfOk result (λ x. x.0 ≤ length store.new) }
    ensures extends { Extends store.old store.new }
{
    let mut made = 0;
    let mut rest = tokens;
    while begins(Expected::Word(PROCESS), rest) {
        let (tree, after) = process_at(store, revision, known, allowance, made, rest)?;
        made = tree;
        rest = after;
    }
    Ok((made, rest))
}
