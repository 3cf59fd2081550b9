//! Reading a file's tokens.

ghost use Rattle.std.specs.Prelude.{◌≡◌, ◌≤◌, length, IfOk, true, option_copied};
ghost use Rattle.vd_forest.specs.Store.{at, Extends};
ghost use Rattle.vd_first_grammar.specs.Given.{Gives};
ghost use Rattle.vd_first_grammar.specs.Known.{known_of};
ghost use Rattle.vd_first_grammar.specs.Shapes.{identifier, optional_identifier, context_shape};
ghost use Rattle.vd_first_grammar.specs.Refusals.{token_in};
ghost use Rattle.vd_first_grammar.specs.Reader.{entity_tree, entity_at, architecture_tree, architecture_at, file_tree, no_names, expressions_limit, file_at};
ghost use Rattle.std.specs.List.{AllByRecursion};
ghost use Rattle.vd_trees.specs.declared.revision.Revision.TheVariants.{V2019, V1993};
ghost use Rattle.vd_first_lex.specs.Lexings.{EndsOnce, IsPossible};
ghost use Rattle.vd_first_grammar.specs.Answers.{AnswersReading, OneReading, end_of};

use crate::reader_expressions::{add_identifier, place_at};
use crate::reader_known::{KnownNames, no_names};
use crate::reader_names::name_outside_at;
use crate::reader_ports::ports_at;
use crate::reader_processes::processes_at;
use crate::reader_steps::{Expected, Stop, closing_at, expected_at, same_name_at, spelled_at};
use std::alloc::{AllocError, Global};
use vd_bytes::{Place, Refused};
use vd_first_lex::tokens::{
    ALL, ARCHITECTURE, BEGIN, CLOSING, END, ENTITY, IS, LIBRARY, NESTING_LIMIT, NESTING93_LIMIT,
    OF, OPENING, POINT, PORT, SEMICOLON, Token, USE,
};
use vd_first_trees::{Design19, Design93, Form};
use vd_forest::Store;
use vd_trees::Revision;

const HEAD: [Expected; 11] = [
    Expected::Word(LIBRARY),
    Expected::Named(b"ieee"),
    Expected::Mark(SEMICOLON),
    Expected::Word(USE),
    Expected::Named(b"ieee"),
    Expected::Mark(POINT),
    Expected::Named(b"std_logic_1164"),
    Expected::Mark(POINT),
    Expected::Word(ALL),
    Expected::Mark(SEMICOLON),
    Expected::Word(ENTITY),
];

const PORTS_HEAD: [Expected; 3] = [
    Expected::Word(IS),
    Expected::Word(PORT),
    Expected::Mark(OPENING),
];

const PORTS_FOOT: [Expected; 4] = [
    Expected::Mark(CLOSING),
    Expected::Mark(SEMICOLON),
    Expected::Word(END),
    Expected::Word(ENTITY),
];

const MIDDLE: [Expected; 2] = [Expected::Mark(SEMICOLON), Expected::Word(ARCHITECTURE)];

const BODY: [Expected; 2] = [Expected::Word(IS), Expected::Word(BEGIN)];

const FOOT: [Expected; 2] = [Expected::Word(END), Expected::Word(ARCHITECTURE)];

const LAST: [Expected; 2] = [Expected::Mark(SEMICOLON), Expected::End];

/// The identifier of a closing name, where it is there.
fn add_closing(store: &mut Store<Form>, name: Option<&Token>) -> Result<u32, AllocError>
    ensures tree { IfOk result (λ made. at store.new made ≡ optional_identifier (option_copied name.entry)) }
    ensures within { IfOk result (λ made. made ≤ length store.new) }
    ensures extends { Extends store.old store.new }
{
    match name {
        Some(token) => add_identifier(store, token, 0),
        None => Ok(0),
    }
}

/// An entity's tree.
fn add_entity(
    store: &mut Store<Form>,
    head: &[Token],
    entity: &Token,
    ports_head: &[Token],
    ports: u32,
    foot: &[Token],
    closing: Option<&Token>,
) -> Result<u32, AllocError>
    requires { ports ≤ length store.old }
    ensures tree { IfOk result (λ made. at store.new made ≡ entity_tree head.now entity.now ports_head.now (at store.old ports) foot.now (option_copied closing.entry)) }
    ensures within { IfOk result (λ made. made ≤ length store.new) }
    ensures extends { Extends store.old store.new }
{
    let declarations = store.turn(ports, 0)?;
    let again = add_closing(store, closing)?;
    let end = store.add(Form::Closing, &[], place_at(foot, 3), again, 0)?;
    let clause = store.add(
        Form::PortClause,
        &[],
        place_at(ports_head, 1),
        declarations,
        end,
    )?;
    let name = add_identifier(store, entity, clause)?;
    store.add(Form::EntityDeclaration, &[], place_at(head, 10), name, 0)
}

/// An entity behind its word, whose place is in the head.
#[tactic(auto, unfolding(crate::specs::Reader::entity_at))]
fn entity_at<'a>(
    alloc: Global,
    store: &mut Store<Form>,
    revision: Revision,
    known: &mut KnownNames,
    head: &[Token],
    tokens: &'a [Token],
) -> Result<(u32, &'a Token, &'a [Token]), Stop<'a>>
    ensures entity { Gives (λ x. (record { tree = at store.new x.0; entity = x.1.now; known = known_of known.new }, x.2.now)) result (entity_at revision (known_of known.old) head.now tokens.now) }
    ensures within { IfOk result (λ x. x.0 ≤ length store.new) }
    ensures extends { Extends store.old store.new }
{
    let (entity, rest) = name_outside_at(&known.declared, tokens)?;
    known.declared.add(entity.text.as_slice())?;
    let (ports_head, rest) = spelled_at(&PORTS_HEAD, rest)?;
    let (ports, rest) = ports_at(alloc, store, known, rest)?;
    let (foot, rest) = spelled_at(&PORTS_FOOT, rest)?;
    let (closing, rest) = closing_at(revision, entity, rest)?;
    let tree = add_entity(store, head, entity, ports_head, ports, foot, closing)?;
    Ok((tree, entity, rest))
}

/// An architecture's tree.
fn add_architecture(
    store: &mut Store<Form>,
    place: Place,
    name: &Token,
    entity: &Token,
    body: Place,
    processes: u32,
    foot: &[Token],
    closing: Option<&Token>,
) -> Result<u32, AllocError>
    requires { processes ≤ length store.old }
    ensures tree { IfOk result (λ made. at store.new made ≡ architecture_tree place name.now entity.now body (at store.old processes) foot.now (option_copied closing.entry)) }
    ensures within { IfOk result (λ made. made ≤ length store.new) }
    ensures extends { Extends store.old store.new }
{
    let statements = store.turn(processes, 0)?;
    let again = add_closing(store, closing)?;
    let end = store.add(Form::Closing, &[], place_at(foot, 1), again, 0)?;
    let part = store.add(Form::StatementPart, &[], body, statements, end)?;
    let of_entity = add_identifier(store, entity, part)?;
    let names = add_identifier(store, name, of_entity)?;
    store.add(Form::ArchitectureBody, &[], place, names, 0)
}

/// An architecture behind its word, which has the place, of the entity.
#[tactic(auto, unfolding(crate::specs::Reader::architecture_at, crate::specs::Reader::body_at))]
fn architecture_at<'a>(
    store: &mut Store<Form>,
    revision: Revision,
    known: &KnownNames,
    place: Place,
    entity: &Token,
    allowance: u32,
    tokens: &'a [Token],
) -> Result<(u32, &'a [Token]), Stop<'a>>
    ensures tree { Gives (λ x. (at store.new x.0, x.1.now)) result (architecture_at revision place entity.now (known_of known.now) allowance tokens.now) }
    ensures within { IfOk result (λ x. x.0 ≤ length store.new) }
    ensures extends { Extends store.old store.new }
{
    let (name, rest) = name_outside_at(&known.declared, tokens)?;
    let (_, rest) = expected_at(Expected::Word(OF), rest)?;
    let (of_entity, rest) = same_name_at(entity, rest)?;
    let (_, rest) = spelled_at(&BODY, rest)?;
    let body = place_at(rest, 0);
    let (processes, rest) = processes_at(store, revision, known, allowance, rest)?;
    let (foot, rest) = spelled_at(&FOOT, rest)?;
    let (closing, rest) = closing_at(revision, name, rest)?;
    let (_, rest) = spelled_at(&LAST, rest)?;
    let tree = add_architecture(
        store, place, name, of_entity, body, processes, foot, closing,
    )?;
    Ok((tree, rest))
}

/// The identifier of a token of a list, before the trees of `next`.
fn add_identifier_at(
    store: &mut Store<Form>,
    tokens: &[Token],
    index: usize,
    next: u32,
) -> Result<u32, AllocError>
    requires { next ≤ length store.old }
    ensures tree { IfOk result (λ made. at store.new made ≡ identifier (token_in tokens.now index) (at store.old next)) }
    ensures within { IfOk result (λ made. made ≤ length store.new) }
    ensures extends { Extends store.old store.new }
{
    match tokens.get(index) {
        Some(token) => add_identifier(store, token, next),
        None => store.add(Form::Identifier, &[], place_at(tokens, index), 0, next),
    }
}

/// The context clause of a head, before the trees of `next`.
fn add_context(store: &mut Store<Form>, head: &[Token], next: u32) -> Result<u32, AllocError>
    requires { next ≤ length store.old }
    ensures tree { IfOk result (λ made. at store.new made ≡ context_shape head.now (at store.old next)) }
    ensures within { IfOk result (λ made. made ≤ length store.new) }
    ensures extends { Extends store.old store.new }
{
    let all = store.add(Form::All, &[], place_at(head, 8), 0, 0)?;
    let unit = add_identifier_at(store, head, 6, all)?;
    let library = add_identifier_at(store, head, 4, unit)?;
    let selected = store.add(Form::SelectedName, &[], place_at(head, 4), library, 0)?;
    let used = store.add(Form::UseClause, &[], place_at(head, 3), selected, 0)?;
    let name = add_identifier_at(store, head, 1, 0)?;
    let clauses = store.add(Form::LibraryClause, &[], place_at(head, 0), name, used)?;
    store.add(Form::ContextClause, &[], place_at(head, 0), clauses, next)
}

/// The two design units.
fn add_units(
    store: &mut Store<Form>,
    head: &[Token],
    entity: u32,
    place: Place,
    architecture: u32,
) -> Result<u32, AllocError>
    requires entity_in { entity ≤ length store.old }
    requires architecture_in { architecture ≤ length store.old }
    ensures tree { IfOk result (λ made. at store.new made ≡ file_tree head.now (at store.old entity) place (at store.old architecture)) }
    ensures within { IfOk result (λ made. made ≤ length store.new) }
    ensures extends { Extends store.old store.new }
{
    let no_context = store.add(Form::ContextClause, &[], place, 0, architecture)?;
    let second = store.add(Form::DesignUnit, &[], place, no_context, 0)?;
    let first = add_context(store, head, entity)?;
    store.add(Form::DesignUnit, &[], place_at(head, 0), first, second)
}

/// A file whose expressions may stand in one another as many times as `allowance` says.
#[tactic(auto, unfolding(crate::specs::Reader::file_at))]
fn file_at<'a>(
    alloc: Global,
    store: &mut Store<Form>,
    revision: Revision,
    known: &mut KnownNames,
    allowance: u32,
    tokens: &'a [Token],
) -> Result<(u32, &'a [Token]), Stop<'a>>
    requires { known_of known.old ≡ no_names true }
    ensures tree { Gives (λ x. (at store.new x.0, x.1.now)) result (file_at revision true allowance tokens.now) }
    ensures within { IfOk result (λ x. x.0 ≤ length store.new) }
{
    let (head, rest) = spelled_at(&HEAD, tokens)?;
    let (entity, name, rest) = entity_at(alloc, store, revision, known, head, rest)?;
    let (middle, rest) = spelled_at(&MIDDLE, rest)?;
    let place = place_at(middle, 1);
    let (architecture, rest) = architecture_at(
        store, revision, known, place, name, allowance, rest,
    )?;
    let units = add_units(store, head, entity, place, architecture)?;
    Ok((units, rest))
}

/// Why a token list is no tree.
#[derive(Debug, Drop)]
pub enum GrammarEnd {
    /// No text of the language goes on with the token at the place.
    Refused(Refused),
    /// Expressions stand too deep in one another.
    Nesting,
    Memory,
}

/// What is answered where reading stopped.
fn end_of(stop: Stop<'_>) -> GrammarEnd
    ensures { result ≡ end_of stop.entry }
{
    match stop {
        Stop::Hopeless(rest) => GrammarEnd::Refused(Refused {
            place: place_at(rest, 0),
            rule: 201,
        }),
        Stop::Nesting(_) => GrammarEnd::Nesting,
        Stop::Memory => GrammarEnd::Memory,
    }
}

const EXPRESSIONS_LIMIT: u32 = NESTING_LIMIT - 2;

const EXPRESSIONS93_LIMIT: u32 = NESTING93_LIMIT - 2;

/// How many expressions may stand in one another below a process and its assignment.
fn expressions_limit(revision: Revision) -> u32
    ensures { result ≡ expressions_limit revision }
{
    match revision {
        Revision::V2019 => EXPRESSIONS_LIMIT,
        Revision::V1993 => EXPRESSIONS93_LIMIT,
    }
}

/// The design units of a token list.
fn units_of(
    alloc: Global,
    store: &mut Store<Form>,
    revision: Revision,
    tokens: &[Token],
) -> Result<u32, GrammarEnd>
    requires ends { EndsOnce tokens.now }
    ensures answer { AnswersReading revision (λ units. at store.new units) tokens.now result }
    ensures within { IfOk result (λ units. units ≤ length store.new) }
{
    let Ok(mut known) = no_names(alloc) else {
        return Err(GrammarEnd::Memory);
    };
    let allowance = expressions_limit(revision);
    match file_at(alloc, store, revision, &mut known, allowance, tokens) {
        Ok((units, _)) => Ok(units),
        Err(stop) => Err(end_of(stop)),
    }
}

/// The syntax tree of the tokens of a 2019 file, or the first place at which there is none.
pub fn read19(alloc: Global, tokens: &[Token]) -> Result<Design19, GrammarEnd>
    requires possible { AllByRecursion (IsPossible V2019) tokens.now }
    requires ends { EndsOnce tokens.now }
    ensures answer { AnswersReading V2019 (λ design. design) tokens.now result }
{
    let mut store = Store::new(alloc);
    let units = units_of(alloc, &mut store, Revision::V2019, tokens)?;
    Ok(Design19::of(store, units))
}

/// The syntax tree of the tokens of a 1993 file, or the first place at which there is none.
pub fn read93(alloc: Global, tokens: &[Token]) -> Result<Design93, GrammarEnd>
    requires possible { AllByRecursion (IsPossible V1993) tokens.now }
    requires ends { EndsOnce tokens.now }
    ensures answer { AnswersReading V1993 (λ design. design) tokens.now result }
{
    let mut store = Store::new(alloc);
    let units = units_of(alloc, &mut store, Revision::V1993, tokens)?;
    Ok(Design93::of(store, units))
}

/// A token list has one answer alone in each revision, so what `read19` and `read93` answer is determined, unless memory
/// runs out.
pub fn one_reading()
    ensures { OneReading }
{}
