//! Reading ports.

ghost use Rattle.std.specs.Prelude.{◌≡◌, ◌≤◌, length, IfOk};
ghost use Rattle.vd_forest.specs.Forest.{nothing};
ghost use Rattle.vd_forest.specs.Store.{at, Extends};
ghost use Rattle.vd_first_grammar.specs.Given.{Gives};
ghost use Rattle.vd_first_grammar.specs.Known.{known_of};
ghost use Rattle.vd_first_grammar.specs.PortNames.{names_read};
ghost use Rattle.vd_first_grammar.specs.Reader.{is_mode, token_at, with_name, further_name_at, names_at, port_tree, port_at, further_port_at, ports_at};

use crate::reader_expressions::{add_identifier, place_at};
use crate::reader_known::{KnownNames, add_mode, is_out};
use crate::reader_names::{Names, name_outside_at};
use crate::reader_steps::{Expected, Stop, begins, expected_at, is_expected};
use std::alloc::{AllocError, Global};
use vd_bytes::{Place, Text};
use vd_first_lex::tokens::{COLON, COMMA, IN, OUT, SEMICOLON, Token};
use vd_first_trees::Form;
use vd_forest::Store;

/// The names of a port so far: the identifiers' trees, the last one first, and their texts.
#[derive(Drop)]
pub(crate) struct PortNames {
    pub(crate) made: u32,
    pub(crate) texts: Vec<Text>,
}

/// One more name.
fn add_port_name(
    alloc: Global,
    store: &mut Store<Form>,
    declared: &mut Names,
    names: PortNames,
    token: &Token,
) -> Result<PortNames, AllocError>
    requires { names.made ≤ length store.old }
    ensures named { IfOk result (λ x. names_read store.new declared.new x ≡ with_name (names_read store.old declared.old names) token.now) }
    ensures within { IfOk result (λ x. x.made ≤ length store.new) }
    ensures extends { Extends store.old store.new }
{
    let PortNames { made, mut texts } = names;
    let made = add_identifier(store, token, made)?;
    declared.add(token.text.as_slice())?;
    let text = Text::from_slice(alloc, token.text.as_slice())?;
    texts.push(text)?;
    Ok(PortNames { made, texts })
}

/// A comma and one more name.
#[tactic(auto, unfolding(crate::specs::Reader::further_name_at))]
fn further_name_at<'a>(
    alloc: Global,
    store: &mut Store<Form>,
    declared: &mut Names,
    names: PortNames,
    tokens: &'a [Token],
) -> Result<(PortNames, &'a [Token]), Stop<'a>>
    requires { names.made ≤ length store.old }
    ensures names { Gives (λ x. (names_read store.new declared.new x.0, x.1.now)) result (further_name_at (names_read store.old declared.old names) tokens.now) }
    ensures within { IfOk result (λ x. x.0.made ≤ length store.new) }
    ensures extends { Extends store.old store.new }
{
    let (_, rest) = expected_at(Expected::Mark(COMMA), tokens)?;
    let (name, rest) = name_outside_at(declared, rest)?;
    let names = add_port_name(alloc, store, declared, names, name)?;
    Ok((names, rest))
}

/// The names of a port.
#[tactic(auto, unfolding(crate::specs::Reader::names_at))]
fn names_at<'a>(
    alloc: Global,
    store: &mut Store<Form>,
    declared: &mut Names,
    tokens: &'a [Token],
) -> Result<(PortNames, &'a [Token]), Stop<'a>>
    ensures names { Gives (λ x. (names_read store.new declared.new x.0, x.1.now)) result (names_at declared.old tokens.now) }
    ensures within { IfOk result (λ x. x.0.made ≤ length store.new) }
    ensures extends { Extends store.old store.new }
{
    let (first, mut rest) = name_outside_at(declared, tokens)?;
    let none = PortNames {
        made: 0,
        texts: Vec::new(alloc),
    };
    let mut names = add_port_name(alloc, store, declared, none, first)?;
    while begins(Expected::Mark(COMMA), rest) {
        let (more, after) = further_name_at(alloc, store, declared, names, rest)?;
        names = more;
        rest = after;
    }
    Ok((names, rest))
}

/// The mode of a port.
#[tactic(auto, unfolding(crate::specs::Reader::token_at))]
fn mode_at<'a>(tokens: &'a [Token]) -> Result<(&'a Token, &'a [Token]), Stop<'a>>
    ensures { Gives (λ x. (x.0.now, x.1.now)) result (token_at is_mode tokens.now) }
{
    match tokens {
        [first, rest @ ..]
            if is_expected(Expected::Word(IN), first) || is_expected(Expected::Word(OUT), first) =>
            Ok((first, rest)),
        _ => Err(Stop::Hopeless(tokens)),
    }
}

/// A port's tree, before the trees of `next`.
fn add_port(
    store: &mut Store<Form>,
    place: Place,
    names: u32,
    mode: &Token,
    subtype: &Token,
    next: u32,
) -> Result<u32, AllocError>
    requires names_in { names ≤ length store.old }
    requires next_in { next ≤ length store.old }
    ensures tree { IfOk result (λ made. at store.new made ≡ port_tree place (at store.old names) mode.now subtype.now (at store.old next)) }
    ensures within { IfOk result (λ made. made ≤ length store.new) }
    ensures extends { Extends store.old store.new }
{
    let identifiers = store.turn(names, 0)?;
    let identifier = add_identifier(store, subtype, 0)?;
    let selected = store.add(Form::SelectedName, &[], subtype.place, identifier, 0)?;
    let indication = store.add(Form::SubtypeIndication, &[], subtype.place, selected, 0)?;
    let form = if is_out(mode) { Form::Out } else { Form::In };
    let direction = store.add(form, &[], mode.place, 0, indication)?;
    let list = store.add(Form::IdentifierList, &[], place, identifiers, direction)?;
    store.add(Form::PortDeclaration, &[], place, list, next)
}

/// A port, before the ports that were made.
#[tactic(auto, unfolding(crate::specs::Reader::port_at))]
fn port_at<'a>(
    alloc: Global,
    store: &mut Store<Form>,
    known: &mut KnownNames,
    made: u32,
    tokens: &'a [Token],
) -> Result<(u32, &'a [Token]), Stop<'a>>
    requires { made ≤ length store.old }
    ensures port { Gives (λ x. (record { made = at store.new x.0; known = known_of known.new }, x.1.now)) result (port_at (record { made = at store.old made; known = known_of known.old }) tokens.now) }
    ensures within { IfOk result (λ x. x.0 ≤ length store.new) }
    ensures extends { Extends store.old store.new }
{
    let place = place_at(tokens, 0);
    let (names, rest) = names_at(alloc, store, &mut known.declared, tokens)?;
    let (_, rest) = expected_at(Expected::Mark(COLON), rest)?;
    let (mode, rest) = mode_at(rest)?;
    let (subtype, rest) = expected_at(Expected::Named(b"std_ulogic"), rest)?;
    add_mode(known, names.texts.as_slice(), mode)?;
    let port = add_port(store, place, names.made, mode, subtype, made)?;
    Ok((port, rest))
}

/// A semicolon and one more port.
#[tactic(auto, unfolding(crate::specs::Reader::further_port_at))]
fn further_port_at<'a>(
    alloc: Global,
    store: &mut Store<Form>,
    known: &mut KnownNames,
    made: u32,
    tokens: &'a [Token],
) -> Result<(u32, &'a [Token]), Stop<'a>>
    requires { made ≤ length store.old }
    ensures port { Gives (λ x. (record { made = at store.new x.0; known = known_of known.new }, x.1.now)) result (further_port_at (record { made = at store.old made; known = known_of known.old }) tokens.now) }
    ensures within { IfOk result (λ x. x.0 ≤ length store.new) }
    ensures extends { Extends store.old store.new }
{
    let (_, rest) = expected_at(Expected::Mark(SEMICOLON), tokens)?;
    port_at(alloc, store, known, made, rest)
}

/// All ports, the last one first.
#[tactic(auto, unfolding(crate::specs::Reader::ports_at))]
pub(crate) fn ports_at<'a>(
    alloc: Global,
    store: &mut Store<Form>,
    known: &mut KnownNames,
    tokens: &'a [Token],
) -> Result<(u32, &'a [Token]), Stop<'a>>
    ensures ports { Gives (λ x. (record { made = at store.new x.0; known = known_of known.new }, x.1.now)) result (ports_at (known_of known.old) tokens.now) }
    ensures within { IfOk result (λ x. x.0 ≤ length store.new) }
    ensures extends { Extends store.old store.new }
{
    let (mut made, mut rest) = port_at(alloc, store, known, 0, tokens)?;
    while begins(Expected::Mark(SEMICOLON), rest) {
        let (port, after) = further_port_at(alloc, store, known, made, rest)?;
        made = port;
        rest = after;
    }
    Ok((made, rest))
}
