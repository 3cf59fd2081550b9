//! The tokens of a 1993 tree.

ghost use Rattle.std.specs.Prelude.{◌≡◌, ◌++◌, ◌∷◌, [], OnOk, IfOk};
ghost use Rattle.vd_forest.specs.Forest.{nothing};
ghost use Rattle.vd_first_print.specs.Writing.{fixed_tokens, own_tokens, in_front, between, next_position, behind, has_brackets, in_brackets, between_if_more, parts_tokens, design_tokens};

use std::alloc::{AllocError, Global};
use vd_bytes::{Place, Text};
use vd_first_lex::tokens::*;
use vd_first_trees::{Design93, Form};
use vd_forest::{Cursor, Opened};

/// Where a part stands among its parent's parts.
#[derive(Clone, Copy, PartialEq, Eq, Debug)]
pub enum Position {
    First,
    Second,
    Later,
}

const NO_PLACE: Place = Place {
    file: 0,
    line: 0,
    column: 0,
};

/// The tokens of a 1993 tree, all at no place.
pub fn derive93(alloc: Global, design: &Design93) -> Result<Vec<Token>, AllocError>
    ensures { IfOk result (λ tokens. tokens.items ≡ design_tokens design.now) }
{
    let mut tokens = Vec::new(alloc);
    write_parts(alloc, &mut tokens, Form::StatementPart, &design.units())?;
    Ok(tokens)
}

#[cycle(writing)]
fn write_parts(
    alloc: Global,
    out: &mut Vec<Token>,
    parent: Form,
    parts: &Cursor<'_, Form>,
) -> Result<(), AllocError>
    ensures { OnOk result (out.new.items ≡ out.old.items ++ parts_tokens parent Position.First parts.now) }
{
    let mut rest = parts.fork();
    let mut position = Position::First;
    while let Some(node) = rest.open() {
        write_part(alloc, out, parent, position, &node)?;
        write_between(alloc, out, parent, position, &node.next)?;
        position = next_position(position);
        rest = node.next;
    }
    Ok(())
}

#[cycle(writing)]
fn write_part(
    alloc: Global,
    out: &mut Vec<Token>,
    parent: Form,
    position: Position,
    node: &Opened<'_, Form>,
) -> Result<(), AllocError>
    ensures { OnOk result (out.new.items ≡ out.old.items ++ in_brackets (has_brackets parent position node.now.form)
        (own_tokens node.now.form node.now.text.now ++ (fixed_tokens (in_front node.now.form)
        ++ (parts_tokens node.now.form Position.First node.now.parts ++ fixed_tokens (behind node.now.form))))) }
{
    let wrapped = has_brackets(parent, position, node.form);
    if wrapped {
        push_fixed(alloc, out, &[Kind::Mark(OPENING)])?;
    }
    push_own(alloc, out, node.form, node.text)?;
    push_fixed(alloc, out, in_front(node.form))?;
    write_parts(alloc, out, node.form, &node.parts)?;
    push_fixed(alloc, out, behind(node.form))?;
    if wrapped {
        push_fixed(alloc, out, &[Kind::Mark(CLOSING)])?;
    }
    Ok(())
}

fn write_between(
    alloc: Global,
    out: &mut Vec<Token>,
    parent: Form,
    position: Position,
    next: &Cursor<'_, Form>,
) -> Result<(), AllocError>
    ensures { OnOk result (out.new.items ≡ out.old.items ++ between_if_more parent position next.now) }
{
    if let Some(_) = next.open() {
        push_fixed(alloc, out, between(parent, position))?;
    }
    Ok(())
}

fn push_token(
    alloc: Global,
    out: &mut Vec<Token>,
    kind: Kind,
    text: &[u8],
) -> Result<(), AllocError>
    ensures { OnOk result (out.new.items ≡ out.old.items ++ record { kind = kind; text = text.now; place = NO_PLACE } ∷ []) }
{
    let text = Text::from_slice(alloc, text)?;
    out.push(Token {
        kind,
        text,
        place: NO_PLACE,
    })?;
    Ok(())
}

fn push_own(alloc: Global, out: &mut Vec<Token>, form: Form, text: &[u8]) -> Result<(), AllocError>
    ensures { OnOk result (out.new.items ≡ out.old.items ++ own_tokens form text.now) }
{
    match form {
        Form::Identifier => push_token(alloc, out, Kind::Name, text),
        _ => Ok(()),
    }
}

fn push_fixed(alloc: Global, out: &mut Vec<Token>, kinds: &[Kind]) -> Result<(), AllocError>
    ensures { OnOk result (out.new.items ≡ out.old.items ++ fixed_tokens kinds.now) }
{
    for kind in kinds {
        push_token(alloc, out, *kind, &[])?;
    }
    Ok(())
}

fn next_position(position: Position) -> Position
    ensures { result ≡ next_position position }
{
    match position {
        Position::First => Position::Second,
        Position::Second | Position::Later => Position::Later,
    }
}

// The words and marks in front of the parts of a form.
fn in_front(form: Form) -> &'static [Kind]
    ensures { result.now ≡ in_front form }
{
    match form {
        Form::LibraryClause => &[Kind::Word(LIBRARY)],
        Form::UseClause => &[Kind::Word(USE)],
        Form::All => &[Kind::Word(ALL)],
        Form::EntityDeclaration => &[Kind::Word(ENTITY)],
        Form::PortClause => &[Kind::Word(PORT), Kind::Mark(OPENING)],
        Form::In => &[Kind::Word(IN)],
        Form::Out => &[Kind::Word(OUT)],
        Form::ArchitectureBody => &[Kind::Word(ARCHITECTURE)],
        Form::ProcessStatement => &[Kind::Word(PROCESS), Kind::Mark(OPENING)],
        Form::Not => &[Kind::Word(NOT)],
        Form::Is => &[Kind::Word(IS)],
        _ => &[],
    }
}

// The words and marks between two parts of a form.
fn between(form: Form, position: Position) -> &'static [Kind]
    ensures { result.now ≡ between form position }
{
    match (form, position) {
        (Form::LibraryClause | Form::UseClause | Form::IdentifierList | Form::SensitivityList, _) =>
            { &[Kind::Mark(COMMA)] }
        (Form::SelectedName, _) => &[Kind::Mark(POINT)],
        (Form::EntityDeclaration, Position::First) => &[Kind::Word(IS)],
        (Form::EntityDeclaration, Position::Second) => &[Kind::Word(END), Kind::Word(ENTITY)],
        (Form::PortClause, _) => &[Kind::Mark(SEMICOLON)],
        (Form::PortDeclaration, Position::First) => &[Kind::Mark(COLON)],
        (Form::ArchitectureBody, Position::First) => &[Kind::Word(OF)],
        (Form::ArchitectureBody, Position::Second) => &[Kind::Word(IS), Kind::Word(BEGIN)],
        (Form::ArchitectureBody, Position::Later) => &[Kind::Word(END), Kind::Word(ARCHITECTURE)],
        (Form::ProcessStatement, Position::First) => &[Kind::Mark(CLOSING)],
        (Form::ProcessStatement, Position::Second) => &[Kind::Word(BEGIN)],
        (Form::SignalAssignment, _) => &[Kind::Mark(ARROW)],
        (Form::And, _) => &[Kind::Word(AND)],
        _ => &[],
    }
}

// The words and marks behind the parts of a form.
fn behind(form: Form) -> &'static [Kind]
    ensures { result.now ≡ behind form }
{
    match form {
        Form::LibraryClause
        | Form::UseClause
        | Form::EntityDeclaration
        | Form::ArchitectureBody
        | Form::SignalAssignment => &[Kind::Mark(SEMICOLON)],
        Form::PortClause => &[Kind::Mark(CLOSING), Kind::Mark(SEMICOLON)],
        Form::ProcessStatement => &[Kind::Word(END), Kind::Word(PROCESS), Kind::Mark(SEMICOLON)],
        _ => &[],
    }
}

// Whether a part is an operand that has brackets.
fn has_brackets(parent: Form, position: Position, form: Form) -> bool
    ensures { result ≡ has_brackets parent position form }
{
    match (parent, position, form) {
        (Form::And, Position::First, Form::And) => false,
        (Form::And | Form::Not, _, Form::And | Form::Not) => true,
        _ => false,
    }
}
